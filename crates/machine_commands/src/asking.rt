// Questions, and motors.
ghost use Rattle.std.specs.Prelude.{◌≡◌, ◌≤◌, ◌<◌, ◌==◌, ◌^◌, ℕ, length, slice_index};
ghost use Rattle.machine_commands.specs.Common.{memory_of, InRange, IsSound};
ghost use Rattle.machine_commands.specs.Asked.{ReadsLine, SensesDrive, StartsMotor};
ghost use Rattle.machine_commands.specs.Motored.{with_motor_of};
ghost use Rattle.machine_commands.specs.Shown.{board_of, rig_shown};

use crate::machine::CommandedMachine;
use crate::ports::{DIR, DOR};
use drive_model::Drive;
use fdc_commands::Command;
use fdc_registers::{Dir, St3};

/// Status register 3: the medium is protected.
pub(crate) const PROTECTED: u8 = St3::PROTECTED.0;

/// The word times in which a medium comes to speed.
const SPIN_UP: u32 = 6_250;

/// The driver's page begins here.
pub(crate) const PAGE_START: u32 = 0xF_0000;

impl<D: Drive> CommandedMachine<D> {
    /// Reads the change line.
    pub(crate) fn read_line(&mut self, bay: u8) -> bool
        requires { bay ≤ 1 }
        ensures reads { ReadsLine self.old.motors bay (board_of D.state self.old) result (board_of D.state self.new) }
        ensures motors { self.new.motors ≡ self.old.motors }
    {
        self.select(bay);
        self.machine.inb(DIR) == Dir::CHANGED.0
    }

    /// SENSE DRIVE STATUS.
    pub(crate) fn sense_drive(&mut self, bay: u8) -> u8
        requires { bay ≤ 1 }
        ensures senses { SensesDrive self.old.motors bay (board_of D.state self.old) result (board_of D.state self.new) }
        ensures motors { self.new.motors ≡ self.old.motors }
    {
        self.select(bay);
        self.send_command(Command::SenseDrive { head_drive: bay });
        self.result_byte()
    }

    /// Turns a motor on, and waits until a medium has come to speed.
    pub(crate) fn spin_up(&mut self, bay: u8)
        requires { bay ≤ 1 }
        ensures starts { StartsMotor self.old.motors bay (board_of D.state self.old) (board_of D.state self.new) }
        ensures motors { self.new.motors ≡ with_motor_of bay self.old.motors }
    {
        self.motors = self.motors.with(bay);
        let dor = self.motors.dor(bay);
        self.machine.outb(DOR, dor);
        self.machine.wait(SPIN_UP);
    }

    /// The ranges of both drives and of memory; it does nothing.
    pub(crate) fn keep_ranges(&self)
        ensures first { InRange (board_of D.state self.now).first }
        ensures second { InRange (board_of D.state self.now).second }
        ensures sound { IsSound (rig_shown D.state self.now) }
    {
        let _first = self.machine.faults(0);
        let _second = self.machine.faults(1);
        self.keep_memory();
    }

    /// The ranges of memory; it does nothing.
    pub(crate) fn keep_memory(&self)
        ensures length { length (memory_of (board_of D.state self.now)) ≡ 1048576 }
        ensures bytes { (k : ℕ) → slice_index (memory_of (board_of D.state self.now)) k < 2 ^ 8 }
    {
        let _byte = self.machine.ram(0);
    }
}
