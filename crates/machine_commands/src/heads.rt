// Commands that move the heads.
ghost use Rattle.std.specs.Prelude.{◌≡◌, ◌≤◌};
ghost use Rattle.machine_commands.specs.Asked.{EndsSeek, SendsRecalibrate, SendsSeek};
ghost use Rattle.machine_commands.specs.Sending.{Senses, TakesNumber};
ghost use Rattle.machine_commands.specs.Shown.{board_of};

use crate::machine::CommandedMachine;
use drive_model::Drive;
use fdc_commands::Command;
use fdc_registers::St0;

/// Status register 0: track 0 was not reached.
pub(crate) const EQUIPMENT_CHECK: u8 = St0::EQUIPMENT_CHECK.0;

/// The device steps in which a seek of at most 79 pulses ends, one for each pulse and one for its end.
const LONGEST_SEEK: u32 = 80;

impl<D: Drive> CommandedMachine<D> {
    /// RECALIBRATE; gives its status register 0.
    pub(crate) fn step_outward(&mut self, bay: u8) -> u8
        requires { bay ≤ 1 }
        ensures sends { SendsRecalibrate self.old.motors bay (board_of D.state self.old) result (board_of D.state self.new) }
        ensures motors { self.new.motors ≡ self.old.motors }
    {
        self.select(bay);
        self.send_command(Command::Recalibrate { drive: bay });
        self.end_seek()
    }

    /// SEEK.
    pub(crate) fn step_toward(&mut self, bay: u8, target: u8)
        requires { bay ≤ 1 }
        ensures sends { SendsSeek self.old.motors bay target (board_of D.state self.old) (board_of D.state self.new) }
        ensures motors { self.new.motors ≡ self.old.motors }
    {
        self.select(bay);
        self.send_command(Command::Seek {
            head_drive: bay,
            ncn: target,
        });
        let _ = self.end_seek();
    }

    /// Waits until the seek is over, and gives its status register 0.
    fn end_seek(&mut self) -> u8
        ensures ends { EndsSeek (board_of D.state self.old) result (board_of D.state self.new) }
        ensures motors { self.new.motors ≡ self.old.motors }
    {
        self.machine.wait(LONGEST_SEEK);
        let status = self.sense_interrupt();
        self.settle();
        status
    }

    /// SENSE INTERRUPT; gives status register 0 of the lowest drive with a pending result, 80 where no result is
    /// pending.
    pub(crate) fn sense_interrupt(&mut self) -> u8
        ensures senses { Senses (board_of D.state self.old) result (board_of D.state self.new) }
        ensures motors { self.new.motors ≡ self.old.motors }
    {
        self.send_command(Command::SenseInterrupt);
        let status = self.result_byte();
        self.take_number(status == St0::INVALID.0);
        status
    }

    /// Reads the cylinder number that follows status register 0, if a result was pending.
    fn take_number(&mut self, is_none: bool)
        ensures takes { TakesNumber is_none (board_of D.state self.old) (board_of D.state self.new) }
        ensures motors { self.new.motors ≡ self.old.motors }
    {
        if is_none {
            return;
        }
        let _cylinder = self.result_byte();
    }
}
