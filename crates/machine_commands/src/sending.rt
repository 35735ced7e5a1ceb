// Bytes to and from the controller.
ghost use Rattle.std.specs.Prelude.{◌≡◌, ◌≤◌};
ghost use Rattle.fdc_commands.specs.Spelled.{spelled};
ghost use Rattle.machine_commands.specs.Common.{Inputs, Outputs};
ghost use Rattle.machine_commands.specs.Ready.{dor_with};
ghost use Rattle.machine_commands.specs.Sending.{Sends, Settles};
ghost use Rattle.machine_commands.specs.Shown.{board_of};

use crate::machine::CommandedMachine;
use crate::ports::{DATA, DOR};
use drive_model::Drive;
use fdc_commands::Command;

impl<D: Drive> CommandedMachine<D> {
    /// Selects a bay. The motors stay as they are.
    pub(crate) fn select(&mut self, bay: u8)
        requires { bay ≤ 1 }
        ensures selects { Outputs 0x3F2 (dor_with self.old.motors bay) (board_of D.state self.old) (board_of D.state self.new) }
        ensures motors { self.new.motors ≡ self.old.motors }
    {
        let dor = self.motors.dor(bay);
        self.machine.outb(DOR, dor);
    }

    /// Sends a command.
    pub(crate) fn send_command(&mut self, command: Command)
        ensures sends { Sends (spelled command) (board_of D.state self.old) (board_of D.state self.new) }
        ensures motors { self.new.motors ≡ self.old.motors }
    {
        self.send(command.bytes().as_slice());
    }

    /// Sends the bytes of a command.
    pub(crate) fn send(&mut self, bytes: &[u8])
        ensures sends { Sends bytes.now (board_of D.state self.old) (board_of D.state self.new) }
        ensures motors { self.new.motors ≡ self.old.motors }
    {
        for byte in bytes {
            self.machine.outb(DATA, *byte);
        }
    }

    /// Reads a result byte.
    pub(crate) fn result_byte(&mut self) -> u8
        ensures takes { Inputs 0x3F5 (board_of D.state self.old) result (board_of D.state self.new) }
        ensures motors { self.new.motors ≡ self.old.motors }
    {
        self.machine.inb(DATA)
    }

    /// Lets the latch see the interrupt line, which fell when a result was read, and takes what is left in the latch.
    pub(crate) fn settle(&mut self)
        ensures settles { Settles (board_of D.state self.old) (board_of D.state self.new) }
        ensures motors { self.new.motors ≡ self.old.motors }
    {
        let _taken = self.machine.taken();
        self.machine.wait(1);
        let _ = self.machine.take_irq();
    }
}
