// Reset, and what is set up before a data command.
ghost use Rattle.std.specs.Prelude.{◌≡◌, ◌≤◌};
ghost use Rattle.machine_commands.specs.Asked.{TakesPolls, Resets, none_on};
ghost use Rattle.machine_commands.specs.Awaited.{Prepares};
ghost use Rattle.machine_commands.specs.Shown.{board_of};

use crate::codes::rate_bits;
use crate::machine::CommandedMachine;
use crate::motors::Motors;
use crate::ports::{CCR, DOR};
use drive_model::Drive;
use fdc_commands::Command;
use flop_base::Rate;

/// SPECIFY: step rate and head times, and DMA on.
const SPECIFY: Command = Command::Specify {
    srt_hut: 0xAF,
    hlt_nd: 0x02,
};

/// CONFIGURE: the FIFO on with threshold 8, polling on, no implied seek.
const CONFIGURE: Command = Command::Configure {
    zero: 0x00,
    options: 0x07,
    pretrk: 0x00,
};

/// DOR that holds the controller in reset.
const HELD: u8 = 0x00;

/// CCR of 500 kbit/s.
const FASTEST: u8 = 0x00;

impl<D: Drive> CommandedMachine<D> {
    /// The accesses of a reset.
    pub(crate) fn set_up(&mut self)
        ensures resets { Resets (board_of D.state self.old) (board_of D.state self.new) }
        ensures motors { self.new.motors ≡ none_on }
    {
        self.motors = Motors::OFF;
        self.machine.outb(DOR, HELD);
        self.select(0);
        self.take_polls();
        self.send_command(SPECIFY);
        self.send_command(CONFIGURE);
        self.machine.outb(CCR, FASTEST);
        self.settle();
    }

    /// Takes the results of the poll that follows a reset, one for each of the four drives. The poll comes in the first
    /// device step.
    fn take_polls(&mut self)
        ensures polls { TakesPolls (board_of D.state self.old) (board_of D.state self.new) }
        ensures motors { self.new.motors ≡ self.old.motors }
    {
        self.settle();
        let _ = self.sense_interrupt();
        let _ = self.sense_interrupt();
        let _ = self.sense_interrupt();
        let _ = self.sense_interrupt();
    }

    /// Selects a bay and sets the data rate.
    pub(crate) fn prepare(&mut self, bay: u8, rate: Rate)
        requires { bay ≤ 1 }
        ensures prepares { Prepares self.old.motors bay rate (board_of D.state self.old) (board_of D.state self.new) }
        ensures motors { self.new.motors ≡ self.old.motors }
    {
        self.machine.ranges();
        self.keep_counts();
        self.keep_memory();
        self.select(bay);
        self.keep_ranges();
        self.machine.outb(CCR, rate_bits(rate));
    }
}
