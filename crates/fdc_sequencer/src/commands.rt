// Whole commands, and their results.
ghost use Rattle.std.specs.Prelude.{◌≡◌};
ghost use Rattle.fdc_sequencer.specs.Common.{status_of_lines};
ghost use Rattle.fdc_sequencer.specs.Adapters.{lines_at, SameDrives};
ghost use Rattle.fdc_sequencer.specs.Fronts.{front_state, adapter_of, is_ready, is_through, results_outside, results_taken, Commands, GivesCommand, GivesTransfer, SeeksFirst, Starts};

use crate::sequencer::Sequencer;
use crate::stage::FrontStage;
use crate::transfer::Transfer;
use drive_model::Inspect;
use fdc_commands::{Accepted, Command, Results};

impl<D: Inspect> Sequencer<D> {
    /// Whether a command may be given.
    pub fn is_ready(&self) -> bool
        ensures { result ≡ is_ready (front_state D.state self.now) }
    {
        match self.stage {
            FrontStage::Through => self.adapter.is_idle(),
            _ => false,
        }
    }

    /// Whether no command of several sectors is under way, or has results.
    pub fn is_through(&self) -> bool
        ensures { result ≡ is_through (front_state D.state self.now).stage }
    {
        matches!(self.stage, FrontStage::Through)
    }

    /// Gives a command of one sector, or without sectors, to the controller. If a command may not be given, nothing
    /// happens.
    pub fn give_command(&mut self, command: Command)
        ensures gives { GivesCommand command (front_state D.state self.old) (front_state D.state self.new) }
        ensures drives { SameDrives (adapter_of self.old) (adapter_of self.new) }
    {
        if self.is_ready() {
            self.command(command);
        }
    }

    /// Lets the controller do a command.
    fn command(&mut self, command: Command)
        ensures gives { Commands command (front_state D.state self.old) (front_state D.state self.new) }
        ensures drives { SameDrives (adapter_of self.old) (adapter_of self.new) }
    {
        self.adapter.take_accepted(Accepted::Ready(command));
    }

    /// Starts a command of several sectors, with a seek if one is implied for it. If a command may not be given,
    /// nothing happens.
    pub fn give_transfer(&mut self, transfer: Transfer)
        ensures gives { GivesTransfer transfer (front_state D.state self.old) (front_state D.state self.new) }
    {
        if self.is_ready() {
            self.start(transfer);
        }
    }

    /// Starts a command of several sectors.
    fn start(&mut self, transfer: Transfer)
        ensures { Starts transfer (front_state D.state self.old) (front_state D.state self.new) }
    {
        if transfer.seeks {
            self.seek_first(transfer);
        } else {
            self.begin_sector(transfer, false, false);
        }
    }

    /// Sends the heads to the command's cylinder.
    fn seek_first(&mut self, transfer: Transfer)
        ensures { SeeksFirst transfer (front_state D.state self.old) (front_state D.state self.new) }
    {
        self.adapter.take_accepted(Accepted::Ready(Command::Seek {
            head_drive: transfer.head_drive,
            ncn: transfer.key.c,
        }));
        self.stage = if self.adapter.is_idle() {
            FrontStage::Seeking {
                transfer,
                counted: false,
            }
        } else {
            FrontStage::Through
        };
    }

    /// Takes the results of a data command that has ended. Then a command may be given.
    pub fn take_results(&mut self) -> Option<Results>
        ensures results { result ≡ results_outside (front_state D.state self.old) }
        ensures after { front_state D.state self.new ≡ results_taken (front_state D.state self.old) }
        ensures drives { SameDrives (adapter_of self.old) (adapter_of self.new) }
    {
        match self.stage {
            FrontStage::Through => self.adapter.take_results(),
            FrontStage::Telling { results } => {
                self.stage = FrontStage::Through;
                Some(results)
            }
            _ => None,
        }
    }

    /// ST3 of the selected drive, with the head and the drive as they were sent.
    pub fn drive_status(&self, head_drive: u8) -> u8
        ensures { result ≡ status_of_lines (lines_at (front_state D.state self.now).adapter) head_drive }
    {
        self.adapter.drive_status(head_drive)
    }
}
