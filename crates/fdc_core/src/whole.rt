// Whole commands and their endings, for a layer in front of the controller that collects the bytes itself.
ghost use Rattle.std.specs.Prelude.{◌≡◌};
ghost use Rattle.fdc_core.specs.Listening.{is_executing};
ghost use Rattle.fdc_core.specs.Commands.{status_of_lines};
ghost use Rattle.fdc_core.specs.Whole.{is_idle, TakesWhole, ending_told, results_waiting, given_up, mark_of, recalibrated_within, without_seek};
ghost use Rattle.fdc_core.specs.Common.{has_ended_seek};

use crate::commands::{INVALID, drive_status};
use crate::controller::{Fdc, Lines};
use fdc_commands::{Accepted, CommandBytes, Results};
use fdc_phases::{Answer, Phase};
use fdc_stages::Ending;

impl Fdc {
    /// Whether the data port takes a byte, and no byte of a command has come.
    pub fn is_idle(&self) -> bool
        ensures { result ≡ is_idle self.now }
    {
        self.is_taking() && !self.command.is_begun()
    }

    /// ST3, as SENSE DRIVE gives it: these lines, with the head and the drive as they were sent.
    pub fn drive_status(lines: Lines, head_drive: u8) -> u8
        ensures { result ≡ status_of_lines lines head_drive }
    {
        drive_status(lines, head_drive)
    }

    /// Whether a data command is in execution.
    pub fn is_executing(&self) -> bool
        ensures { result ≡ is_executing self.now.phase }
    {
        matches!(self.phase, Phase::Execute { .. })
    }

    /// Takes what the bytes of a command came to elsewhere, in place of bytes that came to the data port.
    pub fn take_accepted(&mut self, accepted: Accepted, lines: Lines)
        ensures { TakesWhole accepted lines self.old self.new }
    {
        self.command = CommandBytes::new();
        match accepted {
            Accepted::More => {}
            Accepted::Ready(command) if command.is_sized() => self.obey(command, lines),
            _ => self.answer(INVALID, None),
        }
    }

    /// How a data command ended, while the host reads its results. The results are given up, INT falls, and the
    /// controller takes commands.
    pub fn take_ending(&mut self) -> Option<Ending>
        ensures ending { result ≡ ending_told self.old }
        ensures after { self.new ≡ given_up self.old }
    {
        let ending = self.phase.ending()?;
        self.phase = Phase::Command;
        self.interrupt = false;
        Some(ending)
    }

    /// The results of a data command, while the host may read them. They are given up, INT falls, and the controller
    /// takes commands.
    pub fn take_results(&mut self) -> Option<Results>
        ensures results { result ≡ results_waiting self.old }
        ensures after { self.new ≡ given_up self.old }
    {
        let results = match &self.phase {
            Phase::Result {
                answer: Answer::Long { results, .. },
            } => *results,
            _ => return None,
        };
        self.phase = Phase::Command;
        self.interrupt = false;
        Some(results)
    }

    /// The mark of the data field that a READ DATA reads, once it is met: F8 is true.
    pub fn mark(&self) -> Option<bool>
        ensures { result ≡ mark_of self.now }
    {
        self.phase.mark()
    }

    /// Forgets a seek that has ended, with its interrupt. Returns whether there was one.
    pub fn forget_seek(&mut self) -> bool
        ensures told { result ≡ has_ended_seek self.old.seeks }
        ensures after { self.new ≡ without_seek self.old }
    {
        if !self.seeks.forget_ended() {
            return false;
        }
        self.interrupt = false;
        true
    }

    /// Begins a RECALIBRATE that gives at most so many pulses, where the first byte of a command may come and no seek
    /// bit is set.
    pub fn recalibrate_within(&mut self, drive: u8, pulses: u8)
        ensures { self.new ≡ recalibrated_within drive pulses self.old }
    {
        if !self.is_idle() {
            return;
        }
        if self.seeks.bits() == 0 {
            self.seeks.recalibrate_within(drive % 4, pulses);
        }
    }
}
