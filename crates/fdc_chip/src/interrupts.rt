// The results of seeks and polls, the present cylinder numbers, and the interrupt line.
ghost use Rattle.std.specs.Prelude.{◌≡◌};
ghost use Rattle.fdc_chip.specs.Interrupts.{at_rest, with_result, without_results_of, first_pending, sensed, after_sense, seek_bits, seek_bit, cylinder_of, with_cylinder};

use fdc_registers::{Flags, Msr, St0};
use saved_state::{Saved, SavedBytes, Source, load_four, save_four};
use std::marker::Model;

/// The results of seeks and polls that SENSE INTERRUPT takes, and the interrupt line.
#[derive(Drop)]
pub struct Interrupts {
    /// ST0 of each drive's pending result.
    pending: [Option<u8>; 4],
    /// The present cylinder number of each drive.
    cylinders: [u8; 4],
    /// Whether INT is up, if DOR lets it out.
    line: bool,
}

impl Model for Interrupts {
    ghost use Rattle.fdc_chip.specs.Interrupts.{Interrupting, AreFour};

    ghost Value = { Interrupting };

    ghost view = { λ interrupts. record {
      pending = interrupts.pending;
      cylinders = interrupts.cylinders;
      line = interrupts.line;
    } };

    ghost invariant = { λ interrupts. AreFour (record {
      pending = interrupts.pending;
      cylinders = interrupts.cylinders;
      line = interrupts.line;
    }) };
}

/// The seek bit of a drive, if this result of the drive is pending.
fn seek_bit(pending: Option<u8>, bit: u8) -> u8
    ensures { result ≡ seek_bit pending bit }
{
    match pending {
        Some(status) if status & St0::SEEK_END.bits() != 0 => bit,
        _ => 0,
    }
}

impl Interrupts {
    /// No result is pending, and each drive counts as at cylinder 0.
    pub(crate) fn new() -> Interrupts
        ensures { result ≡ at_rest }
    {
        Interrupts {
            pending: [None; 4],
            cylinders: [0; 4],
            line: false,
        }
    }

    /// Makes a result pending, in place of an older one of the same drive. INT rises.
    pub(crate) fn keep(&mut self, status: u8, cylinder: u8)
        ensures { self.new ≡ with_result status cylinder self.old }
    {
        let drive = usize::from(status % 4);
        self.pending[drive] = Some(status);
        self.cylinders[drive] = cylinder;
        self.line = true;
    }

    /// Drops the result of a unit's drive. INT falls.
    pub(crate) fn forget(&mut self, unit: u8)
        ensures { self.new ≡ without_results_of unit self.old }
    {
        self.pending[usize::from(unit % 4)] = None;
        self.line = false;
    }

    /// The lowest drive that has a result.
    fn first_pending(&self) -> Option<usize>
        ensures { result ≡ first_pending self.now }
    {
        self.pending.iter().position(|status| status.is_some())
    }

    /// Takes the result of the lowest drive that has one: ST0 and the present cylinder number. INT falls.
    pub(crate) fn sense(&mut self) -> Option<(u8, u8)>
        ensures sensed { result ≡ sensed self.old }
        ensures after { self.new ≡ after_sense self.old }
    {
        let drive = self.first_pending()?;
        let status = self.pending[drive]?;
        self.pending[drive] = None;
        self.line = false;
        Some((status, self.cylinders[drive]))
    }

    /// Whether INT is up.
    pub(crate) fn is_up(&self) -> bool
        ensures { result ≡ self.now.line }
    {
        self.line
    }

    /// Lets INT rise or fall.
    pub(crate) fn set_line(&mut self, up: bool)
        ensures { self.new ≡ record self.old { line = up } }
    {
        self.line = up;
    }

    /// The seek bits of drives whose seek has ended and wasn't sensed.
    pub(crate) fn seek_bits(&self) -> u8
        ensures { result ≡ seek_bits self.now }
    {
        let low = seek_bit(self.pending[0], Msr::SEEKING_0.bits())
            | seek_bit(self.pending[1], Msr::SEEKING_1.bits());
        let high = seek_bit(self.pending[2], Msr::SEEKING_2.bits())
            | seek_bit(self.pending[3], Msr::SEEKING_3.bits());
        low | high
    }

    /// The present cylinder number of a unit's drive.
    pub(crate) fn cylinder(&self, unit: u8) -> u8
        ensures { result ≡ cylinder_of unit self.now }
    {
        self.cylinders[usize::from(unit % 4)]
    }

    /// Sets the present cylinder number of a unit's drive.
    pub(crate) fn set_cylinder(&mut self, unit: u8, cylinder: u8)
        ensures { self.new ≡ with_cylinder unit cylinder self.old }
    {
        self.cylinders[usize::from(unit % 4)] = cylinder;
    }
}

impl Saved for Interrupts {
    ghost use Rattle.fdc_chip.specs.Interrupts.{AreFour};
    ghost use Rattle.fdc_chip.specs.Saving.{spelled_interrupts};

    ghost spelled = { spelled_interrupts };

    ghost Fits = { AreFour };

    #[tactic(auto, unfolding(crate::specs::Saving::spelled_interrupts))]
    fn save(&self, to: &mut SavedBytes) {
        save_four(&self.pending, to);
        save_four(&self.cylinders, to);
        self.line.save(to);
    }

    #[tactic(auto, unfolding(crate::specs::Saving::spelled_interrupts))]
    fn load(from: &mut Source<'_>) -> Interrupts {
        let pending = load_four(from);
        let cylinders = load_four(from);
        let line = bool::load(from);
        Interrupts {
            pending,
            cylinders,
            line,
        }
    }
}
