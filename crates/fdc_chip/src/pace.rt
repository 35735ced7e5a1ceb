// Seeks whose pulses come in the time that SPECIFY sets. For each pulse the inner controller is given a SEEK by one
// cylinder. A RECALIBRATE ends with the pulses that are left of its 79.
ghost use Rattle.std.specs.Prelude.{◌≡◌, Some};
ghost use Rattle.fdc_chip.specs.Chips.{chip_state, pace_bit};
ghost use Rattle.fdc_chip.specs.Doing.{GivesOn, moving, pace_begun};
ghost use Rattle.fdc_chip.specs.Interrupts.{cylinder_of};
ghost use Rattle.fdc_chip.specs.Paces.{target_of, stepped, is_over, is_due, EndsAt, PulsesIf, GoesOn, Paces, pulses_left, steps_left};

use crate::chip::Chip;
use drive_model::Inspect;
use fdc_commands::Command;
use fdc_registers::Flags;
use fdc_sequencer::drive_bit;

/// The most pulses that a RECALIBRATE gives.
const RECALIBRATE_PULSES: u8 = 79;

/// A seek that goes on cylinder by cylinder.
#[derive(Clone, Copy, PartialEq, Eq, Debug)]
pub struct PacedSeek {
    /// The head in bit 2 and the drive in bits 1 and 0.
    pub unit: u8,
    /// The cylinder to which the seek has come, by the number that the controller counts.
    pub cylinder: u8,
    /// The cylinder to which the seek goes, or none for a RECALIBRATE.
    pub goal: Option<u8>,
    /// The most pulses that a RECALIBRATE has left.
    pub left: u8,
    /// The word times until the next pulse.
    pub wait: u16,
}

/// The seek bit of the drive of this seek.
pub(crate) fn pace_bit(pace: Option<PacedSeek>) -> u8
    ensures { result ≡ pace_bit pace }
{
    match pace {
        None => 0,
        Some(pace) => drive_bit(pace.unit).bits(),
    }
}

impl PacedSeek {
    /// A seek that begins at the number that the controller counts.
    pub(crate) fn of(unit: u8, cylinder: u8, goal: Option<u8>) -> PacedSeek
        ensures { result ≡ pace_begun unit cylinder goal }
    {
        PacedSeek {
            unit,
            cylinder,
            goal,
            left: RECALIBRATE_PULSES,
            wait: 0,
        }
    }

    /// The number of the cylinder to which the seek goes.
    fn target(self) -> u8
        ensures { result ≡ target_of self }
    {
        match self.goal {
            Some(target) => target,
            None => 0,
        }
    }

    /// The pulses that come before the seek is over.
    fn pulses_left(self) -> u8
        ensures { result ≡ pulses_left self }
    {
        match self.goal {
            None => self.cylinder.min(self.left),
            Some(target) => {
                if self.cylinder < target {
                    target - self.cylinder
                } else {
                    self.cylinder - target
                }
            }
        }
    }

    /// The device steps up to the one in which the inner controller is given the command that ends the seek. So many
    /// word times pass from one pulse to the next.
    pub(crate) fn steps_left(self, words: u16) -> u32
        ensures { result ≡ steps_left words self }
    {
        let pulses = self.pulses_left();
        let time = u32::from(pulses) * u32::from(words);
        let rest = u32::from(self.wait.max(1));
        rest + time
    }

    /// Whether the seek is at its cylinder by the number, or is a RECALIBRATE that gave all its pulses.
    fn is_over(self) -> bool
        ensures { result ≡ is_over self }
    {
        self.cylinder == self.target() || (self.goal.is_none() && self.left == 0)
    }

    /// The seek one cylinder nearer after a pulse, with this many word times until the next.
    fn stepped(self, words: u16) -> PacedSeek
        ensures { result ≡ stepped words self }
    {
        let cylinder = if self.cylinder < self.target() {
            self.cylinder + 1
        } else {
            self.cylinder.saturating_sub(1)
        };
        PacedSeek {
            cylinder,
            left: self.left.saturating_sub(1),
            wait: words,
            ..self
        }
    }
}

impl<D: Inspect> Chip<D> {
    /// Gives a SEEK of a cylinder or a RECALIBRATE to the inner controller.
    pub(crate) fn send_move(&mut self, unit: u8, goal: Option<u8>)
        ensures { GivesOn (moving unit goal) (chip_state D.state self.old) (chip_state D.state self.new) }
    {
        self.command(match goal {
            Some(target) => Command::Seek {
                head_drive: unit,
                ncn: target,
            },
            None => Command::Recalibrate { drive: unit },
        });
    }

    /// Does a device step of such a seek, if one is under way. The results of the inner controller are taken over
    /// first. Those of the poll are reported, and those of a SEEK by one cylinder aren't.
    pub(crate) fn keep_pace(&mut self)
        ensures { Paces self.old.pace (chip_state D.state self.old) (chip_state D.state self.new) }
    {
        if let Some(pace) = self.pace {
            self.drain();
            self.pace_on(pace);
        }
    }

    /// Does a device step of such a seek, once no result of the inner controller waits.
    fn pace_on(&mut self, pace: PacedSeek)
        ensures { GoesOn pace (chip_state D.state self.old) (chip_state D.state self.new) }
    {
        if self.is_due(pace) {
            self.pulse(pace);
        } else {
            self.pace = Some(PacedSeek {
                wait: pace.wait.saturating_sub(1),
                ..pace
            });
        }
    }

    /// Whether the next pulse is due, and the inner controller takes the next command.
    fn is_due(&mut self, pace: PacedSeek) -> bool
        ensures due { result ≡ is_due pace (chip_state D.state self.old) }
        ensures same { chip_state D.state self.new ≡ chip_state D.state self.old }
    {
        pace.wait <= 1 && self.behind.is_ready() && !self.moves_heads()
    }

    /// Gives the next pulse. If the seek is over, gives the command that ends it.
    fn pulse(&mut self, pace: PacedSeek)
        ensures { PulsesIf (is_over pace) pace (chip_state D.state self.old) (chip_state D.state self.new) }
    {
        if pace.is_over() {
            self.pace = None;
            self.end_pace(pace);
            return;
        }
        let next = pace.stepped(self.settings.step_words());
        self.pace = Some(next);
        self.send_move(next.unit, Some(next.cylinder));
    }

    /// Gives the inner controller what ends the seek: a SEEK of its cylinder, or a RECALIBRATE with at most the pulses
    /// that are left of the 79.
    fn end_pace(&mut self, pace: PacedSeek)
        ensures { EndsAt pace.goal pace (chip_state D.state self.old) (chip_state D.state self.new) }
    {
        match pace.goal {
            Some(target) => self.send_move(pace.unit, Some(target)),
            None => self.behind.recalibrate_within(pace.unit, pace.left),
        }
    }
}
