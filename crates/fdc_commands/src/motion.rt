// What a seek does, device step by device step.
ghost use Rattle.std.specs.Prelude.{◌≡◌, ◌↔◌, IsTrue};
ghost use Rattle.fdc_commands.specs.Seeking.{IsMotion, has_ended, pulses_from};

mod saving;

/// The most pulses that a RECALIBRATE gives.
pub(crate) const RECALIBRATE_PULSES: u8 = 79;

/// A drive's seek, whose bit is set in the main status register.
#[derive(Clone, Copy, PartialEq, Eq, Debug)]
pub struct Seek {
    /// The drive, 0 to 3.
    pub drive: u8,
    pub motion: Motion,
}

/// What a seek still has to do.
#[derive(Clone, Copy, PartialEq, Eq, Debug)]
pub enum Motion {
    /// The seek steps outward until track 0 is reached, with at most this many pulses.
    Outward { pulses: u8 },
    /// The seek has counted to `cylinder`, and steps toward `target`.
    Toward { cylinder: u8, target: u8 },
    /// The seek has ended, and its bit is still set.
    Ended,
}

impl Motion {
    /// Whether the seek has ended.
    pub(crate) fn has_ended(self) -> bool
        ensures { result ≡ has_ended self }
    {
        matches!(self, Motion::Ended)
    }

    /// Whether the number of pulses is one that a seek may give.
    pub(crate) fn is_limited(self) -> bool
        ensures { IsTrue result ↔ IsMotion self }
    {
        match self {
            Motion::Outward { pulses } => pulses <= RECALIBRATE_PULSES,
            _ => true,
        }
    }

    /// The pulses that the motion surely still gives, if the heads of its drive stand on this cylinder.
    pub(crate) fn pulses_from(self, heads: u8) -> u8
        ensures { result ≡ pulses_from heads self }
    {
        match self {
            Motion::Outward { pulses } => pulses.min(heads),
            Motion::Toward { cylinder, target } => {
                if cylinder < target {
                    target - cylinder
                } else {
                    cylinder - target
                }
            }
            Motion::Ended => 0,
        }
    }
}
