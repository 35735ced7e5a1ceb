// The seeks of the four drives.
ghost use Rattle.std.specs.Prelude.{◌≡◌, ◌<◌, ◌↔◌, IsTrue, IsFalse, IsSome, IsNone, is_some, slice_index};
ghost use Rattle.fdc_commands.specs.Seeking.{InRange, IsMotion, at_rest, with_polls, with_motion, ended, pulse_due, stepped, is_seeking, EndsSeek};
ghost use Rattle.fdc_commands.specs.Seeking.{pulses_within, seek_bits, first_pending, sensed, after_sense, released, has_ended_seek, without_ended, pulses_ahead};
ghost use Rattle.fdc_commands.specs.Seeking.{polled as polled_status, sought as sought_status, recalibrated as recalibrated_status};

mod saving;

use crate::motion::RECALIBRATE_PULSES;
use crate::{Motion, Seek};
use fdc_registers::{Flags, St0};
use std::marker::Model;

/// The controller's seeks: at most one drive has its seek bit set.
#[derive(Drop)]
pub struct Seeks {
    cylinders: [u8; 4],
    seek: Option<Seek>,
    pending: [Option<u8>; 4],
}

impl Model for Seeks {
    ghost use Rattle.fdc_commands.specs.Seeking.{Seeking, InRange};

    ghost Value = { Seeking };

    ghost view = { λ seeks. record {
      cylinders = seeks.cylinders;
      seek = seeks.seek;
      pending = seeks.pending;
    } };

    ghost invariant = { λ seeks. InRange (record {
      cylinders = seeks.cylinders;
      seek = seeks.seek;
      pending = seeks.pending;
    }) };
}

impl Seeks {
    /// Four present cylinder numbers of 0, no seek and no pending result.
    pub fn new() -> Seeks
        ensures state { result ≡ at_rest }
        ensures none_runs { IsFalse (is_seeking result) }
    {
        Seeks {
            cylinders: [0; 4],
            seek: None,
            pending: [None; 4],
        }
    }

    /// Puts the seeks into the state of new ones.
    pub fn reset(&mut self)
        ensures state { self.new ≡ at_rest }
        ensures none_runs { IsFalse (is_seeking self.new) }
    {
        *self = Seeks::new();
    }

    /// Makes the results of the poll after a reset pending, one for each drive.
    pub fn poll(&mut self)
        ensures state { self.new ≡ with_polls self.old }
        ensures runs { is_seeking self.new ≡ is_seeking self.old }
    {
        self.pending = [
            Some(polled(0)),
            Some(polled(1)),
            Some(polled(2)),
            Some(polled(3)),
        ];
    }

    /// Begins a RECALIBRATE of the drive.
    pub fn recalibrate(&mut self, drive: u8)
        requires drive { drive < 4 }
        requires no_seek { seek_bits self.old ≡ 0 }
        ensures state { self.new ≡ with_motion self.old drive (Motion.Outward 79) }
        ensures runs { IsTrue (is_seeking self.new) }
    {
        self.go_on(
            drive,
            Motion::Outward {
                pulses: RECALIBRATE_PULSES,
            },
        );
    }

    /// Begins a RECALIBRATE of the drive that gives at most this many pulses, and never more than 79.
    pub fn recalibrate_within(&mut self, drive: u8, pulses: u8)
        requires drive { drive < 4 }
        requires no_seek { seek_bits self.old ≡ 0 }
        ensures state { self.new ≡ with_motion self.old drive (Motion.Outward (pulses_within pulses)) }
        ensures runs { IsTrue (is_seeking self.new) }
    {
        let pulses = if pulses < RECALIBRATE_PULSES {
            pulses
        } else {
            RECALIBRATE_PULSES
        };
        self.go_on(drive, Motion::Outward { pulses });
    }

    /// Begins a SEEK of the drive to a cylinder, which may be any byte.
    pub fn seek(&mut self, drive: u8, target: u8)
        requires drive { drive < 4 }
        requires no_seek { seek_bits self.old ≡ 0 }
        ensures state { self.new
            ≡ with_motion self.old drive
            (Motion.Toward (slice_index self.old.cylinders drive) target) }
        ensures runs { IsTrue (is_seeking self.new) }
    {
        let cylinder = self.cylinders[drive as usize];
        self.go_on(drive, Motion::Toward { cylinder, target });
    }

    /// Does one device step, and gives the pulse that is due: true is inward. `track0` is the track 0 line before the
    /// step. A seek that runs and gives no pulse has ended in this step.
    pub fn pulse(&mut self, track0: bool) -> Option<bool>
        ensures pulse { result ≡ pulse_due self.old track0 }
        ensures state { self.new ≡ stepped self.old track0 }
        ensures runs { is_seeking self.new ≡ is_some result }
        ensures ended { EndsSeek self.old self.new
            ↔ (IsTrue (is_seeking self.old) × IsNone result) }
    {
        let Seek { drive, motion } = self.seek?;
        match motion {
            Motion::Outward { pulses } if pulses > 0 && !track0 => {
                self.go_on(drive, Motion::Outward { pulses: pulses - 1 });
                Some(false)
            }
            Motion::Outward { .. } => {
                self.end(drive, 0, recalibrated(drive, track0));
                None
            }
            Motion::Toward { cylinder, target } if cylinder < target => {
                let cylinder = cylinder + 1;
                self.go_on(drive, Motion::Toward { cylinder, target });
                Some(true)
            }
            Motion::Toward { cylinder, target } if target < cylinder => {
                let cylinder = cylinder - 1;
                self.go_on(drive, Motion::Toward { cylinder, target });
                Some(false)
            }
            Motion::Toward { target, .. } => {
                self.end(drive, target, sought(drive));
                None
            }
            Motion::Ended => None,
        }
    }

    // The drive's seek does this from now on.
    fn go_on(&mut self, drive: u8, motion: Motion)
        requires drive { drive < 4 }
        requires motion { IsMotion motion }
        ensures { self.new ≡ with_motion self.old drive motion }
    {
        self.seek = Some(Seek { drive, motion });
    }

    // The drive's seek ends at a cylinder with this ST0.
    fn end(&mut self, drive: u8, cylinder: u8, status: u8)
        requires { drive < 4 }
        ensures { self.new ≡ ended self.old drive cylinder status }
    {
        self.cylinders[drive as usize] = cylinder;
        self.pending[drive as usize] = Some(status);
        self.seek = Some(Seek {
            drive,
            motion: Motion::Ended,
        });
    }

    /// Whether a seek runs: its bit is set, and it hasn't ended.
    pub fn is_seeking(&self) -> bool
        ensures { result ≡ is_seeking self.now }
    {
        match self.seek {
            Some(seek) => !seek.motion.has_ended(),
            None => false,
        }
    }

    /// The pulses that the seek surely still gives, or 0 if none runs. The heads of its drive stand on this cylinder.
    pub fn pulses_ahead(&self, heads: u8) -> u8
        ensures { result ≡ pulses_ahead heads self.now }
    {
        match self.seek {
            Some(seek) => seek.motion.pulses_from(heads),
            None => 0,
        }
    }

    /// Whether a result is pending.
    pub fn has_result(&self) -> bool
        ensures { result ≡ is_some (first_pending self.now) }
    {
        self.first_pending().is_some()
    }

    /// The seek bits, bit 0 for drive 0.
    pub fn bits(&self) -> u8
        ensures bits { result ≡ seek_bits self.now }
        ensures in_range { InRange self.now }
    {
        match self.seek {
            Some(seek) => 1 << seek.drive,
            None => 0,
        }
    }

    /// Drops a seek that has ended, together with its result, and says whether there was one.
    pub fn forget_ended(&mut self) -> bool
        ensures told { result ≡ has_ended_seek self.old }
        ensures state { self.new ≡ without_ended self.old }
    {
        match self.seek {
            Some(
                Seek {
                    drive,
                    motion: Motion::Ended,
                },
            ) => {
                self.seek = None;
                self.pending[drive as usize] = None;
                true
            }
            _ => false,
        }
    }

    // The lowest drive with a pending result.
    fn first_pending(&self) -> Option<usize>
        ensures { result ≡ first_pending self.now }
    {
        self.pending.iter().position(|status| status.is_some())
    }

    /// Takes the pending result of the lowest drive that has one. This is its ST0 and the drive's present cylinder
    /// number. The drive's seek bit is cleared, unless a seek of the drive still runs.
    pub fn sense(&mut self) -> Option<(u8, u8)>
        ensures sensed { result ≡ sensed self.old }
        ensures state { self.new ≡ after_sense self.old }
        ensures runs { is_seeking self.new ≡ is_seeking self.old }
    {
        let drive = self.first_pending()?;
        let status = self.pending[drive]?;
        self.pending[drive] = None;
        self.seek = without_ended(self.seek, drive);
        Some((status, self.cylinders[drive]))
    }
}

// The seek whose bit stays set after a drive's result was taken. A seek of that drive doesn't stay, if it has ended.
fn without_ended(seek: Option<Seek>, drive: usize) -> Option<Seek>
    ensures { result ≡ released drive seek }
{
    match seek {
        Some(
            Seek {
                drive: seeking,
                motion: Motion::Ended,
            },
        ) if usize::from(seeking) == drive => None,
        _ => seek,
    }
}

// ST0 of the poll after a reset.
fn polled(drive: u8) -> u8
    ensures { result ≡ polled_status drive }
{
    St0::POLLING.union(St0(drive)).bits()
}

// ST0 at the end of a SEEK.
fn sought(drive: u8) -> u8
    ensures { result ≡ sought_status drive }
{
    St0::SEEK_END.union(St0(drive)).bits()
}

// ST0 at the end of a RECALIBRATE.
fn recalibrated(drive: u8, track0: bool) -> u8
    ensures { result ≡ recalibrated_status drive track0 }
{
    if track0 {
        return sought(drive);
    }
    St0(sought(drive))
        .union(St0::ABNORMAL)
        .union(St0::EQUIPMENT_CHECK)
        .bits()
}
