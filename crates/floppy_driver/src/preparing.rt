// Preparing an attempt: the heads go to the cylinder of the command.
ghost use Rattle.std.specs.Prelude.{◌≡◌, ◌≤◌, true, IsSome};
ghost use Rattle.floppy_driver.specs.Common.{in_bay};
ghost use Rattle.floppy_driver.specs.Rigs.{CostsFor, IsSound};
ghost use Rattle.floppy_driver.specs.Prepared.{GoesToTrack0};

use crate::Commands;
use crate::driver::{Driver, Notes};
use crate::retry_plan::Prepare;

/// Steps outward to track 0, and once more if the first time doesn't reach it. The answer is false if neither does.
pub(crate) fn go_to_track_0<C: Commands>(machine: &mut C, bay: u8) -> bool
    requires idle { C.is_idle machine.old }
    requires bay { bay ≤ 1 }
    requires sound { IsSound (C.rig machine.old) }
    ensures goes { GoesToTrack0 bay (C.rig machine.old) result (C.rig machine.new) }
    ensures costs { CostsFor bay 0 162 12 (C.rig machine.old) (C.rig machine.new) }
    ensures sound { IsSound (C.rig machine.new) }
    ensures idle { C.is_idle machine.new }
{
    if machine.recalibrate(bay) {
        return true;
    }
    machine.recalibrate(bay)
}

impl Driver {
    ghost use Rattle.floppy_driver.specs.Shown.{notes_of, with_notes, is_held};
    ghost use Rattle.floppy_driver.specs.Attached.{IsAttached};
    ghost use Rattle.floppy_driver.specs.Prepared.{IsPrepared};

    /// Moves the heads of a held bay to a cylinder, from track 0 or, if their cylinder is known, by steps alone. The
    /// answer is false if track 0 wasn't reached.
    pub(crate) fn prepare<C: Commands>(
        &mut self,
        machine: &mut C,
        bay: u8,
        target: u8,
        way: Prepare,
    ) -> bool
        requires idle { C.is_idle machine.old }
        requires bay { bay ≤ 1 }
        requires target { target ≤ 79 }
        requires sound { IsSound (C.rig machine.old) }
        requires held { is_held (notes_of self.old bay) (in_bay (C.rig machine.old).changes bay) ≡ true }
        requires attached { IsAttached self.old (C.rig machine.old) }
        requires known { way ≡ Prepare.Seek → IsSome (notes_of self.old bay).known }
        ensures prepared { IsPrepared bay target way (C.rig machine.old) (notes_of self.old bay) result
            (C.rig machine.new) (notes_of self.new bay) }
        ensures costs { CostsFor bay 0 243 19 (C.rig machine.old) (C.rig machine.new) }
        ensures notes { self.new ≡ with_notes self.old bay (notes_of self.new bay) }
        ensures sound { IsSound (C.rig machine.new) }
        ensures idle { C.is_idle machine.new }
        ensures attached { IsAttached self.new (C.rig machine.new) }
    {
        let notes = self.notes(bay);
        if way == Prepare::RecalibrateAndSeek && !go_to_track_0(machine, bay) {
            self.set_notes(
                bay,
                Notes {
                    known: None,
                    ..notes
                },
            );
            return false;
        }
        machine.seek(bay, target);
        self.set_notes(
            bay,
            Notes {
                known: Some(target),
                ..notes
            },
        );
        true
    }
}
