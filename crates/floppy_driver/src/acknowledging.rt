// Acknowledging a change of the medium.
ghost use Rattle.std.specs.Prelude.{◌≡◌, ◌≤◌, true, List, ℕ};
ghost use Rattle.floppy_driver.specs.Common.{in_bay, DriveCounts, GoesOn};
ghost use Rattle.floppy_driver.specs.Rigs.{CostsFor, IsSound};
ghost use Rattle.floppy_driver.specs.Acknowledged.{ClearsChange, FindsRate};

use crate::Commands;
use crate::change_line::Gate;
use crate::driver::{Driver, Notes};
use crate::preparing::go_to_track_0;
use flop_base::{Code, Rate};

/// How often a change line is looked at after pulses, and how often each rate is tried.
const ROUNDS: u8 = 3;

/// The rate at which an address field is found on cylinder 0 under head 0, or R500 if none is found.
fn find_rate<C: Commands>(machine: &mut C, bay: u8) -> Rate
    requires idle { C.is_idle machine.old }
    requires bay { bay ≤ 1 }
    requires spun { in_bay (C.rig machine.old).spun bay ≡ true }
    ensures finds { FindsRate bay (C.rig machine.old) result (C.rig machine.new) }
    ensures costs { CostsFor bay 12 1566 72 (C.rig machine.old) (C.rig machine.new) }
    ensures idle { C.is_idle machine.new }
{
    for _attempt in 0..ROUNDS {
        if machine.read_id(bay, 0, Rate::R500).is_ok() {
            return Rate::R500;
        }
        if machine.read_id(bay, 0, Rate::R250).is_ok() {
            return Rate::R250;
        }
    }
    Rate::R500
}

impl Driver {
    ghost use Rattle.floppy_driver.specs.Shown.{shown, notes_of, with_notes};
    ghost use Rattle.floppy_driver.specs.Attached.{IsAttached};
    ghost use Rattle.floppy_driver.specs.Acknowledged.{IsHeldSince};
    ghost use Rattle.sector_model.specs.Calls.{Acks};

    /// Acknowledges that another medium may be in, and finds its rate. Refusals: `BadRequest` if the bay is above 1;
    /// `NotReady` if no medium is in, or the drive lost pulse after pulse.
    pub fn ack<C: Commands>(&mut self, machine: &mut C, bay: u8) -> Result<(), Code>
        requires idle { C.is_idle machine.old }
        requires attached { IsAttached self.old (C.rig machine.old) }
        ensures step { (spares : ℕ) (waiting : List DriveCounts) → Acks
            bay (shown self.old (C.rig machine.old) spares waiting) result
            (shown self.new (C.rig machine.new) spares waiting) }
        ensures counts { GoesOn (C.rig machine.old).counters (C.rig machine.new).counters }
        ensures costs { CostsFor bay 12 9031 172 (C.rig machine.old) (C.rig machine.new) }
        ensures idle { C.is_idle machine.new }
        ensures attached { IsAttached self.new (C.rig machine.new) }
    {
        if bay > 1 {
            return Err(Code::BadRequest);
        }
        machine.start_motor(bay);
        for _attempt in 0..ROUNDS {
            let reached = clear_change(machine, bay);
            if !machine.is_changed(bay) {
                self.hold(machine, bay, reached);
                return Ok(());
            }
        }
        self.set_notes(bay, Notes::new());
        Err(Code::NotReady)
    }

    /// Holds a bay whose change line is clear. Its heads stand at track 0 if track 0 was reached.
    fn hold<C: Commands>(&mut self, machine: &mut C, bay: u8, reached: bool)
        requires idle { C.is_idle machine.old }
        requires bay { bay ≤ 1 }
        requires spun { in_bay (C.rig machine.old).spun bay ≡ true }
        ensures held { IsHeldSince bay (C.rig machine.old) reached (notes_of self.new bay) (C.rig machine.new) }
        ensures costs { CostsFor bay 12 1566 72 (C.rig machine.old) (C.rig machine.new) }
        ensures notes { self.new ≡ with_notes self.old bay (notes_of self.new bay) }
        ensures idle { C.is_idle machine.new }
    {
        let rate = find_rate(machine, bay);
        let mut gate = Gate::new();
        gate.acknowledge();
        let kept = machine.faults(bay);
        let known = if reached { Some(0) } else { None };
        self.set_notes(
            bay,
            Notes {
                gate,
                kept,
                rate,
                known,
            },
        );
    }
}

/// Steps in and out, so that the change line clears if a medium is in. The answer says whether the heads then stand at
/// track 0.
fn clear_change<C: Commands>(machine: &mut C, bay: u8) -> bool
    requires idle { C.is_idle machine.old }
    requires bay { bay ≤ 1 }
    requires sound { IsSound (C.rig machine.old) }
    ensures clears { ClearsChange bay (C.rig machine.old) result (C.rig machine.new) }
    ensures costs { CostsFor bay 0 405 31 (C.rig machine.old) (C.rig machine.new) }
    ensures sound { IsSound (C.rig machine.new) }
    ensures idle { C.is_idle machine.new }
{
    go_to_track_0(machine, bay);
    machine.seek(bay, 1);
    go_to_track_0(machine, bay)
}
