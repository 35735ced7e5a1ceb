// The faults that a drive still has.
ghost use Rattle.std.specs.Prelude.{◌≡◌, ◌+◌, ◌≤◌, ◌<◌, ℕ, false};
ghost use Rattle.std.specs.Bool.{OnTrue, OnFalse};
ghost use Rattle.drive_model.specs.declared.fault.Event.TheVariants.{Read};
ghost use Rattle.drive_model.specs.Fault.{comes, spent, total_left};

mod saving;

use crate::Fault;
use crate::fault::{Event, take_fault, words_before};
use std::marker::Model;

/// Planned faults in their order.
#[derive(Drop)]
pub(crate) struct Plan {
    faults: Vec<Fault>,
}

impl Model for Plan {
    ghost use Rattle.std.specs.Prelude.{List};
    ghost use Rattle.drive_model.specs.declared.fault.Fault.{Fault};

    ghost Value = { List Fault };

    ghost view = { λ plan. plan.faults.items };
}

impl Plan {
    pub(crate) fn new(faults: Vec<Fault>) -> Plan
        ensures { result ≡ faults.items }
    {
        Plan { faults }
    }

    /// How many of the next words under a head, `most` at most, pass before the first that drops out.
    pub(crate) fn words_before(&self, c: u8, h: u8, place: u16, most: usize) -> usize
        ensures within { result ≤ most }
        ensures none { (i : ℕ) → i < result → comes self.now (Read c h (place + i)) ≡ false }
        ensures all { total_left self.now ≡ 0 → result ≡ most }
    {
        words_before(&self.faults, c, h, place, most)
    }

    /// Takes one time off the first fault that meets the event, if there is one.
    pub(crate) fn take(&mut self, event: Event) -> bool
        ensures comes { result ≡ comes self.old event }
        ensures spent { OnTrue result (self.new ≡ spent self.old event) }
        ensures kept { OnFalse result (self.new ≡ self.old) }
        ensures total { OnTrue result (total_left self.new + 1 ≡ total_left self.old) }
    {
        take_fault(&mut self.faults, event)
    }
}
