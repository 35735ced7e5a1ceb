// What a driver notes of each bay.
ghost use Rattle.std.specs.Prelude.{◌≡◌, ◌≤◌, ◌<◌, List, ℕ, Option, Some, None, not, true, false};
ghost use Rattle.floppy_driver.specs.Common.{R500, in_bay, DriveCounts, GoesOn};

use crate::Commands;
use crate::change_line::Gate;
use crate::retry_plan::START_TRIES;
use flop_base::{Code, Rate};

/// What a driver notes of a bay.
#[derive(Clone, Copy)]
pub(crate) struct Notes {
    pub gate: Gate,
    /// The count of faults that the drive had when the bay was acknowledged.
    pub kept: u64,
    pub rate: Rate,
    /// The cylinder where the heads should stand, by the steps since track 0.
    pub known: Option<u8>,
}

impl Notes {
    /// The notes on a bay that isn't acknowledged.
    pub(crate) fn new() -> Notes
        ensures gate { result.gate ≡ false }
        ensures known { result.known ≡ None }
    {
        Notes {
            gate: Gate::new(),
            kept: 0,
            rate: Rate::R500,
            known: None,
        }
    }
}

/// A driver of two bays. It holds no machine: each call gets the one that the driver was set up with.
#[derive(Drop)]
pub struct Driver {
    pub(crate) first: Notes,
    pub(crate) second: Notes,
    pub(crate) tries: u8,
    ghost some_tries: { 1 ≤ tries },
    ghost few_tries: { tries ≤ 10 },
}

impl Driver {
    ghost use Rattle.floppy_driver.specs.Shown.{shown, notes_of, with_notes, is_held, IsFreshDriver};
    ghost use Rattle.floppy_driver.specs.Attached.{IsAttached, CanSetUp};
    ghost use Rattle.floppy_driver.specs.Attempts.{CanTry};
    ghost use Rattle.floppy_driver.specs.Rigs.{CostsFor, Rig, IsReset, OnlyAsks};
    ghost use Rattle.sector_model.specs.Calls.{RatesTo, SetsTries, TellsChange};

    /// Sets a machine up. The change line of each empty drive must be set.
    pub fn set_up<C: Commands>(machine: &mut C) -> Driver
        requires empty { CanSetUp (C.rig machine.old) }
        ensures fresh { IsFreshDriver result }
        ensures resets { IsReset (C.rig machine.old) (C.rig machine.new) }
        ensures costs { CostsFor 0 0 2 22 (C.rig machine.old) (C.rig machine.new) }
        ensures idle { C.is_idle machine.new }
        ensures attached { IsAttached result (C.rig machine.new) }
    {
        machine.reset();
        Driver {
            first: Notes::new(),
            second: Notes::new(),
            tries: START_TRIES,
        }
    }

    /// The notes on a bay.
    pub(crate) fn notes(&self, bay: u8) -> Notes
        ensures { result ≡ notes_of self.now bay }
    {
        if bay == 0 { self.first } else { self.second }
    }

    /// Sets the notes on a bay.
    pub(crate) fn set_notes(&mut self, bay: u8, notes: Notes)
        ensures { self.new ≡ with_notes self.old bay notes }
    {
        if bay == 0 {
            self.first = notes;
        } else {
            self.second = notes;
        }
    }

    /// Whether a bay is held: it was acknowledged, and its change line is clear.
    pub(crate) fn is_held<C: Commands>(&mut self, machine: &mut C, bay: u8) -> bool
        requires idle { C.is_idle machine.old }
        requires bay { bay ≤ 1 }
        requires attached { IsAttached self.old (C.rig machine.old) }
        ensures held { result ≡ is_held (notes_of self.old bay) (in_bay (C.rig machine.old).changes bay) }
        ensures shown { (spares : ℕ) (waiting : List DriveCounts) → shown self.new (C.rig machine.old) spares waiting
            ≡ shown self.old (C.rig machine.old) spares waiting }
        ensures asks { OnlyAsks (C.rig machine.old) (C.rig machine.new) }
        ensures costs { CostsFor bay 0 0 2 (C.rig machine.old) (C.rig machine.new) }
        ensures tries { self.new.tries ≡ self.old.tries }
        ensures rate { (notes_of self.new bay).rate ≡ (notes_of self.old bay).rate }
        ensures ready { result ≡ true → CanTry self.new (C.rig machine.new) bay }
        ensures idle { C.is_idle machine.new }
        ensures attached { IsAttached self.new (C.rig machine.new) }
    {
        let changed = machine.is_changed(bay);
        let mut notes = self.notes(bay);
        notes.gate.see(changed);
        self.set_notes(bay, notes);
        notes.gate.is_acknowledged()
    }

    /// Whether the medium was exchanged, or its bay isn't acknowledged.
    pub fn changed<C: Commands>(&mut self, machine: &mut C, bay: u8) -> bool
        requires idle { C.is_idle machine.old }
        requires bay { bay ≤ 1 }
        requires attached { IsAttached self.old (C.rig machine.old) }
        ensures step { (spares : ℕ) (waiting : List DriveCounts) → TellsChange
            bay (shown self.old (C.rig machine.old) spares waiting) result
            (shown self.new (C.rig machine.new) spares waiting) }
        ensures counts { GoesOn (C.rig machine.old).counters (C.rig machine.new).counters }
        ensures costs { CostsFor bay 0 0 2 (C.rig machine.old) (C.rig machine.new) }
        ensures idle { C.is_idle machine.new }
        ensures attached { IsAttached self.new (C.rig machine.new) }
    {
        !self.is_held(machine, bay)
    }

    /// The rate that is noted of a bay. It is the bay's rate if the bay is acknowledged.
    pub fn rate(&self, bay: u8) -> Rate
        requires { bay ≤ 1 }
        ensures { result ≡ (notes_of self.now bay).rate }
    {
        self.notes(bay).rate
    }

    /// Sets the rate of an acknowledged bay. Refusals: `BadRequest` if the bay is above 1, `Changed` if it isn't
    /// acknowledged.
    pub fn set_rate<C: Commands>(
        &mut self,
        machine: &mut C,
        bay: u8,
        rate: Rate,
    ) -> Result<(), Code>
        requires idle { C.is_idle machine.old }
        requires attached { IsAttached self.old (C.rig machine.old) }
        ensures step { (spares : ℕ) (waiting : List DriveCounts) → RatesTo
            bay rate (shown self.old (C.rig machine.old) spares waiting) result
            (shown self.new (C.rig machine.new) spares waiting) }
        ensures counts { GoesOn (C.rig machine.old).counters (C.rig machine.new).counters }
        ensures costs { CostsFor bay 0 0 2 (C.rig machine.old) (C.rig machine.new) }
        ensures idle { C.is_idle machine.new }
        ensures attached { IsAttached self.new (C.rig machine.new) }
    {
        if bay > 1 {
            return Err(Code::BadRequest);
        }
        if !self.is_held(machine, bay) {
            return Err(Code::Changed);
        }
        let notes = self.notes(bay);
        self.set_notes(bay, Notes { rate, ..notes });
        Ok(())
    }

    /// The number of attempts of a call.
    pub fn tries(&self) -> u8
        ensures { result ≡ self.now.tries }
    {
        self.tries
    }

    /// Sets the number of attempts of later calls.
    pub fn set_tries(&mut self, tries: u8)
        requires least { 1 ≤ tries }
        requires most { tries ≤ 10 }
        ensures step { (rig : Rig) (spares : ℕ) (waiting : List DriveCounts) → SetsTries
            tries (shown self.old rig spares waiting) (shown self.new rig spares waiting) }
        ensures attached { (rig : Rig) → IsAttached self.old rig → IsAttached self.new rig }
    {
        self.tries = tries;
    }
}
