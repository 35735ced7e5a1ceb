// Reading a sector.
ghost use Rattle.std.specs.Prelude.{◌≡◌, ◌≤◌, ◌+◌, ◌-◌, ◌*◌, ◌/◌, List, ℕ};
ghost use Rattle.floppy_driver.specs.Common.{content_size, DriveCounts, CostsUpTo, GoesOn};

use crate::Commands;
use crate::driver::Driver;
use crate::retry_plan::preparation;
use flop_base::{Chrn, Code, sector_size};
use sector_model::{crosses_page, is_sector_request};

impl Driver {
    ghost use Rattle.floppy_driver.specs.Shown.{shown, HasAsked};
    ghost use Rattle.floppy_driver.specs.Attached.{IsAttached};
    ghost use Rattle.floppy_driver.specs.Attempts.{CanTry, IsSure};
    ghost use Rattle.floppy_driver.specs.Readings.{TriesRead};
    ghost use Rattle.floppy_driver.specs.Rigs.{CostsFor};
    ghost use Rattle.sector_model.specs.Stations.{StationState};
    ghost use Rattle.sector_model.specs.Asked.{IsAsked};
    ghost use Rattle.sector_model.specs.Reads.{Reads, ReadsDrive};

    /// Reads the sector of a key to user memory. The answer is true if the sector is marked deleted. Refusals are those
    /// of `Station::read`.
    pub fn read<C: Commands>(
        &mut self,
        machine: &mut C,
        bay: u8,
        key: Chrn,
        address: u32,
    ) -> Result<bool, Code>
        requires idle { C.is_idle machine.old }
        requires attached { IsAttached self.old (C.rig machine.old) }
        ensures step { (spares : ℕ) (waiting : List DriveCounts) → Reads
            bay key address (shown self.old (C.rig machine.old) spares waiting) result
            (shown self.new (C.rig machine.new) spares waiting) }
        ensures counts { GoesOn (C.rig machine.old).counters (C.rig machine.new).counters }
        ensures costs { CostsFor bay (self.old.tries * 2) (self.old.tries * 504) (2 + self.old.tries * 48) (C.rig machine.old) (C.rig machine.new) }
        ensures idle { C.is_idle machine.new }
        ensures attached { IsAttached self.new (C.rig machine.new) }
    {
        if !is_sector_request(bay, key, address) {
            return Err(Code::BadRequest);
        }
        if crosses_page(address, sector_size(key.n)) {
            return Err(Code::Page);
        }
        if !self.is_held(machine, bay) {
            return Err(Code::Changed);
        }
        self.read_in_attempts(machine, bay, key, address)
    }

    /// Reads in as many attempts as it takes, and no more than are set.
    fn read_in_attempts<C: Commands>(
        &mut self,
        machine: &mut C,
        bay: u8,
        key: Chrn,
        address: u32,
    ) -> Result<bool, Code>
        requires idle { C.is_idle machine.old }
        requires ready { CanTry self.old (C.rig machine.old) bay }
        requires asked { IsAsked bay key address }
        requires page { address / 65536 ≡ (address + content_size key.n - 1) / 65536 }
        ensures step { (start : StationState) (spares : ℕ) (waiting : List DriveCounts)
            → HasAsked start (shown self.old (C.rig machine.old) spares waiting) → CostsUpTo 0 6 start.counters (C.rig machine.old).counters
            → ReadsDrive bay key address start result (shown self.new (C.rig machine.new) spares waiting) }
        ensures counts { GoesOn (C.rig machine.old).counters (C.rig machine.new).counters }
        ensures costs { CostsFor bay (self.old.tries * 2) (self.old.tries * 504) (self.old.tries * 48) (C.rig machine.old) (C.rig machine.new) }
        ensures idle { C.is_idle machine.new }
        ensures ready { CanTry self.new (C.rig machine.new) bay }
    {
        let mut last = Code::Seek;
        for attempt in 1..self.tries + 1 {
            match self.read_once(machine, bay, key, address, attempt) {
                Ok(deleted) => return Ok(deleted),
                Err(code) => last = code,
            }
        }
        Err(last)
    }

    /// One attempt.
    fn read_once<C: Commands>(
        &mut self,
        machine: &mut C,
        bay: u8,
        key: Chrn,
        address: u32,
        attempt: u8,
    ) -> Result<bool, Code>
        requires idle { C.is_idle machine.old }
        requires ready { CanTry self.old (C.rig machine.old) bay }
        requires asked { IsAsked bay key address }
        requires page { address / 65536 ≡ (address + content_size key.n - 1) / 65536 }
        requires from_first { 1 ≤ attempt }
        requires to_last { attempt ≤ self.old.tries }
        ensures step { (spares : ℕ) (waiting : List DriveCounts) → TriesRead (IsSure self.old.tries attempt)
            bay key address (shown self.old (C.rig machine.old) spares waiting) result
            (shown self.new (C.rig machine.new) spares waiting) }
        ensures tries { self.new.tries ≡ self.old.tries }
        ensures costs { CostsFor bay 2 504 48 (C.rig machine.old) (C.rig machine.new) }
        ensures counts { GoesOn (C.rig machine.old).counters (C.rig machine.new).counters }
        ensures idle { C.is_idle machine.new }
        ensures ready { CanTry self.new (C.rig machine.new) bay }
    {
        let notes = self.notes(bay);
        let way = preparation(self.tries, attempt, notes.known.is_some());
        if !self.prepare(machine, bay, key.c, way) {
            return Err(Code::Seek);
        }
        machine.read(bay, key, notes.rate, address)
    }
}
