// Writing a sector.
ghost use Rattle.std.specs.Prelude.{◌≡◌, ◌≤◌, ◌+◌, ◌-◌, ◌*◌, ◌/◌, ◌↔◌, List, ℕ, IsTrue, true, false};
ghost use Rattle.floppy_driver.specs.Common.{option_map_or, in_bay, DriveCounts, CostsUpTo, GoesOn, user_bytes, bytes_from, content_size};
ghost use Rattle.floppy_driver.specs.Rigs.{CostsFor, IsSound};
ghost use Rattle.sector_model.specs.Asked.{IsAsked};
ghost use Rattle.floppy_driver.specs.Writings.{AreBytesAlike, WritesChecked};

use crate::Commands;
use crate::driver::Driver;
use crate::retry_plan::preparation;
use flop_base::{Chrn, Code, Rate, sector_size};
use sector_model::{crosses_page, is_sector_request};

impl Driver {
    ghost use Rattle.floppy_driver.specs.Shown.{shown, HasAsked};
    ghost use Rattle.floppy_driver.specs.Attached.{IsAttached};
    ghost use Rattle.sector_model.specs.Stations.{StationState};
    ghost use Rattle.sector_model.specs.Writes.{WritesTo, WritesDrive, written_from};
    ghost use Rattle.floppy_driver.specs.Attempts.{IsSure};
    ghost use Rattle.floppy_driver.specs.Writings.{CanWrite, TriesWrite};

    /// Writes user memory to the sector of a key, marked deleted or not, and reads it back. Refusals are those of
    /// `Station::write`.
    pub fn write<C: Commands>(
        &mut self,
        machine: &mut C,
        bay: u8,
        key: Chrn,
        address: u32,
        deleted: bool,
    ) -> Result<(), Code>
        requires idle { C.is_idle machine.old }
        requires attached { IsAttached self.old (C.rig machine.old) }
        ensures step { (spares : ℕ) (waiting : List DriveCounts) → WritesTo
            bay key address deleted (shown self.old (C.rig machine.old) spares waiting) result
            (shown self.new (C.rig machine.new) spares waiting) }
        ensures counts { GoesOn (C.rig machine.old).counters (C.rig machine.new).counters }
        ensures costs { CostsFor bay (self.old.tries * 4) (self.old.tries * 765) (6 + self.old.tries * 77) (C.rig machine.old) (C.rig machine.new) }
        ensures idle { C.is_idle machine.new }
        ensures attached { IsAttached self.new (C.rig machine.new) }
    {
        if !is_sector_request(bay, key, address) {
            return Err(Code::BadRequest);
        }
        if crosses_page(address, sector_size(key.n)) {
            return Err(Code::Page);
        }
        if !self.is_held(machine, bay) {
            return Err(Code::Changed);
        }
        if machine.is_protected(bay) {
            return Err(Code::Protected);
        }
        self.write_in_attempts(machine, bay, key, address, deleted)
    }

    /// Writes in as many attempts as it takes, and no more than are set.
    fn write_in_attempts<C: Commands>(
        &mut self,
        machine: &mut C,
        bay: u8,
        key: Chrn,
        address: u32,
        deleted: bool,
    ) -> Result<(), Code>
        requires idle { C.is_idle machine.old }
        requires asked { IsAsked bay key address }
        requires page { address / 65536 ≡ (address + content_size key.n - 1) / 65536 }
        requires ready { CanWrite self.old (C.rig machine.old) bay }
        ensures step { (start : StationState) (spares : ℕ) (waiting : List DriveCounts)
            → HasAsked start (shown self.old (C.rig machine.old) spares waiting) → CostsUpTo 0 6 start.counters (C.rig machine.old).counters
            → WritesDrive (written_from start key address deleted) bay start result
            (shown self.new (C.rig machine.new) spares waiting) }
        ensures counts { GoesOn (C.rig machine.old).counters (C.rig machine.new).counters }
        ensures costs { CostsFor bay (self.old.tries * 4) (self.old.tries * 765) (self.old.tries * 77) (C.rig machine.old) (C.rig machine.new) }
        ensures idle { C.is_idle machine.new }
        ensures ready { CanWrite self.new (C.rig machine.new) bay }
    {
        let mut last = Code::Seek;
        for attempt in 1..self.tries + 1 {
            match self.write_once(machine, bay, key, address, deleted, attempt) {
                Ok(()) => return Ok(()),
                Err(code) => last = code,
            }
        }
        Err(last)
    }

    /// One attempt: the sector is written, read back to the driver's page and compared.
    fn write_once<C: Commands>(
        &mut self,
        machine: &mut C,
        bay: u8,
        key: Chrn,
        address: u32,
        deleted: bool,
        attempt: u8,
    ) -> Result<(), Code>
        requires idle { C.is_idle machine.old }
        requires asked { IsAsked bay key address }
        requires page { address / 65536 ≡ (address + content_size key.n - 1) / 65536 }
        requires from_first { 1 ≤ attempt }
        requires to_last { attempt ≤ self.old.tries }
        requires ready { CanWrite self.old (C.rig machine.old) bay }
        ensures attempt { (spares : ℕ) (waiting : List DriveCounts) → TriesWrite (IsSure self.old.tries attempt)
            (record { key = key; deleted = deleted; content = bytes_from (C.rig machine.old).memory address (content_size key.n) })
            bay (shown self.old (C.rig machine.old) spares waiting)
            result (shown self.new (C.rig machine.new) spares waiting) }
        ensures tries { self.new.tries ≡ self.old.tries }
        ensures costs { CostsFor bay 4 765 77 (C.rig machine.old) (C.rig machine.new) }
        ensures memory { (C.rig machine.new).memory ≡ (C.rig machine.old).memory }
        ensures counts { GoesOn (C.rig machine.old).counters (C.rig machine.new).counters }
        ensures idle { C.is_idle machine.new }
        ensures ready { CanWrite self.new (C.rig machine.new) bay }
    {
        let notes = self.notes(bay);
        let way = preparation(self.tries, attempt, notes.known.is_some());
        if !self.prepare(machine, bay, key.c, way) {
            return Err(Code::Seek);
        }
        write_checked(machine, bay, key, notes.rate, address, deleted)
    }
}

/// Writes user memory to the record of a key on the track under its head, reads it back to the driver's page and
/// compares.
fn write_checked<C: Commands>(
    machine: &mut C,
    bay: u8,
    key: Chrn,
    rate: Rate,
    address: u32,
    deleted: bool,
) -> Result<(), Code>
    requires idle { C.is_idle machine.old }
    requires asked { IsAsked bay key address }
    requires page { address / 65536 ≡ (address + content_size key.n - 1) / 65536 }
    requires spun { in_bay (C.rig machine.old).spun bay ≡ true }
    requires sound { IsSound (C.rig machine.old) }
    requires unprotected { option_map_or (λ disk. disk.protected) (in_bay (C.rig machine.old).media bay) false ≡ false }
    ensures checked { WritesChecked bay rate (record { key = key; deleted = deleted; content = bytes_from (C.rig machine.old).memory address (content_size key.n) })
        (C.rig machine.old)
        result (C.rig machine.new) }
    ensures costs { CostsFor bay 4 522 58 (C.rig machine.old) (C.rig machine.new) }
    ensures sound { IsSound (C.rig machine.new) }
    ensures idle { C.is_idle machine.new }
{
    machine.write(bay, key, rate, address, deleted)?;
    let marked = machine.read_back(bay, key, rate)?;
    if marked != deleted {
        return Err(Code::BadCrc);
    }
    if !is_page_alike(machine, address, sector_size(key.n) as u16) {
        return Err(Code::BadCrc);
    }
    Ok(())
}

/// Whether the driver's page begins with these `count` bytes of user memory.
fn is_page_alike<C: Commands>(machine: &C, address: u32, count: u16) -> bool
    requires within { address + count ≤ user_bytes }
    ensures { IsTrue result ↔ AreBytesAlike (C.rig machine.now).page (C.rig machine.now).memory address count }
{
    for i in 0..count {
        if machine.page(i) != machine.memory(address + u32::from(i)) {
            return false;
        }
    }
    true
}
