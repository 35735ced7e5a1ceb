// Formatting a track.
ghost use Rattle.std.specs.Prelude.{◌≡◌, ◌≤◌, ◌+◌, ◌*◌, ◌↔◌, ◌&&◌, IsTrue, true, nat_le, List, ℕ, if◌then◌else◌};
ghost use Rattle.floppy_driver.specs.Common.{R500, is_bay, is_place, sectors_at, IsSizeCode, in_bay, DriveCounts, GoesOn, format_once_port_accesses, format_steps, format_turns};
ghost use Rattle.floppy_driver.specs.Rigs.{CostsFor, IsSound, track_under};
ghost use Rattle.floppy_driver.specs.Writings.{CanWrite};
ghost use Rattle.floppy_driver.specs.Formattings.{format_of, IsValidFormat, FormatsIn, HasOnlyMedium};
ghost use Rattle.floppy_driver.specs.Formattings.{IsFilled, IsBlankUnder, HoldsRecord, HoldsRecords, ReadsRecords};

use crate::Commands;
use crate::driver::Driver;
use crate::retry_plan::Prepare;
use flop_base::standard::SIZE_CODE;
use flop_base::{Chrn, Code, Rate, sector_size};
use sector_model::{is_place, most_format_gap};

/// The least gap 3.
const LEAST_GAP: u8 = 16;

/// What is asked of a format, at the rate of the bay.
#[derive(Clone, Copy)]
struct AskedFormat {
    c: u8,
    h: u8,
    rate: Rate,
    gap3: u8,
    fill: u8,
}

impl Driver {
    ghost use Rattle.floppy_driver.specs.Shown.{shown, notes_of};
    ghost use Rattle.floppy_driver.specs.Attached.{IsAttached};
    ghost use Rattle.sector_model.specs.Formats.{FormatsTo};

    /// Formats a track with the records of the bay's rate, and reads each back. Refusals are those of
    /// `Station::format`.
    pub fn format<C: Commands>(
        &mut self,
        machine: &mut C,
        bay: u8,
        c: u8,
        h: u8,
        gap3: u8,
        fill: u8,
    ) -> Result<(), Code>
        requires idle { C.is_idle machine.old }
        requires attached { IsAttached self.old (C.rig machine.old) }
        ensures step { (spares : ℕ) (waiting : List DriveCounts) → FormatsTo
            bay c h gap3 fill (shown self.old (C.rig machine.old) spares waiting) result
            (shown self.new (C.rig machine.new) spares waiting) }
        ensures counts { GoesOn (C.rig machine.old).counters (C.rig machine.new).counters }
        ensures costs { CostsFor bay (self.old.tries * format_turns (notes_of self.old bay).rate)
            (self.old.tries * format_steps (notes_of self.old bay).rate)
            (6 + self.old.tries * format_once_port_accesses (notes_of self.old bay).rate) (C.rig machine.old) (C.rig machine.new) }
        ensures idle { C.is_idle machine.new }
        ensures attached { IsAttached self.new (C.rig machine.new) }
    {
        if !is_asked(bay, c, h, gap3) {
            return Err(Code::BadRequest);
        }
        let held = self.is_held(machine, bay);
        let rate = self.shown_rate(bay, held);
        if gap3 > most_format_gap(rate) {
            return Err(Code::BadRequest);
        }
        if !held {
            return Err(Code::Changed);
        }
        if machine.is_protected(bay) {
            return Err(Code::Protected);
        }
        let asked = AskedFormat {
            c,
            h,
            rate,
            gap3,
            fill,
        };
        self.format_in_attempts(machine, bay, asked)
    }

    /// The rate of a bay: the noted one if the bay is held, else R500.
    fn shown_rate(&self, bay: u8, held: bool) -> Rate
        ensures { result ≡ (if held then (notes_of self.now bay).rate else R500) }
    {
        if held {
            self.notes(bay).rate
        } else {
            Rate::R500
        }
    }

    /// Formats in as many attempts as it takes, and no more than are set.
    fn format_in_attempts<C: Commands>(
        &mut self,
        machine: &mut C,
        bay: u8,
        asked: AskedFormat,
    ) -> Result<(), Code>
        requires idle { C.is_idle machine.old }
        requires asked { IsValidFormat (format_of asked) }
        requires can { CanWrite self.old (C.rig machine.old) bay }
        ensures formats { FormatsIn self.old.tries (format_of asked) bay (in_bay (C.rig machine.old).media bay)
            (in_bay (C.rig machine.new).media bay) (C.rig machine.old).counters
            result (C.rig machine.new).counters }
        ensures medium { (spares : ℕ) (waiting : List DriveCounts) → HasOnlyMedium
            bay (in_bay (C.rig machine.new).media bay) (shown self.old (C.rig machine.old) spares waiting)
            (shown self.new (C.rig machine.new) spares waiting) }
        ensures counts { GoesOn (C.rig machine.old).counters (C.rig machine.new).counters }
        ensures costs { CostsFor bay (self.old.tries * format_turns asked.rate) (self.old.tries * format_steps asked.rate)
            (self.old.tries * format_once_port_accesses asked.rate) (C.rig machine.old) (C.rig machine.new) }
        ensures idle { C.is_idle machine.new }
        ensures attached { IsAttached self.new (C.rig machine.new) }
    {
        let mut last = Code::Seek;
        for _ in 0..self.tries {
            match self.format_once(machine, bay, asked) {
                Ok(()) => return Ok(()),
                Err(code) => last = code,
            }
        }
        Err(last)
    }

    /// One attempt. It goes by track 0, since a format on a wrong track reads back well.
    fn format_once<C: Commands>(
        &mut self,
        machine: &mut C,
        bay: u8,
        asked: AskedFormat,
    ) -> Result<(), Code>
        requires idle { C.is_idle machine.old }
        requires asked { IsValidFormat (format_of asked) }
        requires can { CanWrite self.old (C.rig machine.old) bay }
        ensures formats { FormatsIn 1 (format_of asked) bay (in_bay (C.rig machine.old).media bay)
            (in_bay (C.rig machine.new).media bay) (C.rig machine.old).counters
            result (C.rig machine.new).counters }
        ensures medium { (spares : ℕ) (waiting : List DriveCounts) → HasOnlyMedium
            bay (in_bay (C.rig machine.new).media bay) (shown self.old (C.rig machine.old) spares waiting)
            (shown self.new (C.rig machine.new) spares waiting) }
        ensures counts { GoesOn (C.rig machine.old).counters (C.rig machine.new).counters }
        ensures costs { CostsFor bay (format_turns asked.rate) (format_steps asked.rate) (format_once_port_accesses asked.rate) (C.rig machine.old) (C.rig machine.new) }
        ensures can { CanWrite self.new (C.rig machine.new) bay }
        ensures tries { self.new.tries ≡ self.old.tries }
        ensures idle { C.is_idle machine.new }
    {
        if !self.prepare(machine, bay, asked.c, Prepare::RecalibrateAndSeek) {
            return Err(Code::Seek);
        }
        machine.format(bay, asked.c, asked.h, asked.rate, asked.gap3, asked.fill)?;
        read_back_all(machine, bay, asked)
    }
}

/// Whether a format of this track of a drive can be asked for, with a gap 3 that isn't too short.
fn is_asked(bay: u8, c: u8, h: u8, gap3: u8) -> bool
    ensures value { result ≡ (is_bay bay && is_place c h && nat_le 16 gap3) }
    ensures bay { IsTrue result → bay ≤ 1 }
    ensures cylinder { IsTrue result → c ≤ 79 }
    ensures head { IsTrue result → h ≤ 1 }
    ensures gap { IsTrue result → 16 ≤ gap3 }
{
    if bay > 1 || !is_place(c, h) {
        return false;
    }
    gap3 >= LEAST_GAP
}

/// Reads each record of a formatted track back. The first record that fails, or has another byte than the fill, decides
/// the answer.
fn read_back_all<C: Commands>(machine: &mut C, bay: u8, asked: AskedFormat) -> Result<(), Code>
    requires idle { C.is_idle machine.old }
    requires bay { bay ≤ 1 }
    requires asked { IsValidFormat (format_of asked) }
    requires spun { in_bay (C.rig machine.old).spun bay ≡ true }
    requires sound { IsSound (C.rig machine.old) }
    ensures reads { ReadsRecords bay (sectors_at asked.rate) (IsBlankUnder (C.rig machine.old) bay asked.rate asked.h)
        (HoldsRecords (track_under (C.rig machine.old) bay asked.rate asked.h) asked.c asked.h (sectors_at asked.rate) asked.fill)
        (C.rig machine.old)
        result (C.rig machine.new) }
    ensures costs { CostsFor bay (sectors_at asked.rate * 2) (sectors_at asked.rate * 261) (sectors_at asked.rate * 29) (C.rig machine.old) (C.rig machine.new) }
    ensures sound { IsSound (C.rig machine.new) }
    ensures idle { C.is_idle machine.new }
{
    for r in 1..asked.rate.sectors() + 1 {
        let key = Chrn {
            c: asked.c,
            h: asked.h,
            r,
            n: SIZE_CODE,
        };
        read_back_filled(machine, bay, key, asked.rate, asked.fill)?;
    }
    Ok(())
}

/// Reads a record back. A record that has another byte than the fill counts as damaged.
fn read_back_filled<C: Commands>(
    machine: &mut C,
    bay: u8,
    key: Chrn,
    rate: Rate,
    fill: u8,
) -> Result<(), Code>
    requires idle { C.is_idle machine.old }
    requires bay { bay ≤ 1 }
    requires head { key.h ≤ 1 }
    requires coded { IsSizeCode key.n }
    requires spun { in_bay (C.rig machine.old).spun bay ≡ true }
    ensures reads { ReadsRecords bay 1 (IsBlankUnder (C.rig machine.old) bay rate key.h)
        (HoldsRecord (track_under (C.rig machine.old) bay rate key.h) key fill)
        (C.rig machine.old) result (C.rig machine.new) }
    ensures costs { CostsFor bay 2 261 29 (C.rig machine.old) (C.rig machine.new) }
    ensures sound { IsSound (C.rig machine.new) }
    ensures idle { C.is_idle machine.new }
{
    machine.read_back(bay, key, rate)?;
    if is_page_filled(machine, fill, sector_size(key.n) as u16) {
        Ok(())
    } else {
        Err(Code::BadCrc)
    }
}

/// Whether the first `count` bytes of the driver's page are the fill byte.
fn is_page_filled<C: Commands>(machine: &C, fill: u8, count: u16) -> bool
    ensures { IsTrue result ↔ IsFilled (C.rig machine.now).page count fill }
{
    for i in 0..count {
        if machine.page(i) != fill {
            return false;
        }
    }
    true
}
