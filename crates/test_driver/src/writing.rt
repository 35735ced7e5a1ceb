// Writes of a bench.
ghost use Rattle.std.specs.Prelude.{◌≡◌, ◌+◌, ◌≤◌, length, Option, MatchResult};
ghost use Rattle.test_driver.specs.Common.{IsDisk, HasTrack, track_of, IsAddressAt, IsSizeCode, content_size, user_bytes, bytes_from, met_in, Change, WritesData};
ghost use Rattle.test_driver.specs.Put.{PutsWindow, HasFieldOn, IsAbsent, WritesOn};

use crate::bench::Bench;
use crate::drive::BenchDrive;
use crate::drives::take;
use crate::script::CommandTrouble;
use flop_base::{Chrn, Code, Rate, sector_size};
use raw_image::Medium;
use sector_map::{Absent, fill_field_words, find_address, window_word};

/// The words of a window without those of its content.
const WINDOW_WORDS: usize = 18;

/// Puts a window at its place behind an address field. Only words that are inside the track of the cylinder are put
/// there. True if all words are inside.
fn put_window(medium: &mut Medium, c: u8, key: Chrn, place: usize, words: &[u16]) -> bool
    requires track { HasTrack medium.old c key.h }
    requires address { IsAddressAt (track_of medium.old c key.h) place key }
    requires short { length words.now ≤ 16384 }
    ensures puts { PutsWindow c key.h place words.now medium.old result medium.new }
    ensures valid { IsDisk medium.new }
{
    let length = usize::from(medium.words());
    let start = window_word(place);
    if start > length {
        return false;
    }
    let cut = words.len().min(length - start);
    medium.set_words(c, key.h, start as u16, &words[..cut]);
    cut == words.len()
}

impl BenchDrive {
    ghost use Rattle.test_driver.specs.Drives.{SameDrive};

    /// The first address field of a key on the track under its head, or the refusal of a write to it.
    fn find_field(&self, key: Chrn, rate: Rate) -> Result<usize, Code>
        requires { IsSizeCode key.n }
        ensures { MatchResult result (λ place. HasFieldOn self.now.medium rate self.now.cylinder key place)
            (λ code. IsAbsent (met_in self.now.medium rate self.now.cylinder key.h) key code) }
    {
        let Some(track) = self.track(rate, key.h) else {
            return Err(Code::NoMark);
        };
        match find_address(track, key) {
            Ok(place) => Ok(place),
            Err(Absent::NoMark) => Err(Code::NoMark),
            Err(Absent::NoSector) => Err(Code::NotFound),
        }
    }

    /// Writes a record behind the first address field of its key. `words` is the room in which its window is made.
    fn write(
        &mut self,
        key: Chrn,
        rate: Rate,
        deleted: bool,
        content: &[u8],
        words: &mut [u16],
    ) -> Result<(), Code>
        requires coded { IsSizeCode key.n }
        requires content { length content.now ≡ content_size key.n }
        requires room { length words.old ≡ 18 + content_size key.n }
        ensures writes { (change : Option Change) × WritesOn rate self.old.cylinder (record { key = key; deleted = deleted; content = content.now })
            change self.old.medium result self.new.medium }
        ensures same { SameDrive self.old self.new }
    {
        let place = match self.find_field(key, rate) {
            Ok(place) => place,
            Err(code) => return Err(code),
        };
        fill_field_words(words, deleted, content);
        let cylinder = self.cylinder;
        let Some(medium) = &mut self.medium else {
            unreachable!();
        };
        if put_window(medium, cylinder, key, place, words) {
            Ok(())
        } else {
            Err(Code::NoMark)
        }
    }
}

impl Bench {
    ghost use Rattle.test_driver.specs.Shown.{rig_shown};

    /// Writes user memory to a record.
    pub(crate) fn write_field(
        &mut self,
        bay: u8,
        key: Chrn,
        rate: Rate,
        address: u32,
        deleted: bool,
    ) -> Result<(), Code>
        requires bay { bay ≤ 1 }
        requires coded { IsSizeCode key.n }
        requires range { address + content_size key.n ≤ user_bytes }
        ensures { (change : Option Change) × WritesData bay rate (record { key = key; deleted = deleted; content = bytes_from (rig_shown self.old).memory address (content_size key.n) })
            change
            (rig_shown self.old) result (rig_shown self.new) }
    {
        let trouble = self.script.trouble();
        if trouble != CommandTrouble::Calm {
            return Err(self.refuse_write(bay, trouble));
        }
        self.counts.send();
        let start = address as usize;
        let size = sector_size(key.n);
        let content = &self.memory[start..start + size];
        let window = &mut self.words[0..WINDOW_WORDS + size];
        let mut drive = take(&mut self.drives, bay);
        let answer = drive.write(key, rate, deleted, content, window);
        self.drives.replace(bay, drive);
        answer
    }
}
