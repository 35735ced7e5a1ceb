// Formats of a bench.
ghost use Rattle.std.specs.Prelude.{◌≡◌, ◌+◌, ◌*◌, ◌≤◌, ◌↔◌, IsTrue, IsOk, IfErr, length, Option};
ghost use Rattle.test_driver.specs.Common.{lay, laid_words, Laying, FormatsTrack};
ghost use Rattle.sector_map.specs.Standard.{track_keys};
ghost use Rattle.test_driver.specs.Laid.{HasTrackOn, FormatsOn};

use crate::bench::Bench;
use crate::drive::{BenchDrive, same_rate};
use crate::drives::take;
use crate::script::CommandTrouble;
use flop_base::standard::SIZE_CODE;
use flop_base::{Code, Rate};
use sector_map::keys_of_track;
use track_format::fill_layout;

/// The answer of a format of a track of `words` words. It says whether `sectors` sectors of 512 bytes fit on the track.
fn format_answer(sectors: u8, gap3: u8, words: usize) -> Result<(), Code>
    ensures fits { IsOk result ↔ laid_words sectors 2 gap3 ≤ words }
    ensures refused { IfErr result (λ code. code ≡ Code.NoMark) }
{
    if 146 + usize::from(sectors) * (574 + usize::from(gap3)) <= words {
        Ok(())
    } else {
        Err(Code::NoMark)
    }
}

/// Fills the words with those of a formatted track.
fn fill_track(words: &mut [u16], sectors: u8, c: u8, h: u8, gap3: u8, fill: u8)
    requires { sectors ≤ 18 }
    ensures { words.new ≡ lay (track_keys sectors c h) 2 gap3 fill (length words.old) }
{
    let keys = keys_of_track(c, h);
    fill_layout(words, &keys[..usize::from(sectors)], SIZE_CODE, gap3, fill);
}

impl BenchDrive {
    ghost use Rattle.test_driver.specs.Drives.{SameDrive};

    /// Whether the medium has the track under a head, at this rate.
    fn has_track(&self, rate: Rate, head: u8) -> bool
        ensures { IsTrue result ↔ HasTrackOn self.now.medium rate self.now.cylinder head }
    {
        match &self.medium {
            Some(medium) => {
                same_rate(medium.rate(), rate)
                    && self.cylinder < medium.cylinders()
                    && head < medium.heads()
            }
            None => false,
        }
    }

    /// Formats the track under a head. `words` is the room in which the track is made.
    fn format(
        &mut self,
        c: u8,
        h: u8,
        rate: Rate,
        gap3: u8,
        fill: u8,
        words: &mut [u16],
    ) -> Result<(), Code>
        requires { length words.old ≡ 16384 }
        ensures formats { (laying : Option Laying) × FormatsOn self.old.cylinder (record { c = c; h = h; rate = rate; gap3 = gap3; fill = fill })
            laying self.old.medium result self.new.medium }
        ensures same { SameDrive self.old self.new }
    {
        if !self.has_track(rate, h) {
            return Err(Code::NoMark);
        }
        let sectors = rate.sectors();
        let cylinder = self.cylinder;
        let Some(medium) = &mut self.medium else {
            unreachable!();
        };
        let length = usize::from(medium.words());
        let track = &mut words[..length];
        fill_track(track, sectors, c, h, gap3, fill);
        medium.set_words(cylinder, h, 0, track);
        format_answer(sectors, gap3, length)
    }
}

impl Bench {
    ghost use Rattle.test_driver.specs.Shown.{rig_shown};

    /// Formats the track under a head.
    pub(crate) fn format_track(
        &mut self,
        bay: u8,
        c: u8,
        h: u8,
        rate: Rate,
        gap3: u8,
        fill: u8,
    ) -> Result<(), Code>
        requires bay { bay ≤ 1 }
        ensures { (laying : Option Laying) × FormatsTrack bay (record { c = c; h = h; rate = rate; gap3 = gap3; fill = fill })
            laying (rig_shown self.old) result (rig_shown self.new) }
    {
        let trouble = self.script.trouble();
        if trouble != CommandTrouble::Calm {
            return Err(self.refuse_write(bay, trouble));
        }
        self.counts.send();
        let mut drive = take(&mut self.drives, bay);
        let answer = drive.format(c, h, rate, gap3, fill, &mut self.words);
        self.drives.replace(bay, drive);
        answer
    }
}
