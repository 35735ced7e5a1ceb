// A FORMAT TRACK that the index cuts in gap 3 of its last sector. It is done (82077AA data sheet: a format ends at the
// index). The inner controller reports it as cut, because it counts this gap as a part of the layout.
ghost use Rattle.std.specs.Prelude.{◌≡◌, ◌≤◌, ◌+◌};
ghost use Rattle.fdc_chip.specs.Common.{drive_at, results_taken, size_of};
ghost use Rattle.fdc_chip.specs.Chips.{chip_state, with_front};
ghost use Rattle.fdc_chip.specs.Ending.{as_done, done_if, fits_but_gap, fits_selected, has_room, layout_words, results_judged, says_cut, words_in};

use crate::chip::Chip;
use crate::order::Order;
use drive_model::Inspect;
use fdc_commands::Results;
use fdc_registers::{Flags, St0, St1, St2};

/// The words before the first sector: gap 4a, the index mark and gap 1.
const START_WORDS: u32 = 146;

/// The words of a sector without its content and gap 3.
const SECTOR_WORDS: u32 = 62;

/// What a command that is done leaves of ST0: all but the interrupt code.
const WITHOUT_CODE: u8 = 0x3F;

impl Order {
    /// How many words a sector of a FORMAT TRACK has, with its gap 3.
    fn sector_words(self) -> u32
        ensures words { result ≡ 62 + size_of self.key.c + self.key.r }
        ensures most { result ≤ 8509 }
    {
        let others = SECTOR_WORDS + u32::from(self.key.r);
        match self.key.c {
            1 => others + 256,
            2 => others + 512,
            3 => others + 1024,
            4 => others + 2048,
            5 => others + 4096,
            6 => others + 8192,
            _ => others + 128,
        }
    }

    /// How many words the layout of a FORMAT TRACK has.
    fn layout_words(self) -> u32
        ensures { result ≡ layout_words self }
    {
        START_WORDS + u32::from(self.key.h) * self.sector_words()
    }

    /// Whether all sectors of a FORMAT TRACK fit on a track of so many words, if gap 3 of the last one may be cut.
    fn fits_but_gap(self, words: u16) -> bool
        ensures { result ≡ fits_but_gap self words }
    {
        self.layout_words() <= u32::from(words) + u32::from(self.key.r)
    }
}

/// Whether the results say that the index came before the whole layout was written.
fn says_cut(results: Results) -> bool
    ensures { result ≡ says_cut results }
{
    results.st1.bits() == St1::MISSING_MARK.bits()
        && results.st2.bits() == St2::MISSING_DATA_MARK.bits()
}

/// The results of a command that is done, with the sector ID of these results.
fn as_done(results: Results) -> Results
    ensures { result ≡ as_done results }
{
    Results {
        st0: St0(results.st0.bits() & WITHOUT_CODE),
        st1: St1(0),
        st2: St2(0),
        ..results
    }
}

/// The results as they are, or those of a command that is done, if nothing but gap 3 of the last sector was cut.
fn done_if(room: bool, results: Results) -> Results
    ensures { result ≡ done_if room results }
{
    if room && says_cut(results) {
        as_done(results)
    } else {
        results
    }
}

impl<D: Inspect> Chip<D> {
    /// How many words a track of the medium in a bay has, or 0 if none is in.
    fn words_in(&self, bay: u8) -> u16
        requires { bay ≤ 1 }
        ensures { result ≡ words_in (drive_at (chip_state D.state self.now).front.adapter bay).medium }
    {
        match self.medium(bay) {
            Some(medium) => medium.words(),
            None => 0,
        }
    }

    /// Whether all sectors of a FORMAT TRACK fit on the medium in the drive that DOR selects.
    fn fits_selected(&self) -> bool
        ensures { result ≡ fits_selected (chip_state D.state self.now) }
    {
        let bay = self.selected();
        bay <= 1 && self.order.fits_but_gap(self.words_in(bay))
    }

    /// Whether the inner controller itself executed a FORMAT TRACK, all of whose sectors fit.
    fn has_room(&self) -> bool
        ensures { result ≡ has_room (chip_state D.state self.now) }
    {
        self.order.is_format() && (self.behind.is_through() && self.fits_selected())
    }

    /// Takes the results that wait in the inner controller, and judges them. A FORMAT TRACK is done if the index cut
    /// nothing but gap 3 of its last sector.
    pub(crate) fn take_judged(&mut self) -> Option<Results>
        ensures results { result ≡ results_judged (chip_state D.state self.old) }
        ensures after { chip_state D.state self.new ≡ with_front (results_taken (chip_state D.state self.old).front) (chip_state D.state self.old) }
    {
        let room = self.has_room();
        let results = self.behind.take_results()?;
        Some(done_if(room, results))
    }
}
