// Whether sectors fit on a track, and the gap behind them.
ghost use Rattle.std.specs.Prelude.{◌≤◌, ◌↔◌, ℕ, IsTrue, MatchOption};
ghost use Rattle.track_model.specs.Layouts.{laid_words};
ghost use Rattle.flop_base.specs.Standard.{gap_at, words_at};
ghost use Rattle.track_format.specs.Gaps.{Suits, IsLargestGap};

use flop_base::{Rate, sector_size};

/// The words before the first sector: gap 4a, the index mark and gap 1.
pub(crate) const START_WORDS: usize = 146;

/// The words of a sector without its content and gap 3.
const SECTOR_WORDS: usize = 62;

/// The least gap 3 with which the sectors of a track keep their distance.
pub const WIDE_GAP: u8 = 16;

/// The least gap 3 of a medium that is made without a drive. A write over a data field ends with its CRC, however small
/// gap 3 is. So one byte is enough: it parts the end of the write from the sync of the next sector.
pub const NARROW_GAP: u8 = 1;

/// The words that gap 3 and gap 4b must have together.
const LEAST_END: usize = 27;

/// Whether `sectors` sectors of size code `n` fit on a track of `words` words.
pub(crate) fn fits(sectors: usize, n: u8, gap3: u8, words: usize) -> bool
    requires at_least { 1 ≤ n }
    requires at_most { n ≤ 6 }
    ensures { IsTrue result ↔ laid_words sectors n gap3 ≤ words }
{
    let sector = SECTOR_WORDS + sector_size(n) + usize::from(gap3);
    START_WORDS <= words && sectors <= (words - START_WORDS) / sector
}

/// Whether `sectors` sectors fit, and there is room behind the last of them for a write over its data field.
fn suits(n: u8, sectors: u8, words: usize, gap3: u8) -> bool
    requires at_least { 1 ≤ n }
    requires at_most { n ≤ 6 }
    requires short { words ≤ 16384 }
    ensures { IsTrue result ↔ Suits n sectors words gap3 }
{
    let count = usize::from(sectors);
    if !fits(count, n, gap3, words) {
        return false;
    }
    let gap = usize::from(gap3);
    let laid = START_WORDS + count * (SECTOR_WORDS + sector_size(n) + gap);
    gap + (words - laid) >= LEAST_END
}

/// The largest gap 3, in bytes, with which a track of `sectors` sectors of size code `n` can be formatted, and each
/// sector can then be written over. It is at least `least`, and at most the standard gap of the rate. The result is
/// `None` if no such gap leaves room.
pub fn choose_gap(n: u8, sectors: u8, rate: Rate, least: u8) -> Option<u8>
    requires at_least { 1 ≤ n }
    requires at_most { n ≤ 6 }
    ensures { MatchOption result
        ((gap : ℕ) → least ≤ gap → gap ≤ gap_at rate → Suits n sectors (words_at rate) gap → ⊥)
        (λ gap. IsLargestGap least n sectors rate gap) }
{
    let words = usize::from(rate.words());
    let mut gap = rate.format_gap();
    while least < gap && !suits(n, sectors, words, gap) {
        gap -= 1;
    }
    if least <= gap && suits(n, sectors, words, gap) {
        Some(gap)
    } else {
        None
    }
}
