// Words in which no run of marks ends, many at once.
ghost use Rattle.std.specs.Prelude.{◌≡◌, ℕ, ◌≤◌, length, take};
ghost use Rattle.track_separator.specs.Past.{BringsNoRun};

use crate::register::next_cells;

/// How many ones the cells of a mark A1 have, however they are rotated.
const MARK_ONES: u32 = 5;

/// How many words fill the register.
const REGISTER_WORDS: usize = 8;

/// Counts the first of these words, for as long as no run of marks ends in them. A run that ends in a word covers the
/// two words before that word. So those two words are alike, and each is a rotated mark. All words up to the second of
/// two such words are counted.
pub(crate) fn count_passing(cells: u128, words: &[u16]) -> usize
    ensures within { result ≤ length words.now }
    ensures past { (after : ℕ) × BringsNoRun (take result words.now) cells after }
{
    let mut before = (cells & 0xFFFF) as u16;
    if before.count_ones() == MARK_ONES {
        return 0;
    }
    for (i, word) in words.iter().enumerate() {
        // With one condition for both, the ones of every word would be counted.
        if *word != before {
            before = *word;
        } else if word.count_ones() == MARK_ONES {
            return i + 1;
        }
    }
    words.len()
}

/// The register after the first `count` of these words, in none of which a run of marks ends. The last of them fill the
/// register anew.
pub(crate) fn cells_behind(cells: u128, words: &[u16], count: usize) -> u128
    requires { count ≤ length words.now }
    ensures { (after : ℕ) → BringsNoRun (take count words.now) cells after → result ≡ after }
{
    let first = count.saturating_sub(REGISTER_WORDS);
    let mut kept = cells;
    for place in first..count {
        kept = next_cells(kept, words[place]);
    }
    kept
}
