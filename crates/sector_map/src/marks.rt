// Runs of three marks A1, and the byte after them.
ghost use Rattle.std.specs.Prelude.{◌<◌, ◌↔◌, Bool, IsTrue, MatchOption};
ghost use Rattle.sector_map.specs.Common.{IsTrackSized, IsInside, IsRun, TouchesNoZero, IsAddressMark, IsDataRun};

use crate::bytes::byte_at_cell;
use track_model::cells16;

/// The byte A1 with one clock cell lost. No byte of data is recorded as these cells.
pub(crate) const MARK: u16 = 0x4489;

/// The cells of a run.
pub(crate) const RUN_CELLS: usize = 48;

/// The cells of a run and the byte after it.
pub(crate) const MARK_CELLS: usize = 64;

/// Whether three marks stand one after the other from cell `p` on.
pub(crate) fn is_run(words: &[u16], p: usize) -> bool
    requires sized { IsTrackSized words.now }
    requires inside { IsInside words.now p 48 }
    ensures { IsTrue result ↔ IsRun words.now p }
{
    cells16(words, p) == MARK && cells16(words, p + 16) == MARK && cells16(words, p + 32) == MARK
}

/// Whether none of the `count` cells from `p` on lies in a word 0000.
pub(crate) fn touches_no_zero(words: &[u16], p: usize, count: usize) -> bool
    requires sized { IsTrackSized words.now }
    requires some { 0 < count }
    requires inside { IsInside words.now p count }
    ensures { IsTrue result ↔ TouchesNoZero words.now p count }
{
    for k in p / 16..(p + count - 1) / 16 + 1 {
        if words[k] == 0 {
            return false;
        }
    }
    true
}

/// Whether an address mark is at cell `p`.
pub(crate) fn is_address_mark(words: &[u16], p: usize) -> bool
    requires sized { IsTrackSized words.now }
    requires inside { IsInside words.now p 64 }
    ensures { IsTrue result ↔ IsAddressMark words.now p }
{
    is_run(words, p) && byte_at_cell(words, p + 48) == 0xFE && touches_no_zero(words, p, MARK_CELLS)
}

/// Whether a data mark is at cell `q`, and whether it marks its data as deleted.
pub(crate) fn data_mark_at(words: &[u16], q: usize) -> Option<bool>
    requires sized { IsTrackSized words.now }
    requires inside { IsInside words.now q 64 }
    ensures { MatchOption result ((deleted : Bool) → IsDataRun words.now q deleted → ⊥)
        (λ deleted. IsDataRun words.now q deleted) }
{
    if !is_run(words, q) || !touches_no_zero(words, q, MARK_CELLS) {
        return None;
    }
    match byte_at_cell(words, q + 48) {
        0xFB => Some(false),
        0xF8 => Some(true),
        _ => None,
    }
}
