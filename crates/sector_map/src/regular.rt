// Tracks on which each data field can be written over by itself.
ghost use Rattle.std.specs.Prelude.{◌≡◌, ◌↔◌, ◌+◌, ◌*◌, ◌<◌, ◌≤◌, IsTrue, length};
ghost use Rattle.sector_map.specs.Common.{IsTrackSized, IsInside, IsAddressAt, IsSizeCode, window_word, span_cells, IsRegular};
ghost use Rattle.sector_map.specs.Places.{HasNoRun, HasNoMark, StandsAlone, IsFieldRegular, IsPlaceRegular};

use crate::fields::{ADDRESS_CELLS, address_at};
use crate::marks::{MARK, MARK_CELLS, RUN_CELLS, is_address_mark, is_run};
use flop_base::{Chrn, sector_size};
use track_model::cells16;

/// How far behind the end of an address field its window begins, at the next word boundary.
const WINDOW_DISTANCE: usize = 352;

/// The words of a window besides its content: sync, marks, mark byte and CRC.
const WINDOW_WORDS: usize = 18;

/// The words of a span behind the address field, besides the content.
const SPAN_WORDS: usize = 67;

/// The word, counted from 0, at which the window of the address field at cell `place` begins. This is the first word
/// boundary 22 bytes or more behind the field (IBM System 34, gap 2).
pub fn window_word(place: usize) -> usize
    requires { place ≤ 262144 }
    ensures { result ≡ window_word place }
{
    (place + ADDRESS_CELLS + WINDOW_DISTANCE + 15) / 16
}

/// Whether no run begins at cell `from` or after it, and before cell `to`.
fn has_no_run(words: &[u16], from: usize, to: usize) -> bool
    requires sized { IsTrackSized words.now }
    ensures { IsTrue result ↔ HasNoRun words.now from to }
{
    for q in from..to.min(16 * words.len() - (RUN_CELLS - 1)) {
        if is_run(words, q) {
            return false;
        }
    }
    true
}

/// Whether no mark A1 begins at cell `from` or after it, and before cell `to`.
fn has_no_mark(words: &[u16], from: usize, to: usize) -> bool
    requires sized { IsTrackSized words.now }
    requires inside { to + 15 ≤ 16 * length words.now }
    ensures { IsTrue result ↔ HasNoMark words.now from to }
{
    for q in from..to {
        if cells16(words, q) == MARK {
            return false;
        }
    }
    true
}

/// The cells of the span of an address field.
#[tactic(auto, using(track_model::proofs::Sizes::content_size_bound))]
fn span_cells(n: u8) -> usize
    requires { IsSizeCode n }
    ensures value { result ≡ span_cells n }
    ensures most { result ≤ 132304 }
{
    ADDRESS_CELLS + 16 * (SPAN_WORDS + sector_size(n))
}

/// Whether each address field behind the one at cell `place` has another key, and begins behind the span of this one.
fn stands_alone(words: &[u16], place: usize, key: Chrn) -> bool
    requires sized { IsTrackSized words.now }
    requires coded { IsSizeCode key.n }
    requires inside { IsInside words.now place (span_cells key.n) }
    ensures { IsTrue result ↔ StandsAlone words.now place key }
{
    let end = place + span_cells(key.n);
    for q in place + 1..16 * words.len() - (MARK_CELLS - 1) {
        if let Some(other) = address_at(words, q)
            && (q < end || other == key)
        {
            return false;
        }
    }
    true
}

/// Whether the address field at cell `place` has what a regular track requires of it.
fn is_field_regular(words: &[u16], c: u8, h: u8, place: usize, key: Chrn) -> bool
    requires sized { IsTrackSized words.now }
    requires address { IsAddressAt words.now place key }
    ensures { IsTrue result ↔ IsFieldRegular words.now c h place key }
{
    if key.c != c || key.h != h || !(1..=6).contains(&key.n) {
        return false;
    }
    if place + span_cells(key.n) > 16 * words.len() {
        return false;
    }
    let window = 16 * window_word(place);
    let end = window + 16 * (WINDOW_WORDS + sector_size(key.n));
    has_no_mark(words, place + ADDRESS_CELLS, window - 15)
        && has_no_mark(words, end, end + 48)
        && stands_alone(words, place, key)
}

/// Whether cell `place` has what a regular track requires of it.
fn is_place_regular(words: &[u16], c: u8, h: u8, place: usize) -> bool
    requires sized { IsTrackSized words.now }
    requires inside { IsInside words.now place 64 }
    ensures { IsTrue result ↔ IsPlaceRegular words.now c h place }
{
    if !is_address_mark(words, place) {
        return true;
    }
    if !has_no_run(words, place + RUN_CELLS, place + ADDRESS_CELLS) {
        return false;
    }
    match address_at(words, place) {
        Some(key) => is_field_regular(words, c, h, place, key),
        None => true,
    }
}

/// Whether the track is regular for cylinder `c` and head `h`. On a regular track no run begins within an address
/// field. The address fields have distinct keys of this cylinder and head, with size codes from 1 to 6. Each has room
/// for its sector, apart from the others. No mark stands in front of its window, nor right behind it. A track of words
/// 0000 is regular.
pub fn is_regular(words: &[u16], c: u8, h: u8) -> bool
    requires { IsTrackSized words.now }
    ensures { IsTrue result ↔ IsRegular words.now c h }
{
    for place in 0..16 * words.len() - (MARK_CELLS - 1) {
        if !is_place_regular(words, c, h, place) {
            return false;
        }
    }
    true
}
