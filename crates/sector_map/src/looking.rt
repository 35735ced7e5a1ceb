// The look for a sector's data.
ghost use Rattle.std.specs.Prelude.{◌≡◌, ℕ, ◌+◌, ◌≤◌, ◌↔◌, Bool, IsTrue, MatchOption, MatchResult};
ghost use Rattle.sector_map.specs.Common.{IsTrackSized, IsInside, IsAddress, IsAddressAt, IsDataMark, IsSizeCode, data_cells, IsFirstAddress, IsFirstDataMark, IsIntact, LookAt, LookFor};
ghost use Rattle.sector_map.specs.Absences.{IsWithout};

use crate::bytes::is_checked;
use crate::fields::{ADDRESS_CELLS, address_at};
use crate::marks::{MARK_CELLS, data_mark_at, is_address_mark, touches_no_zero};
use flop_base::{Chrn, sector_size};
use track_model::Look;

/// How far behind the end of an address field its data mark may begin.
const REACH: usize = 960;

/// A data mark: its first cell, and whether it marks its data as deleted.
#[derive(Clone, Copy)]
struct DataMark {
    place: usize,
    deleted: bool,
}

/// The first data mark of the address field at cell `place`.
fn first_data_mark(words: &[u16], place: usize) -> Option<DataMark>
    requires sized { IsTrackSized words.now }
    requires address { IsAddress words.now place }
    ensures { MatchOption result
        ((q : ℕ) (deleted : Bool) → IsDataMark words.now place q deleted → ⊥)
        (λ mark. IsFirstDataMark words.now place mark.place mark.deleted) }
{
    let end = place + ADDRESS_CELLS;
    let past = (end + REACH).min(16 * words.len() - (MARK_CELLS - 1));
    for q in end..past {
        if let Some(deleted) = data_mark_at(words, q) {
            return Some(DataMark { place: q, deleted });
        }
    }
    None
}

/// The first data mark of the address field at cell `place`, less than 960 cells behind the field's end. The answer
/// says whether the mark marks its data as deleted, and the first cell of the content behind the mark.
pub fn data_at(words: &[u16], place: usize) -> Option<(bool, usize)>
    requires sized { IsTrackSized words.now }
    requires address { IsAddress words.now place }
    ensures { MatchOption result
        ((q : ℕ) (deleted : Bool) → IsDataMark words.now place q deleted → ⊥)
        (λ found. (q : ℕ) × (found.1 ≡ q + 64) × IsFirstDataMark words.now place q found.0) }
{
    let mark = first_data_mark(words, place)?;
    Some((mark.deleted, mark.place + MARK_CELLS))
}

/// Whether the data field of size code `n` at cell `q` is intact.
#[tactic(auto, using(track_model::proofs::Sizes::content_size_bound))]
fn is_intact(words: &[u16], q: usize, n: u8) -> bool
    requires sized { IsTrackSized words.now }
    requires coded { IsSizeCode n }
    requires inside { IsInside words.now q (data_cells n) }
    ensures { IsTrue result ↔ IsIntact words.now q n }
{
    let size = sector_size(n);
    touches_no_zero(words, q, MARK_CELLS + 16 * (size + 2)) && is_checked(words, q + 48, size + 1)
}

/// The look at the address field at cell `place`, for a sector of size code `n`.
#[tactic(auto, using(track_model::proofs::Sizes::content_size_bound))]
pub fn look_at(words: &[u16], place: usize, n: u8) -> Look
    requires sized { IsTrackSized words.now }
    requires address { IsAddress words.now place }
    requires coded { IsSizeCode n }
    ensures { LookAt words.now place n result }
{
    let Some(mark) = first_data_mark(words, place) else {
        return Look::NoData;
    };
    let content = mark.place + MARK_CELLS;
    if content + 16 * (sector_size(n) + 2) > 16 * words.len() {
        return Look::NoData;
    }
    if is_intact(words, mark.place, n) {
        Look::Found {
            deleted: mark.deleted,
            place: content,
        }
    } else {
        Look::BadCrc
    }
}

/// Why a track has no intact address field of a key.
#[derive(Clone, Copy, Debug, PartialEq, Eq)]
pub enum Absent {
    /// The track has no address mark.
    NoMark,
    /// The track has address marks, but none begins an intact address field of the key.
    NoSector,
}

/// The first cell of the first intact address field of the key.
pub fn find_address(words: &[u16], key: Chrn) -> Result<usize, Absent>
    requires { IsTrackSized words.now }
    ensures { MatchResult result (λ p. IsFirstAddress words.now key p) (λ absent. IsWithout words.now key absent) }
{
    let mut has_mark = false;
    for p in 0..16 * words.len() - (MARK_CELLS - 1) {
        if is_address_mark(words, p) {
            has_mark = true;
            if let Some(found) = address_at(words, p)
                && found == key
            {
                return Ok(p);
            }
        }
    }
    if has_mark {
        Err(Absent::NoSector)
    } else {
        Err(Absent::NoMark)
    }
}

/// The look at the first address field of the key.
pub fn find_sector(words: &[u16], key: Chrn) -> Look
    requires sized { IsTrackSized words.now }
    requires coded { IsSizeCode key.n }
    ensures { LookFor words.now key result }
{
    match find_address(words, key) {
        Ok(place) => look_at(words, place, key.n),
        Err(Absent::NoMark) => Look::NoMark,
        Err(Absent::NoSector) => Look::NoSector,
    }
}

/// Whether the track has an intact address field.
pub fn has_address(words: &[u16]) -> bool
    requires { IsTrackSized words.now }
    ensures { IsTrue result ↔ ((p : ℕ) × IsAddress words.now p) }
{
    for p in 0..16 * words.len() - (MARK_CELLS - 1) {
        if address_at(words, p).is_some() {
            return true;
        }
    }
    false
}
