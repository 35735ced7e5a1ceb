//! What a raw track holds: the definitions that the crates of fields, formats and drives share. Two types give the
//! answers about a track. Functions turn bytes into the cells of an MFM track and back, and compute the CRC of a field.
#![tactic(auto)]

mod cells;
mod crc;
pub mod laws;
mod symbol;
mod tables;

pub use cells::{cells16, decode_word, encode_byte};
pub use crc::{MARKS_CRC, crc_step, field_crc, mark_crc};
use flop_base::Chrn;
pub use symbol::Symbol;

/// What a search for a sector's data finds on a track.
#[derive(Clone, Copy, Debug, PartialEq, Eq)]
pub enum Look {
    /// An intact data field. `place` is the first cell of its content, `deleted` says that its mark is F8.
    Found { deleted: bool, place: usize },
    /// The track has no address mark.
    NoMark,
    /// The track has address marks, but no intact address field of the key.
    NoSector,
    /// The address field has no data field inside the track.
    NoData,
    /// The data field is there, but its CRC is wrong or cells of it weren't recorded.
    BadCrc,
}

/// An intact address field: its first cell and its key.
#[derive(Clone, Copy, Debug, PartialEq, Eq)]
pub struct Field {
    /// The first cell of its marks, counted from the index on.
    pub place: usize,
    /// The four bytes behind its mark byte.
    pub key: Chrn,
}
