// Flat files of 1.44 MB: record R of cylinder C and head H begins at ((C * 2 + H) * 18 + R - 1) * 512.
use crate::trouble::{Trouble, must};
use std::alloc::Global;
use telwyddus::NoMemory;
use telwyddus::disk::{Medium, flat_file};

/// The number of sectors: 80 cylinders with two heads, and 18 sectors on each track.
const SECTORS: u16 = 2880;

/// Adds sector S. Its words are S, S + 1 and so on up to S + 255, with the high byte of each first. No two sectors are
/// the same.
fn add_sector(bytes: &mut Vec<u8>, sector: u16) -> Result<(), NoMemory> {
    for i in 0..256 {
        let word = sector.wrapping_add(i);
        bytes.extend_from_slice(&word.to_be_bytes())?;
    }
    Ok(())
}

/// A flat file.
pub(crate) fn flat_bytes(alloc: Global) -> Result<Vec<u8>, NoMemory> {
    let mut bytes = Vec::new(alloc);
    for sector in 0..SECTORS {
        add_sector(&mut bytes, sector)?;
    }
    Ok(bytes)
}

/// Puts these bytes in place of those that begin at a place.
pub(crate) fn replace(bytes: &mut Vec<u8>, place: usize, new: &[u8]) {
    for (old, new) in bytes.iter_mut().skip(place).zip(new) {
        *old = *new;
    }
}

/// Checks that the flat file of this medium is this one, byte for byte.
pub(crate) fn must_give(alloc: Global, medium: &Medium, flat: &[u8]) -> Result<(), Trouble> {
    let bytes = flat_file(alloc, medium)?;
    must(bytes.as_slice() == flat)
}
