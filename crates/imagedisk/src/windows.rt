// The words that are put in place of a data field.
ghost use Rattle.std.specs.Prelude.{◌≡◌, ◌++◌, ◌≤◌, OnOk, IfOk, length};
ghost use Rattle.track_model.specs.Bytes.{legal};
ghost use Rattle.imagedisk.specs.Common.{window_words, damaged_window};
ghost use Rattle.imagedisk.specs.Images.{IsImdSector};
ghost use Rattle.imagedisk.specs.Made.{sector_window};

use crate::{ImdKind, ImdSector};
use flop_base::{NoMemory, sector_size};
use sector_map::{field_crc, field_words};
use std::alloc::Global;
use track_model::encode_byte;

/// The words of a window besides its content.
const WINDOW_WORDS: usize = 18;

/// The byte 4E as it is recorded after a bit 0.
const GAP_WORD: u16 = 0x9254;

/// A byte A1 with one clock cell lost.
const MARK: u16 = 0x4489;

/// Adds the cells of the bytes. `last` is the bit in front of them.
fn push_cells(words: &mut Vec<u16>, last: bool, bytes: &[u8]) -> Result<(), NoMemory>
    ensures { OnOk result (words.new.items ≡ words.old.items ++ legal last bytes.now) }
{
    let mut after = last;
    for byte in bytes {
        words.push(encode_byte(after, *byte))?;
        after = byte % 2 == 1;
    }
    Ok(())
}

/// A data field as `field_words` makes it, but with a CRC whose last bit is wrong.
fn damaged_words(alloc: Global, deleted: bool, content: &[u8]) -> Result<Vec<u16>, NoMemory>
    ensures { IfOk result (λ words. words.items ≡ damaged_window deleted content.now) }
{
    let mut bytes = Vec::from_slice(alloc, &[0xA1, 0xA1, 0xA1])?;
    bytes.push(if deleted { 0xF8 } else { 0xFB })?;
    bytes.extend_from_slice(content)?;
    let check = field_crc(&bytes) ^ 1;
    bytes.extend_from_slice(&check.to_be_bytes())?;
    let mut words = Vec::with_capacity(alloc, WINDOW_WORDS + content.len())?;
    push_cells(&mut words, false, &[0; 12])?;
    words.extend_from_slice(&[MARK; 3])?;
    push_cells(&mut words, true, &bytes[3..])?;
    Ok(words)
}

/// The words that are written for the data of a sector.
pub(crate) fn sector_window(alloc: Global, n: u8, sector: &ImdSector) -> Result<Vec<u16>, NoMemory>
    requires at_least { 1 ≤ n }
    requires at_most { n ≤ 6 }
    ensures { IfOk result (λ words. words.items ≡ sector_window n sector.now) }
{
    let content = sector.content.as_slice();
    match sector.kind {
        ImdKind::Absent => Ok(vec![in alloc; GAP_WORD; WINDOW_WORDS + sector_size(n)]?),
        ImdKind::Good => field_words(alloc, false, content),
        ImdKind::Deleted => field_words(alloc, true, content),
        ImdKind::Bad => damaged_words(alloc, false, content),
        ImdKind::BadDeleted => damaged_words(alloc, true, content),
    }
}
