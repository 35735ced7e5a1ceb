// Bytes as the cells of an MFM track, and back.
//
// A bit is a clock cell and a data cell. The data cell is the bit; the clock cell is 1 exactly where the bit and the
// bit before it are both 0. Bits go most significant first, so a byte is a word of sixteen cells, the first cell in
// bit 15 (IBM System 34, "Modified Frequency Modulation").
ghost use Rattle.std.specs.Prelude.{◌≡◌, ◌+◌, [], ◌∷◌};
ghost use Rattle.track_model.specs.Cells.{cells_at, IsInside};
ghost use Rattle.track_model.specs.Bytes.{byte_at, legal};

use crate::tables::{CELLS, DATA_CELLS};

/// The sixteen cells of `byte` after a bit `last`, the first in bit 15.
pub fn encode_byte(last: bool, byte: u8) -> u16
    ensures { result ∷ [] ≡ legal last (byte ∷ []) }
{
    let cells = CELLS[byte as usize];
    // Only the first clock depends on the bit before.
    if last { cells & 0x7FFF } else { cells }
}

/// The byte whose cells are `word`. Clock cells are ignored.
pub fn decode_word(word: u16) -> u8
    ensures { result ≡ byte_at (word ∷ []) 0 }
{
    let high = DATA_CELLS[(word >> 8) as usize];
    let low = DATA_CELLS[(word & 0xFF) as usize];
    high << 4 | low
}

/// The sixteen cells from cell `p` on, at any phase, the first in bit 15.
pub fn cells16(words: &[u16], p: usize) -> u16
    requires { IsInside words.now p 16 }
    ensures { result ≡ cells_at words.now p }
{
    let first = words[p / 16];
    let phase = p % 16;
    if phase == 0 {
        return first;
    }
    let pair = u32::from(first) << 16 | u32::from(words[p / 16 + 1]);
    (pair >> (16 - phase) & 0xFFFF) as u16
}
