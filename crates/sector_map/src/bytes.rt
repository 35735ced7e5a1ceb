// Bytes of a track that begin at any cell, and their CRC.
ghost use Rattle.std.specs.Prelude.{◌≡◌, ◌+◌, ◌*◌, ◌↔◌, IsTrue};
ghost use Rattle.sector_map.specs.Common.{IsTrackSized, IsInside, byte_at, bytes_at, crc, HasCheck, after_marks};

use track_model::{MARKS_CRC, cells16, crc_step, decode_word};

/// The byte whose first cell is `p`.
pub(crate) fn byte_at_cell(words: &[u16], p: usize) -> u8
    requires { IsInside words.now p 16 }
    ensures { result ≡ byte_at words.now p }
{
    decode_word(cells16(words, p))
}

/// Byte `i`, counted from 0, of the content that begins at cell `place`. The cells may begin at any phase.
pub fn content_byte(words: &[u16], place: usize, i: usize) -> u8
    requires sized { IsTrackSized words.now }
    requires inside { IsInside words.now (place + 16 * i) 16 }
    ensures { result ≡ byte_at words.now (place + 16 * i) }
{
    byte_at_cell(words, place + 16 * i)
}

/// The CRC over the three A1 and the `count` bytes from cell `p` on.
fn check_over(words: &[u16], p: usize, count: usize) -> u16
    requires sized { IsTrackSized words.now }
    requires inside { IsInside words.now p (16 * count) }
    ensures { result ≡ crc (after_marks (bytes_at words.now p count)) }
{
    let mut check = MARKS_CRC;
    for i in 0..count {
        check = crc_step(check, byte_at_cell(words, p + 16 * i));
    }
    check
}

/// Whether the `count` bytes from cell `p` on are followed by their CRC, high byte first.
pub(crate) fn is_checked(words: &[u16], p: usize, count: usize) -> bool
    requires sized { IsTrackSized words.now }
    requires inside { IsInside words.now p (16 * count + 32) }
    ensures { IsTrue result
        ↔ HasCheck words.now (p + 16 * count) (after_marks (bytes_at words.now p count)) }
{
    let end = p + 16 * count;
    let high = byte_at_cell(words, end);
    let low = byte_at_cell(words, end + 16);
    256 * u16::from(high) + u16::from(low) == check_over(words, p, count)
}
