// Fields as words to write.
ghost use Rattle.std.specs.Prelude.{◌≡◌, ◌+◌, ◌≤◌, ℕ, List, ◌∷◌, ◌++◌, length, take, IfOk};
ghost use Rattle.sector_map.specs.Common.{legal, crc, after_marks, sync_and_marks, address_field, window};

use flop_base::{Chrn, NoMemory};
use std::alloc::Global;
use track_model::{crc_step, encode_byte, field_crc, mark_crc};

/// The three marks A1 in a row.
const MARKS: [u16; 3] = [0x4489; 3];

/// Fills the words from `start` on with the cells of the bytes. `last` is the bit in front of them. Answers the last
/// bit.
fn fill_bytes(words: &mut [u16], start: usize, last: bool, bytes: &[u8]) -> bool
    requires { start + length bytes.now ≤ length words.old }
    ensures { (rest : List ℕ) → take (start + length bytes.now) words.new ++ legal result rest
        ≡ take start words.old ++ legal last (bytes.now ++ rest) }
{
    let mut after = last;
    for (i, byte) in bytes.iter().enumerate() {
        words[start + i] = encode_byte(after, *byte);
        after = byte % 2 == 1;
    }
    after
}

/// Fills the first words with sync and marks: twelve bytes 00 after a bit 0, and the three marks A1.
fn begin_field(words: &mut [u16])
    requires { 15 ≤ length words.old }
    ensures { take 15 words.new ≡ sync_and_marks }
{
    fill_bytes(words, 0, false, &[0; 12]);
    words[12..15].copy_from_slice(&MARKS);
}

/// Fills 22 words with an address field, from its sync to its CRC.
fn fill_address_words(words: &mut [u16], key: Chrn)
    requires { length words.old ≡ 22 }
    ensures { words.new ≡ address_field key }
{
    let check = field_crc(&[0xA1, 0xA1, 0xA1, 0xFE, key.c, key.h, key.r, key.n]).to_be_bytes();
    let field = [0xFE, key.c, key.h, key.r, key.n, check[0], check[1]];
    begin_field(words);
    fill_bytes(words, 15, true, &field);
}

/// The 22 words of an address field, from its sync to its CRC (IBM System 34), as recorded after a bit 0.
pub fn address_words(alloc: Global, key: Chrn) -> Result<Vec<u16>, NoMemory>
    ensures { IfOk result (λ words. words.items ≡ address_field key) }
{
    let mut words = vec![in alloc; 0; 22]?;
    fill_address_words(&mut words, key);
    Ok(words)
}

/// The CRC over the three A1, the mark byte and the content.
fn data_check(mark: u8, content: &[u8]) -> u16
    ensures { result ≡ crc (after_marks (mark ∷ content.now)) }
{
    let mut check = mark_crc(mark);
    for byte in content {
        check = crc_step(check, *byte);
    }
    check
}

/// Fills words with those that are written over a data field: sync, marks, mark byte, content and CRC. The mark byte is
/// FB, or F8 if the data is deleted. There are 18 words, and one more for each byte of the content.
pub fn fill_field_words(words: &mut [u16], deleted: bool, content: &[u8])
    requires { length words.old ≡ 18 + length content.now }
    ensures { words.new ≡ window deleted content.now }
{
    let mark = if deleted { 0xF8 } else { 0xFB };
    let check = data_check(mark, content).to_be_bytes();
    begin_field(words);
    let after_mark = fill_bytes(words, 15, true, &[mark]);
    let after_content = fill_bytes(words, 16, after_mark, content);
    fill_bytes(words, 16 + content.len(), after_content, &check);
}

/// The words that are written over a data field, as `fill_field_words` makes them.
pub fn field_words(alloc: Global, deleted: bool, content: &[u8]) -> Result<Vec<u16>, NoMemory>
    ensures { IfOk result (λ words. words.items ≡ window deleted content.now) }
{
    let mut words = vec![in alloc; 0; 18 + content.len()]?;
    fill_field_words(&mut words, deleted, content);
    Ok(words)
}
