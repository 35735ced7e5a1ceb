// Cells and CRCs of bytes, and the words of fields.
use super::print::{Runs, put_words};
use super::{FileBytes, key, tracks, words_of};
use floppy_jobs::is_verb;
use sector_map::{address_words, field_crc, field_words};
use test_files::{Draft, LineWords, Wrong};
use track_model::{cells16, decode_word, encode_byte};

pub(crate) fn answer(
    verb: &[u8],
    asked: FileBytes,
    line: &mut LineWords,
    out: &mut Draft,
) -> Result<(), Wrong> {
    if is_verb(verb, "check") {
        check(asked, out)
    } else if is_verb(verb, "cells") {
        cells(asked, out)
    } else if is_verb(verb, "decoded") {
        decoded(asked, out)
    } else if is_verb(verb, "sixteen") {
        sixteen(asked, line, out)
    } else if is_verb(verb, "address") {
        address(asked, line, out)
    } else if is_verb(verb, "field") {
        field(asked, line, out)
    } else {
        tracks::answer(verb, asked, line, out)
    }
}

/// `check`: the CRC of two bytes or more
fn check(asked: FileBytes, out: &mut Draft) -> Result<(), Wrong> {
    if asked.bytes.len() < 2 {
        return Err(Wrong::Line);
    }
    out.text("check ");
    out.hex_word(field_crc(asked.bytes));
    out.line("");
    Ok(())
}

/// `cells`: the cells of the bytes, after a bit 0
fn cells(asked: FileBytes, out: &mut Draft) -> Result<(), Wrong> {
    let mut last = false;
    let mut runs = Runs::of_words();
    out.text("words");
    for byte in asked.bytes {
        runs.add(encode_byte(last, *byte), out);
        last = *byte & 1 == 1;
    }
    runs.end_line(out);
    Ok(())
}

/// `decoded`: the byte of each word
fn decoded(asked: FileBytes, out: &mut Draft) -> Result<(), Wrong> {
    let mut runs = Runs::of_bytes();
    out.text("bytes");
    for word in &words_of(asked.alloc, asked.bytes)? {
        runs.add(u16::from(decode_word(*word)), out);
    }
    runs.end_line(out);
    Ok(())
}

/// `sixteen CELL`: the sixteen cells of the words from a cell on
fn sixteen(asked: FileBytes, line: &mut LineWords, out: &mut Draft) -> Result<(), Wrong> {
    let cell = line.count();
    let words = words_of(asked.alloc, asked.bytes)?;
    if words.len() > 16_384 || cell > 262_144 || cell + 16 > 16 * words.len() {
        return Err(Wrong::Line);
    }
    put_words(out, &[cells16(&words, cell)]);
    Ok(())
}

/// `address C H R N`: the words of an address field
fn address(asked: FileBytes, line: &mut LineWords, out: &mut Draft) -> Result<(), Wrong> {
    put_words(out, &address_words(asked.alloc, key(line))?);
    Ok(())
}

/// `field data` and `field deleted`: the words that a write of these bytes records
fn field(asked: FileBytes, line: &mut LineWords, out: &mut Draft) -> Result<(), Wrong> {
    let deleted = line.is("deleted");
    put_words(out, &field_words(asked.alloc, deleted, asked.bytes)?);
    Ok(())
}
