// Pure functions of the bytes of the last file: `of VERB ARGUMENT..`.
mod bench;
mod cells;
mod chips;
mod images;
mod layouts;
mod media;
mod parts;
mod print;
mod records;
mod services;
mod texts;
mod tracks;
mod turns;

use flop_base::{Chrn, Rate};
use floppy_jobs::is_verb;
use raw_image::{ImageError, Medium, read_image};
use std::alloc::Global;
use test_files::{Draft, LineWords, Wrong};

/// The bytes of a file.
#[derive(Clone, Copy)]
pub(crate) struct FileBytes<'a> {
    pub alloc: Global,
    pub bytes: &'a [u8],
}

/// Prints what a function gives for these bytes. Each module passes a verb that it doesn't know on to the next module.
pub(crate) fn answer(asked: FileBytes, line: &mut LineWords, out: &mut Draft) -> Result<(), Wrong> {
    let verb = line.word().as_bytes();
    cells::answer(verb, asked, line, out)
}

/// The key that the words `C H R N` spell.
fn key(line: &mut LineWords) -> Chrn {
    Chrn {
        c: line.byte(),
        h: line.byte(),
        r: line.byte(),
        n: line.byte(),
    }
}

/// The data rate that a word gives in kbit/s.
fn rate(line: &mut LineWords) -> Rate {
    let word = line.word().as_bytes();
    if is_verb(word, "500") {
        return Rate::R500;
    }
    if !is_verb(word, "250") {
        line.refuse();
    }
    Rate::R250
}

/// The words that the bytes make, with the high byte of each word first.
fn words_of(alloc: Global, bytes: &[u8]) -> Result<Vec<u16>, Wrong> {
    let mut words = Vec::new(alloc);
    for pair in bytes.chunks(2) {
        match pair {
            [high, low] => words.push(u16::from_be_bytes([*high, *low]))?,
            _ => return Err(Wrong::Line),
        }
    }
    Ok(words)
}

/// The medium of an image.
fn medium_of(asked: FileBytes) -> Result<Medium, Wrong> {
    match read_image(asked.alloc, asked.bytes) {
        Ok(medium) => Ok(medium),
        Err(ImageError::NoMemory) => Err(Wrong::NoMemory),
        Err(_) => Err(Wrong::Line),
    }
}
