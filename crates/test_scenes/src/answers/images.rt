// Files of media: images, ImageDisk files and flat files.
use super::print::put_bytes;
use super::{FileBytes, media, medium_of};
use flat_files::blank_flat;
use flop_base::Rate;
use floppy_jobs::is_verb;
use imagedisk::read_imd;
use raw_image::{ImageError, ImageReader, Medium, read_image, write_image};
use sector_map::flat::{check, place};
use std::alloc::Global;
use test_files::{Draft, LineWords, Wrong};

pub(crate) fn answer(
    verb: &[u8],
    asked: FileBytes,
    line: &mut LineWords,
    out: &mut Draft,
) -> Result<(), Wrong> {
    if is_verb(verb, "image") {
        image(asked, out)
    } else if is_verb(verb, "stored") {
        stored(asked, out)
    } else if is_verb(verb, "stored-with") {
        stored_with(asked, line, out)
    } else if is_verb(verb, "prefixes") {
        prefixes(asked, line, out)
    } else if is_verb(verb, "flat") {
        flat(asked, out)
    } else if is_verb(verb, "blank-flat") {
        blank(asked, line, out)
    } else if is_verb(verb, "flat-place") {
        flat_place(line, out)
    } else {
        media::answer(verb, asked, line, out)
    }
}

/// `image`: what an image says of its medium
fn image(asked: FileBytes, out: &mut Draft) -> Result<(), Wrong> {
    match read_image(asked.alloc, asked.bytes) {
        Ok(medium) => put_medium(&medium, out),
        Err(error) => out.show_line(&error),
    }
    Ok(())
}

fn put_medium(medium: &Medium, out: &mut Draft) {
    let rate = match medium.rate() {
        Rate::R500 => 500,
        Rate::R250 => 250,
    };
    out.text(if medium.protected() {
        "protected"
    } else {
        "open"
    });
    let (cylinders, heads, words) = (medium.cylinders(), medium.heads(), medium.words());
    out.numbers(&[
        u64::from(cylinders),
        u64::from(heads),
        rate,
        u64::from(words),
    ]);
    out.line("");
}

/// `stored`: the file of the medium
fn stored(asked: FileBytes, out: &mut Draft) -> Result<(), Wrong> {
    let medium = medium_of(asked)?;
    put_bytes(out, &write_image(asked.alloc, &medium)?);
    Ok(())
}

/// `stored-with C H PLACE WORD`: the file of the medium with one word changed
fn stored_with(asked: FileBytes, line: &mut LineWords, out: &mut Draft) -> Result<(), Wrong> {
    let (c, h, place, word) = (line.byte(), line.byte(), line.short(), line.hex_word());
    let mut medium = medium_of(asked)?;
    if c >= medium.cylinders() || h >= medium.heads() || place >= medium.words() {
        return Err(Wrong::Line);
    }
    medium.set_word(c, h, place, word);
    put_bytes(out, &write_image(asked.alloc, &medium)?);
    Ok(())
}

/// What is wrong with a file that is fed to a reader byte by byte.
fn fed(alloc: Global, bytes: &[u8]) -> Option<ImageError> {
    let mut reader = ImageReader::new(alloc);
    for byte in bytes {
        let _ = reader.feed(&[*byte]);
    }
    reader.finish().err()
}

/// How a file is read.
#[derive(Clone, Copy)]
enum FileKind {
    Image,
    /// An image, byte by byte.
    Bytes,
    Imd,
}

fn kind_asked(line: &mut LineWords) -> FileKind {
    let word = line.word().as_bytes();
    if is_verb(word, "image") {
        return FileKind::Image;
    }
    if is_verb(word, "bytes") {
        return FileKind::Bytes;
    }
    if !is_verb(word, "imd") {
        line.refuse();
    }
    FileKind::Imd
}

/// What is wrong with a file.
fn fault(alloc: Global, kind: FileKind, bytes: &[u8]) -> Option<ImageError> {
    match kind {
        FileKind::Image => read_image(alloc, bytes).err(),
        FileKind::Bytes => fed(alloc, bytes),
        FileKind::Imd => read_imd(alloc, bytes).err(),
    }
}

/// What is wrong with the first `have` bytes. If the fault tells their number, 0 stands for it.
fn fault_of(asked: FileBytes, kind: FileKind, have: usize) -> Option<ImageError> {
    let prefix = asked.bytes.get(..have).unwrap_or(&[]);
    match fault(asked.alloc, kind, prefix) {
        Some(ImageError::TooShort { need, have: told }) => {
            let have = if told == have { 0 } else { told };
            Some(ImageError::TooShort { need, have })
        }
        other => other,
    }
}

/// `prefixes image`, `prefixes bytes` (fed one by one) and `prefixes imd`: what is wrong with the first 0, 1 and so on
/// bytes. It is printed once for prefixes that differ only in the length that is there.
fn prefixes(asked: FileBytes, line: &mut LineWords, out: &mut Draft) -> Result<(), Wrong> {
    let kind = kind_asked(line);
    let mut last = Some(ImageError::NoMemory);
    for have in 0..=asked.bytes.len() {
        let error = fault_of(asked, kind, have);
        if error != last {
            put_fault(out, have, error);
        }
        last = error;
    }
    Ok(())
}

fn put_fault(out: &mut Draft, have: usize, error: Option<ImageError>) {
    out.text("from");
    out.numbers(&[have as u64]);
    out.text(" on ");
    match error {
        Some(ImageError::TooShort { need, have: 0 }) => {
            out.text("too short,");
            out.numbers(&[need as u64]);
            out.line(" needed");
        }
        Some(error) => out.show_line(&error),
        None => out.line("whole"),
    }
}

/// `flat`: the sectors on a track of a flat file
fn flat(asked: FileBytes, out: &mut Draft) -> Result<(), Wrong> {
    match check(asked.bytes) {
        Ok(sectors) => out.show_line(&sectors),
        Err(error) => out.show_line(&error),
    }
    Ok(())
}

/// `blank-flat 9` and `blank-flat 18`: the bytes of an empty flat file
fn blank(asked: FileBytes, line: &mut LineWords, out: &mut Draft) -> Result<(), Wrong> {
    let sectors = line.byte();
    if sectors != 9 && sectors != 18 {
        return Err(Wrong::Line);
    }
    put_bytes(out, &blank_flat(asked.alloc, sectors)?);
    Ok(())
}

/// `flat-place SECTORS C H R`: where a sector of a flat file begins
fn flat_place(line: &mut LineWords, out: &mut Draft) -> Result<(), Wrong> {
    let (sectors, c, h, r) = (line.byte(), line.byte(), line.byte(), line.byte());
    if (sectors != 9 && sectors != 18) || c >= 80 || h >= 2 || r < 1 || r > sectors {
        return Err(Wrong::Line);
    }
    out.show_line(&place(sectors, c, h, r));
    Ok(())
}
