// What is found on the first track of an image, and on its disk.
ghost use Rattle.std.specs.Prelude.{IfOk};
ghost use Rattle.track_model.specs.Cells.{IsTrackSized};
ghost use Rattle.track_model.specs.Fields.{IsSizeCode};

use super::print::{Runs, put_key, put_words};
use super::{FileBytes, key, medium_of, turns};
use flop_base::Chrn;
use floppy_jobs::is_verb;
use sector_map::{
    Look, content_byte, failing, field_words, find_sector, is_regular, is_regular_disk,
    list_fields, place_window,
};
use test_files::{Draft, LineWords, Wrong};

pub(crate) fn answer(
    verb: &[u8],
    asked: FileBytes,
    line: &mut LineWords,
    out: &mut Draft,
) -> Result<(), Wrong> {
    if is_verb(verb, "look") {
        look(asked, line, out)
    } else if is_verb(verb, "fields") {
        fields(asked, out)
    } else if is_verb(verb, "content") {
        content(asked, line, out)
    } else if is_verb(verb, "words") {
        words(asked, line, out)
    } else if is_verb(verb, "regular") {
        regular(asked, line, out)
    } else if is_verb(verb, "torn") {
        torn(asked, line, out)
    } else if is_verb(verb, "failing") {
        failing_keys(asked, out)
    } else {
        turns::answer(verb, asked, line, out)
    }
}

/// The key that four words spell, if its size code is that of a sector.
pub(crate) fn sized_key(line: &mut LineWords) -> Result<Chrn, Wrong>
    ensures { IfOk result (λ key. IsSizeCode key.n) }
{
    let key = key(line);
    if (1..=6).contains(&key.n) {
        Ok(key)
    } else {
        Err(Wrong::Line)
    }
}

/// The words of the first track.
pub(crate) fn first_track(asked: FileBytes) -> Result<Vec<u16>, Wrong>
    ensures { IfOk result (λ track. IsTrackSized track.items) }
{
    let track = track_words(asked)?;
    if track.len() < 64 || track.len() > 16_384 {
        return Err(Wrong::Line);
    }
    Ok(track)
}

fn track_words(asked: FileBytes) -> Result<Vec<u16>, Wrong> {
    let medium = medium_of(asked)?;
    match medium.track(0, 0) {
        Some(words) => Ok(words.to_vec(asked.alloc)?),
        None => Err(Wrong::Line),
    }
}

/// What a look for a key gives, in words.
fn put_look(out: &mut Draft, look: Look) {
    match look {
        Look::Found { deleted, place } => {
            out.text(if deleted { "deleted at" } else { "data at" });
            out.numbers(&[place as u64]);
            out.line("");
        }
        Look::NoMark => out.line("no mark"),
        Look::NoSector => out.line("no sector"),
        Look::NoData => out.line("no data"),
        Look::BadCrc => out.line("bad check"),
    }
}

/// `look C H R N`: what the look for a key gives
fn look(asked: FileBytes, line: &mut LineWords, out: &mut Draft) -> Result<(), Wrong> {
    let key = sized_key(line)?;
    let track = first_track(asked)?;
    put_look(out, find_sector(&track, key));
    Ok(())
}

fn put_place(out: &mut Draft, key: Chrn, place: usize) {
    put_key(out, key);
    out.text(" at");
    out.numbers(&[place as u64]);
    out.line("");
}

/// `fields`: the place and the key of each address field
fn fields(asked: FileBytes, out: &mut Draft) -> Result<(), Wrong> {
    let track = first_track(asked)?;
    for field in &list_fields(asked.alloc, &track)? {
        put_place(out, field.key, field.place);
    }
    Ok(())
}

/// `content CELL COUNT`: so many bytes from a cell on
fn content(asked: FileBytes, line: &mut LineWords, out: &mut Draft) -> Result<(), Wrong> {
    let (place, length) = (line.count(), line.count());
    let track = first_track(asked)?;
    if place > 262_144 || length > 8_192 || place + 16 * length > 16 * track.len() {
        return Err(Wrong::Line);
    }
    let mut runs = Runs::of_bytes();
    out.text("bytes");
    for i in 0..length {
        runs.add(u16::from(content_byte(&track, place, i)), out);
    }
    runs.end_line(out);
    Ok(())
}

/// `words FIRST COUNT`: some words of the track
fn words(asked: FileBytes, line: &mut LineWords, out: &mut Draft) -> Result<(), Wrong> {
    let (first, length) = (line.count(), line.count());
    let track = track_words(asked)?;
    let behind = track.as_slice().get(first..).unwrap_or(&[]);
    put_words(out, behind.get(..length).unwrap_or(behind));
    Ok(())
}

fn put_regular(out: &mut Draft, regular: bool) {
    out.line(if regular { "regular" } else { "not regular" });
}

/// `regular C H`: whether the track is regular
fn regular(asked: FileBytes, line: &mut LineWords, out: &mut Draft) -> Result<(), Wrong> {
    let (c, h) = (line.byte(), line.byte());
    let track = first_track(asked)?;
    put_regular(out, is_regular(&track, c, h));
    Ok(())
}

/// `torn CELL CUT C H R N`: the look for a key after a write that stopped. The write is of 512 bytes 00, marked
/// deleted, to the address field at CELL, and it stopped after CUT words.
fn torn(asked: FileBytes, line: &mut LineWords, out: &mut Draft) -> Result<(), Wrong> {
    let (place, cut) = (line.count(), line.count());
    let key = sized_key(line)?;
    let track = torn_track(asked, place, cut)?;
    put_look(out, find_sector(&track, key));
    put_regular(out, is_regular(&track, key.c, key.h));
    Ok(())
}

/// The track after that write.
fn torn_track(asked: FileBytes, place: usize, cut: usize) -> Result<Vec<u16>, Wrong>
    ensures { IfOk result (λ track. IsTrackSized track.items) }
{
    let mut track = track_words(asked)?;
    let window = field_words(asked.alloc, true, &[0; 512])?;
    let room = track.len();
    if room < 64 || room > 16_384 || cut > window.len() {
        return Err(Wrong::Line);
    }
    if place > 262_144 || place / 16 + 64 + cut > room {
        return Err(Wrong::Line);
    }
    place_window(track.as_mut_slice(), place, &window, cut);
    Ok(track)
}

/// `failing`: whether each track is regular, and the keys of the standard format that aren't found
fn failing_keys(asked: FileBytes, out: &mut Draft) -> Result<(), Wrong> {
    let medium = medium_of(asked)?;
    put_regular(out, is_regular_disk(&medium));
    for (key, look) in &failing(asked.alloc, &medium)? {
        put_key(out, *key);
        out.text(" ");
        put_look(out, *look);
    }
    Ok(())
}
