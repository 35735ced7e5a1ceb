// Formatted tracks, as words of their own.
use super::print::Runs;
use super::{FileBytes, images, rate};
use flop_base::Chrn;
use floppy_jobs::is_verb;
use std::alloc::Global;
use test_files::{Draft, LineWords, Wrong};
use track_format::{FormatStream, LayoutError, choose_gap, layout};

pub(crate) fn answer(
    verb: &[u8],
    asked: FileBytes,
    line: &mut LineWords,
    out: &mut Draft,
) -> Result<(), Wrong> {
    if is_verb(verb, "layout") {
        laid(asked, line, out)
    } else if is_verb(verb, "stream") {
        stream(asked, line, out)
    } else if is_verb(verb, "gap") {
        gap(line, out)
    } else {
        images::answer(verb, asked, line, out)
    }
}

/// The keys of the first track of a disk with `sectors` sectors of 512 bytes a track.
fn first_keys(alloc: Global, sectors: u8) -> Result<Vec<Chrn>, Wrong> {
    let mut keys = Vec::new(alloc);
    for i in 0..sectors {
        let r = i.wrapping_add(1);
        keys.push(Chrn {
            c: 0,
            h: 0,
            r,
            n: 2,
        })?;
    }
    Ok(keys)
}

/// `layout SECTORS GAP3 FILL WORDS`: how many words a layout of sectors of 512 bytes has, if it fits
fn laid(asked: FileBytes, line: &mut LineWords, out: &mut Draft) -> Result<(), Wrong> {
    let keys = first_keys(asked.alloc, line.byte())?;
    let (gap3, fill, words) = (line.byte(), line.byte(), line.count());
    match layout(asked.alloc, &keys, 2, gap3, fill, words) {
        Ok(track) => {
            out.number(track.len() as u64);
            out.line(" words");
        }
        Err(LayoutError::NoMemory) => return Err(Wrong::NoMemory),
        Err(error) => out.show_line(&error),
    }
    Ok(())
}

/// `stream SECTORS GAP3 FILL WORDS`: a layout word by word; its key bytes are those of the file, when they are asked
/// for
fn stream(asked: FileBytes, line: &mut LineWords, out: &mut Draft) -> Result<(), Wrong> {
    let (sectors, gap3, fill) = (line.byte(), line.byte(), line.byte());
    let mut stream = FormatStream::new(2, sectors, gap3, fill);
    let mut keys = asked.bytes.iter();
    let mut runs = Runs::of_words();
    out.text("words");
    let mut was_whole = false;
    for _ in 0..line.count() {
        if stream.is_whole() && !was_whole {
            runs.end(out);
            out.text(" whole");
            was_whole = true;
        }
        let mut value = 0;
        if stream.needs_byte() {
            runs.end(out);
            out.text(" key");
            value = keys.next().copied().unwrap_or(0);
        }
        runs.add(stream.next(value), out);
    }
    runs.end_line(out);
    Ok(())
}

/// `gap N SECTORS 500 LEAST` and `gap N SECTORS 250 LEAST`: the largest gap 3 of such a track, from LEAST on
fn gap(line: &mut LineWords, out: &mut Draft) -> Result<(), Wrong> {
    let (n, sectors, rate, least) = (line.byte(), line.byte(), rate(line), line.byte());
    if n < 1 || n > 6 {
        return Err(Wrong::Line);
    }
    match choose_gap(n, sectors, rate, least) {
        Some(gap) => {
            out.text("gap");
            out.numbers(&[u64::from(gap)]);
            out.line("");
        }
        None => out.line("no gap"),
    }
    Ok(())
}
