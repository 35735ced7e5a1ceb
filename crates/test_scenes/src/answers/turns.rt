// Revolutions of the first track of an image, word by word through a separator.
use super::print::{Runs, put_bytes_of, put_key};
use super::tracks::{first_track, sized_key};
use super::{FileBytes, layouts};
use flop_base::sector_size;
use floppy_jobs::is_verb;
use sector_map::{Seen, Separator, TurnRead, read_turn};
use std::alloc::Global;
use test_files::{Draft, LineWords, Wrong};

pub(crate) fn answer(
    verb: &[u8],
    asked: FileBytes,
    line: &mut LineWords,
    out: &mut Draft,
) -> Result<(), Wrong> {
    if is_verb(verb, "turns") {
        turns(asked, line, out)
    } else if is_verb(verb, "starts") {
        starts(asked, line, out)
    } else if is_verb(verb, "turn") {
        turn(asked, line, out)
    } else {
        layouts::answer(verb, asked, line, out)
    }
}

/// Asks for the data field behind an address field, if its size code is that of a sector.
fn want(separator: &mut Separator, seen: Seen) {
    if let Seen::Address { key } = seen {
        if key.n >= 1 && key.n <= 6 {
            separator.want(sector_size(key.n));
        }
    }
}

/// What a separator says: a word for each of the fields, and the bytes between them.
fn put_seen(seen: Seen, runs: &mut Runs, out: &mut Draft) {
    match seen {
        Seen::Nothing => {}
        Seen::Byte { value } => runs.add(u16::from(value), out),
        _ => {
            runs.end(out);
            put_word(seen, out);
        }
    }
}

fn put_word(seen: Seen, out: &mut Draft) {
    match seen {
        Seen::Mark => out.text(" mark"),
        Seen::Address { key } => {
            out.text(" address ");
            put_key(out, key);
        }
        Seen::Mode { deleted } => out.text(if deleted { " deleted" } else { " data" }),
        Seen::End { good } => out.text(if good { " good" } else { " bad" }),
        Seen::NoData => out.text(" none"),
        _ => {}
    }
}

/// Feeds a revolution of these words, and asks for the data of each address field.
fn feed(separator: &mut Separator, words: &[u16], out: &mut Draft) {
    out.text("turn");
    let mut runs = Runs::of_bytes();
    let mut left = words.len();
    for word in words {
        left = left.saturating_sub(1);
        let seen = separator.feed(*word, left == 0);
        want(separator, seen);
        put_seen(seen, &mut runs, out);
    }
    runs.end_line(out);
}

/// The number that a word spells.
fn count(word: &str) -> usize {
    let words = [word];
    LineWords::of(&words).count()
}

/// `turns COUNT..`: revolutions through one separator, each of the first COUNT words of the track
fn turns(asked: FileBytes, line: &mut LineWords, out: &mut Draft) -> Result<(), Wrong> {
    let track = first_track(asked)?;
    let mut separator = Separator::new();
    for word in line.words() {
        let turn = track.as_slice().get(..count(word));
        feed(&mut separator, turn.unwrap_or(&track), out);
    }
    Ok(())
}

/// What the second revolution gives if the first one began at word `start`.
fn second_turn(alloc: Global, track: &[u16], start: usize) -> Draft {
    let mut separator = Separator::new();
    let mut first = Draft::new(alloc);
    feed(
        &mut separator,
        track.get(start..).unwrap_or(&[]),
        &mut first,
    );
    let mut second = Draft::new(alloc);
    feed(&mut separator, track, &mut second);
    second
}

/// `starts COUNT`: what the second revolution gives if the first one began at words 0, 1 and so on, once for each
/// answer
fn starts(asked: FileBytes, line: &mut LineWords, out: &mut Draft) -> Result<(), Wrong> {
    let track = first_track(asked)?;
    let mut last = Draft::new(asked.alloc);
    for start in 0..line.count() {
        let told = second_turn(asked.alloc, &track, start);
        told.whole()?;
        if told.bytes() != last.bytes() {
            out.text("from");
            out.numbers(&[start as u64]);
            out.text(" on ");
            out.put(told.bytes());
        }
        last = told;
    }
    Ok(())
}

/// `turn C H R N`: a whole revolution that looks for one key
fn turn(asked: FileBytes, line: &mut LineWords, out: &mut Draft) -> Result<(), Wrong> {
    let key = sized_key(line)?;
    let track = first_track(asked)?;
    let mut content = vec![in asked.alloc; 0u8; sector_size(key.n)]?;
    let read = read_turn(&track, key, content.as_mut_slice());
    put_read(read, &content, out);
    Ok(())
}

fn put_read(read: TurnRead, content: &[u8], out: &mut Draft) {
    match read {
        TurnRead::Found { deleted } => {
            put_bytes_of(out, if deleted { "deleted" } else { "data" }, content);
        }
        TurnRead::NoMark => out.line("no mark"),
        TurnRead::NoSector => out.line("no sector"),
        TurnRead::NoData => out.line("no data"),
        TurnRead::BadCrc => out.line("bad check"),
    }
}
