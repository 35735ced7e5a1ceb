// The records that a rescue asks for, which record follows each read, and how an attempt is prepared.
use super::print::put_key;
use super::{FileBytes, chips, key, rate};
use flop_base::{Chrn, Code};
use floppy_driver::{Prepare, START_TRIES, preparation};
use floppy_jobs::is_verb;
use rescue::{AfterRead, after_read, logged_keys, read_log, read_request, standard_keys};
use test_files::{Draft, LineWords, Wrong};

pub(crate) fn answer(
    verb: &[u8],
    asked: FileBytes,
    line: &mut LineWords,
    out: &mut Draft,
) -> Result<(), Wrong> {
    if is_verb(verb, "records") {
        records(asked, line, out)
    } else if is_verb(verb, "logged-records") {
        logged(asked, out)
    } else if is_verb(verb, "read-record") {
        out.show_line(&read_request(key(line)));
        Ok(())
    } else if is_verb(verb, "after-read") {
        after(line, out)
    } else if is_verb(verb, "start-tries") {
        out.show_line(&START_TRIES);
        Ok(())
    } else if is_verb(verb, "attempt") {
        attempt(line, out)
    } else {
        chips::answer(verb, asked, line, out)
    }
}

fn put_keys(out: &mut Draft, keys: &[Chrn]) {
    for key in keys {
        put_key(out, *key);
        out.line("");
    }
}

/// `records RATE CYLINDERS HEADS`: the records of a whole diskette
fn records(asked: FileBytes, line: &mut LineWords, out: &mut Draft) -> Result<(), Wrong> {
    let (rate, cylinders, heads) = (rate(line), line.byte(), line.byte());
    put_keys(out, &standard_keys(asked.alloc, rate, cylinders, heads)?);
    Ok(())
}

/// `logged-records`: the records of a log of a diskette with 18 sectors on a track
fn logged(asked: FileBytes, out: &mut Draft) -> Result<(), Wrong> {
    let Ok(lines) = read_log(asked.alloc, asked.bytes, 18) else {
        return Err(Wrong::Line);
    };
    put_keys(out, &logged_keys(asked.alloc, &lines)?);
    Ok(())
}

/// What a read came to: `data`, `deleted`, or a refusal.
fn read_of(line: &mut LineWords) -> Result<bool, Code> {
    let word = line.word().as_bytes();
    if is_verb(word, "data") {
        return Ok(false);
    }
    if is_verb(word, "deleted") {
        return Ok(true);
    }
    if is_verb(word, "04") {
        return Err(Code::NotFound);
    }
    if is_verb(word, "06") {
        return Err(Code::Changed);
    }
    if !is_verb(word, "10") {
        line.refuse();
    }
    Err(Code::BadCrc)
}

/// `after-read READ C H R N`
fn after(line: &mut LineWords, out: &mut Draft) -> Result<(), Wrong> {
    let read = read_of(line);
    match after_read(key(line), read) {
        AfterRead::Write(request) => out.show_line(&request),
        AfterRead::Log(logged) => {
            out.text("log ");
            out.show_line(&logged);
        }
        AfterRead::Stop(code) => {
            out.text("stop ");
            out.hex_byte(code.number());
            out.line("");
        }
    }
    Ok(())
}

/// `attempt TRIES ATTEMPT known` and `attempt TRIES ATTEMPT unknown`: how an attempt is prepared
fn attempt(line: &mut LineWords, out: &mut Draft) -> Result<(), Wrong> {
    let (tries, attempt, known) = (line.byte(), line.byte(), line.is("known"));
    if tries < 1 || tries > 10 || attempt < 1 || attempt > tries {
        return Err(Wrong::Line);
    }
    match preparation(tries, attempt, known) {
        Prepare::Seek => out.line("seek"),
        Prepare::RecalibrateAndSeek => out.line("recalibrate and seek"),
    }
    Ok(())
}
