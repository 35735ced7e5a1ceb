// A driver on its bench, call by call.
use super::{FileBytes, key, parts, rate};
use flop_base::{Chrn, Code, Rate};
use floppy_jobs::is_verb;
use raw_image::Medium;
use std::alloc::Global;
use test_driver::{Call, CommandTrouble, DrivenBench};
use test_files::{Draft, LineWords, Wrong, words_in};
use track_format::layout;

pub(crate) fn answer(
    verb: &[u8],
    asked: FileBytes,
    line: &mut LineWords,
    out: &mut Draft,
) -> Result<(), Wrong> {
    if is_verb(verb, "bench") {
        calls(asked, out)
    } else {
        parts::answer(verb, asked, line, out)
    }
}

/// `bench`: what the lines of the file do to a driver that was set up on a bench. Each line is printed, and then what
/// came of it.
fn calls(asked: FileBytes, out: &mut Draft) -> Result<(), Wrong> {
    let Ok(text) = std::str::from_utf8(asked.bytes) else {
        return Err(Wrong::Line);
    };
    let mut bench = DrivenBench::new(asked.alloc)?;
    serve_all(asked.alloc, &mut bench, text, out)
}

fn serve_all(
    alloc: Global,
    bench: &mut DrivenBench,
    text: &str,
    out: &mut Draft,
) -> Result<(), Wrong> {
    for call in text.lines() {
        serve(alloc, bench, call, out)?;
    }
    Ok(())
}

fn serve(alloc: Global, bench: &mut DrivenBench, call: &str, out: &mut Draft) -> Result<(), Wrong> {
    let words = words_in(alloc, call)?;
    let mut line = LineWords::of(&words);
    out.text(call);
    plan(alloc, bench, &mut line, out)?;
    line.end()
}

/// Lines that plan. With `insert BAY RATE` and `blank BAY`, a diskette comes in place of the one in a bay. With `plan
/// TROUBLE..`, the next data commands have these troubles. With `lose COUNT..`, the next movements of heads lose so
/// many pulses. Last, `tries COUNT` sets the number of attempts.
fn plan(
    alloc: Global,
    bench: &mut DrivenBench,
    line: &mut LineWords,
    out: &mut Draft,
) -> Result<(), Wrong> {
    let verb = line.word().as_bytes();
    if is_verb(verb, "insert") {
        let (bay, rate) = (line.byte(), rate(line));
        bench.exchange(bay, Some(small(alloc, rate)?));
    } else if is_verb(verb, "blank") {
        let bay = line.byte();
        bench.exchange(bay, Some(Medium::blank_at(alloc, 1, 2, 6250, Rate::R250)?));
    } else if is_verb(verb, "plan") {
        bench.plan(&troubles_of(alloc, line)?)?;
    } else if is_verb(verb, "lose") {
        bench.lose(&counts_of(alloc, line)?)?;
    } else if is_verb(verb, "tries") {
        set_tries(bench, line.byte(), line);
    } else {
        ask(bench, verb, line, out);
    }
    out.line("");
    Ok(())
}

/// A diskette of three cylinders and two heads with 900 words a track. Cylinders 0 and 1 have two sectors of 256 bytes
/// under each head. Their bytes are 11 and 22 on cylinder 0, and 33 and 44 on cylinder 1. Cylinder 2 is blank.
fn small(alloc: Global, rate: Rate) -> Result<Medium, Wrong> {
    let mut medium = Medium::blank_at(alloc, 3, 2, 900, rate)?;
    for (c, h, fill) in [(0, 0, 0x11), (0, 1, 0x22), (1, 0, 0x33), (1, 1, 0x44)] {
        lay(alloc, &mut medium, c, h, fill)?;
    }
    Ok(medium)
}

fn lay(alloc: Global, medium: &mut Medium, c: u8, h: u8, fill: u8) -> Result<(), Wrong> {
    let keys = [Chrn { c, h, r: 1, n: 1 }, Chrn { c, h, r: 2, n: 1 }];
    let Ok(track) = layout(alloc, &keys, 1, 16, fill, 900) else {
        return Err(Wrong::NoMemory);
    };
    put_track(medium, c, h, &track);
    Ok(())
}

fn put_track(medium: &mut Medium, c: u8, h: u8, track: &[u16]) {
    let mut place = 0u16;
    for word in track {
        if c < medium.cylinders() && h < medium.heads() && place < medium.words() {
            medium.set_word(c, h, place, *word);
        }
        place = place.saturating_add(1);
    }
}

fn troubles_of(alloc: Global, line: &mut LineWords) -> Result<Vec<CommandTrouble>, Wrong> {
    let mut troubles = Vec::new(alloc);
    for word in line.words() {
        troubles.push(trouble_of(word.as_bytes()))?;
    }
    Ok(troubles)
}

fn trouble_of(word: &[u8]) -> CommandTrouble {
    if is_verb(word, "unmarked") {
        CommandTrouble::Unmarked
    } else if is_verb(word, "damaged") {
        CommandTrouble::Damaged
    } else if is_verb(word, "stalled") {
        CommandTrouble::Stalled
    } else {
        CommandTrouble::Calm
    }
}

fn counts_of(alloc: Global, line: &mut LineWords) -> Result<Vec<u8>, Wrong> {
    let mut counts = Vec::new(alloc);
    for word in line.words() {
        let words = [*word];
        counts.push(LineWords::of(&words).byte())?;
    }
    Ok(counts)
}

fn set_tries(bench: &mut DrivenBench, tries: u8, line: &mut LineWords) {
    if tries < 1 || tries > 10 {
        line.refuse();
    } else {
        bench.set_tries(tries);
    }
}

/// `ack BAY`, `set-rate BAY RATE`, `read BAY C H R N ADDRESS`, `write BAY C H R N ADDRESS data|deleted` and
/// `format BAY C H GAP3 FILL`
fn ask(bench: &mut DrivenBench, verb: &[u8], line: &mut LineWords, out: &mut Draft) {
    if is_verb(verb, "ack") {
        put_done(out, bench.ack(line.byte()));
    } else if is_verb(verb, "set-rate") {
        put_done(out, bench.set_rate(line.byte(), rate(line)));
    } else if is_verb(verb, "read") {
        let (bay, key, address) = (line.byte(), key(line), line.long());
        put_read(out, bench.read(bay, key, address));
    } else if is_verb(verb, "write") {
        let (bay, key, address) = (line.byte(), key(line), line.long());
        put_done(out, bench.write(bay, key, address, line.is("deleted")));
    } else if is_verb(verb, "format") {
        let (bay, c, h) = (line.byte(), line.byte(), line.byte());
        put_done(out, bench.format(bay, c, h, line.byte(), line.byte()));
    } else {
        look(bench, verb, line, out);
    }
}

fn put_code(out: &mut Draft, code: Code) {
    out.text(" refused ");
    out.hex_byte(code.number());
}

fn put_done(out: &mut Draft, done: Result<(), Code>) {
    match done {
        Ok(()) => out.text(" ok"),
        Err(code) => put_code(out, code),
    }
}

fn put_read(out: &mut Draft, read: Result<bool, Code>) {
    match read {
        Ok(deleted) => out.text(if deleted { " deleted" } else { " data" }),
        Err(code) => put_code(out, code),
    }
}

/// `attempts`: how many attempts are made. `commands`: how many data commands came. `faults BAY`. `rate BAY`. `byte
/// ADDRESS`. `forget` forgets the calls. `calls` prints the calls since they were last forgotten or printed.
fn look(bench: &mut DrivenBench, verb: &[u8], line: &mut LineWords, out: &mut Draft) {
    if is_verb(verb, "attempts") {
        out.numbers(&[u64::from(bench.tries())]);
    } else if is_verb(verb, "commands") {
        out.numbers(&[bench.commands()]);
    } else if is_verb(verb, "faults") {
        put_faults(out, bench, line);
    } else if is_verb(verb, "rate") {
        put_rate(out, bench, line);
    } else if is_verb(verb, "byte") {
        put_memory(out, bench, line);
    } else if is_verb(verb, "forget") {
        bench.forget_calls();
    } else if is_verb(verb, "calls") {
        put_calls(out, bench.calls());
        bench.forget_calls();
    } else {
        line.refuse();
    }
}

fn put_faults(out: &mut Draft, bench: &DrivenBench, line: &mut LineWords) {
    let bay = line.byte();
    if bay > 1 {
        line.refuse();
    } else {
        out.numbers(&[bench.faults(bay)]);
    }
}

fn put_rate(out: &mut Draft, bench: &DrivenBench, line: &mut LineWords) {
    let bay = line.byte();
    if bay > 1 {
        line.refuse();
    } else {
        out.text(rate_told(bench.rate(bay)));
    }
}

fn rate_told(rate: Rate) -> &'static str {
    match rate {
        Rate::R500 => " 500",
        Rate::R250 => " 250",
    }
}

fn put_memory(out: &mut Draft, bench: &DrivenBench, line: &mut LineWords) {
    let address = line.long();
    if address < 0xF_0000 {
        out.text(" ");
        out.hex_byte(bench.memory(address));
    } else {
        line.refuse();
    }
}

fn put_calls(out: &mut Draft, calls: &[Call]) {
    for call in calls {
        put_call(out, *call);
    }
}

fn put_call(out: &mut Draft, call: Call) {
    match call {
        Call::Recalibrate => out.text(" recalibrate"),
        Call::Seek(cylinder) => {
            out.text(" seek");
            out.numbers(&[u64::from(cylinder)]);
        }
        Call::ReadId(rate) => {
            out.text(" id");
            out.text(rate_told(rate));
        }
        Call::Read => out.text(" read"),
        Call::ReadBack(record) => {
            out.text(" back");
            out.numbers(&[u64::from(record)]);
        }
        Call::Write => out.text(" write"),
        Call::Format => out.text(" format"),
    }
}
