// Parts of the machine alone, call by call: the FIFO, the interrupt latch and the gate of a changed diskette.
use super::{FileBytes, services};
use fdc_registers::Fifo;
use floppy_driver::Gate;
use floppy_jobs::is_verb;
use irq_events::IrqLatch;
use test_files::{Draft, LineWords, Wrong, words_in};

pub(crate) fn answer(
    verb: &[u8],
    asked: FileBytes,
    line: &mut LineWords,
    out: &mut Draft,
) -> Result<(), Wrong> {
    if is_verb(verb, "parts") {
        calls(asked, out)
    } else {
        services::answer(verb, asked, line, out)
    }
}

/// The parts, each as it begins.
#[derive(Drop)]
struct Parts {
    fifo: Fifo,
    latch: IrqLatch,
    gate: Gate,
}

/// `parts`: what the lines of the file do to the parts, each as it begins: `fifo CALL`, `latch CALL` and `gate CALL`
fn calls(asked: FileBytes, out: &mut Draft) -> Result<(), Wrong> {
    let Ok(text) = std::str::from_utf8(asked.bytes) else {
        return Err(Wrong::Line);
    };
    let mut parts = Parts {
        fifo: Fifo::new(asked.alloc)?,
        latch: IrqLatch::new(),
        gate: Gate::new(),
    };
    for call in text.lines() {
        parts.line(asked, call, out)?;
    }
    Ok(())
}

fn put_answer(out: &mut Draft, is_so: bool) {
    out.line(if is_so { " yes" } else { " no" });
}

impl Parts {
    fn line(&mut self, asked: FileBytes, call: &str, out: &mut Draft) -> Result<(), Wrong> {
        let words = words_in(asked.alloc, call)?;
        let mut line = LineWords::of(&words);
        out.text(call);
        self.call(&mut line, out);
        line.end()
    }

    fn call(&mut self, line: &mut LineWords, out: &mut Draft) {
        let part = line.word().as_bytes();
        let verb = line.word().as_bytes();
        if is_verb(part, "fifo") {
            serve_fifo(&mut self.fifo, verb, line, out);
        } else if is_verb(part, "latch") {
            serve_latch(&mut self.latch, verb, line, out);
        } else if is_verb(part, "gate") {
            serve_gate(&mut self.gate, verb, line, out);
        } else {
            line.refuse();
        }
    }
}

/// `on THRESHOLD`, `push BYTE`, `pop`, `len`, `empty` and `clear`. `to-memory` and `from-memory` print whether the FIFO
/// wants a transfer.
fn serve_fifo(fifo: &mut Fifo, verb: &[u8], line: &mut LineWords, out: &mut Draft) {
    if is_verb(verb, "on") {
        turn_on(fifo, line);
        out.line("");
    } else if is_verb(verb, "push") {
        put_answer(out, fifo.push(line.byte()).is_ok());
    } else if is_verb(verb, "pop") {
        put_popped(out, fifo.pop());
    } else if is_verb(verb, "len") {
        out.numbers(&[fifo.len() as u64]);
        out.line("");
    } else if is_verb(verb, "empty") {
        put_answer(out, fifo.is_empty());
    } else if is_verb(verb, "clear") {
        fifo.clear();
        out.line("");
    } else if is_verb(verb, "to-memory") {
        put_answer(out, fifo.wants(true, false, false));
    } else if is_verb(verb, "from-memory") {
        put_answer(out, fifo.wants(false, true, false));
    } else {
        line.refuse();
    }
}

fn turn_on(fifo: &mut Fifo, line: &mut LineWords) {
    let threshold = line.byte();
    if threshold < 1 || threshold > 16 {
        line.refuse();
    } else {
        fifo.set(true, threshold);
    }
}

fn put_popped(out: &mut Draft, byte: Option<u8>) {
    match byte {
        Some(byte) => {
            out.numbers(&[u64::from(byte)]);
            out.line("");
        }
        None => out.line(" none"),
    }
}

/// `high`, `low`, `stray` (a spurious interrupt), `set` and `take`
fn serve_latch(latch: &mut IrqLatch, verb: &[u8], line: &mut LineWords, out: &mut Draft) {
    if is_verb(verb, "set") {
        put_answer(out, latch.is_set());
    } else if is_verb(verb, "take") {
        put_answer(out, latch.take());
    } else {
        if is_verb(verb, "high") {
            latch.line(true);
        } else if is_verb(verb, "low") {
            latch.line(false);
        } else if is_verb(verb, "stray") {
            latch.stray();
        } else {
            line.refuse();
        }
        out.line("");
    }
}

/// `begins`, `changed`, `unchanged` and `acknowledge`. Each prints whether the medium is acknowledged after it.
fn serve_gate(gate: &mut Gate, verb: &[u8], line: &mut LineWords, out: &mut Draft) {
    if is_verb(verb, "changed") {
        gate.see(true);
    } else if is_verb(verb, "unchanged") {
        gate.see(false);
    } else if is_verb(verb, "acknowledge") {
        gate.acknowledge();
    } else if !is_verb(verb, "begins") {
        line.refuse();
    }
    put_answer(out, gate.is_acknowledged());
}
