// The core of INT 13h, call by call.
use super::FileBytes;
use bios_int13::{Int13, Kind, Regs, Work};
use floppy_jobs::is_verb;
use test_files::{Draft, LineWords, Wrong, words_in};

pub(crate) fn answer(
    verb: &[u8],
    asked: FileBytes,
    line: &mut LineWords,
    out: &mut Draft,
) -> Result<(), Wrong> {
    if !is_verb(verb, "int13") {
        line.refuse();
        return Ok(());
    }
    calls(asked, out)
}

/// `int13`: what each line of the file asks for, and the registers after it. A line is `AX BX CX DX ES CODE MOVED`.
/// CODE and MOVED are the answer and the count of the work, if the call asks for some.
fn calls(asked: FileBytes, out: &mut Draft) -> Result<(), Wrong> {
    let Ok(text) = std::str::from_utf8(asked.bytes) else {
        return Err(Wrong::Line);
    };
    let mut front = Int13::new();
    for call in text.lines() {
        let words = words_in(asked.alloc, call)?;
        let mut line = LineWords::of(&words);
        serve(&mut front, &mut line, out);
        line.end()?;
    }
    Ok(())
}

fn serve(front: &mut Int13, line: &mut LineWords, out: &mut Draft) {
    let regs = registers_of(line);
    let (code, moved) = (line.hex_byte(), line.byte());
    put_work(front.plan(regs), out);
    put_registers(finished(front, regs, code, moved), out);
}

fn finished(front: &mut Int13, regs: Regs, code: u8, moved: u8) -> Regs {
    match front.plan(regs) {
        Work::Answer { code } => front.finish(regs, code, 0),
        Work::Changed { .. } => front.finish(regs, code, moved),
        Work::Move { .. } => front.finish(regs, code, moved),
    }
}

/// The registers before a call.
fn registers_of(line: &mut LineWords) -> Regs {
    Regs {
        ax: line.hex_word(),
        bx: line.hex_word(),
        cx: line.hex_word(),
        dx: line.hex_word(),
        es: line.hex_word(),
        carry: false,
    }
}

fn put_work(work: Work, out: &mut Draft) {
    match work {
        Work::Answer { code } => {
            out.text("answer ");
            out.hex_byte(code);
        }
        Work::Changed { bay } => {
            out.text("is bay");
            out.numbers(&[u64::from(bay)]);
            out.text(" changed");
        }
        Work::Move {
            kind,
            bay,
            c,
            h,
            r,
            count,
            address,
        } => {
            out.text(verb_of(kind));
            out.numbers(&[u64::from(bay), u64::from(c), u64::from(h), u64::from(r)]);
            out.text(" count");
            out.numbers(&[u64::from(count)]);
            out.text(" ");
            out.hex_address(address);
        }
    }
    out.line("");
}

fn verb_of(kind: Kind) -> &'static str {
    match kind {
        Kind::Read => "read",
        Kind::Write => "write",
        Kind::Verify => "verify",
    }
}

fn put_registers(regs: Regs, out: &mut Draft) {
    out.hex_word(regs.ax);
    for word in [regs.bx, regs.cx, regs.dx, regs.es] {
        out.text(" ");
        out.hex_word(word);
    }
    out.line(if regs.carry { " carry" } else { "" });
}
