// Texts of jobs, port accesses, calls, plans and logs.
use super::{FileBytes, records};
use drive_model::Fault;
use fault_plan::{FaultPlan, PlanError, plan_of};
use floppy_jobs::{CallLine, JobError, PortLine, is_verb, parse_calls, parse_job, parse_ports};
use rescue::{LogError, read_log, write_log};
use std::alloc::Global;
use test_files::{Draft, LineWords, Wrong};

pub(crate) fn answer(
    verb: &[u8],
    asked: FileBytes,
    line: &mut LineWords,
    out: &mut Draft,
) -> Result<(), Wrong> {
    if is_verb(verb, "text") {
        text(asked.alloc, kind_asked(line), asked.bytes, out)
    } else if is_verb(verb, "lines") {
        lines(asked, line, out)
    } else if is_verb(verb, "log") {
        log(asked, line, out)
    } else {
        records::answer(verb, asked, line, out)
    }
}

/// The kind of a text.
#[derive(Clone, Copy)]
enum TextKind {
    Job,
    Ports,
    Calls,
    Plan,
}

fn kind_asked(line: &mut LineWords) -> TextKind {
    let word = line.word().as_bytes();
    if is_verb(word, "job") {
        return TextKind::Job;
    }
    if is_verb(word, "ports") {
        return TextKind::Ports;
    }
    if is_verb(word, "calls") {
        return TextKind::Calls;
    }
    if !is_verb(word, "plan") {
        line.refuse();
    }
    TextKind::Plan
}

/// `text job`, `text ports`, `text calls` and `text plan`: the lines of a text as they are understood, or its first bad
/// line
fn text(alloc: Global, kind: TextKind, bytes: &[u8], out: &mut Draft) -> Result<(), Wrong> {
    match kind {
        TextKind::Job => job(alloc, bytes, out),
        TextKind::Ports => ports(alloc, bytes, out),
        TextKind::Calls => calls(alloc, bytes, out),
        TextKind::Plan => plan(alloc, bytes, out),
    }
}

/// `lines KIND`: each line of the file that isn't empty, as a text of its own
fn lines(asked: FileBytes, line: &mut LineWords, out: &mut Draft) -> Result<(), Wrong> {
    let kind = kind_asked(line);
    for bytes in asked.bytes.split(|byte| *byte == b'\n') {
        if !bytes.is_empty() {
            text(asked.alloc, kind, bytes, out)?;
        }
    }
    Ok(())
}

fn refused(out: &mut Draft, error: JobError) -> Result<(), Wrong> {
    match error {
        JobError::NoMemory => return Err(Wrong::NoMemory),
        error => out.show_line(&error),
    }
    Ok(())
}

fn job(alloc: Global, bytes: &[u8], out: &mut Draft) -> Result<(), Wrong> {
    match parse_job(alloc, bytes) {
        Ok(requests) => {
            for request in &requests {
                out.show_line(request);
            }
            out.line("understood");
            Ok(())
        }
        Err(error) => refused(out, error),
    }
}

fn ports(alloc: Global, bytes: &[u8], out: &mut Draft) -> Result<(), Wrong> {
    match parse_ports(alloc, bytes) {
        Ok(accesses) => {
            for access in &accesses {
                put_access(out, access);
            }
            out.line("understood");
            Ok(())
        }
        Err(error) => refused(out, error),
    }
}

fn put_access(out: &mut Draft, access: &PortLine) {
    match access {
        PortLine::In { port } => {
            out.text("in ");
            out.hex_port(*port);
        }
        PortLine::Out { port, value } => {
            out.text("out ");
            out.hex_port(*port);
            out.text(" ");
            out.hex_byte(*value);
        }
        PortLine::Wait { steps } => {
            out.text("wait");
            out.numbers(&[u64::from(*steps)]);
        }
        PortLine::Irq => out.text("irq"),
        PortLine::Insert { bay, name } => {
            out.text("insert");
            out.numbers(&[u64::from(*bay)]);
            out.text(" ");
            out.text(name.as_str());
        }
        PortLine::Eject { bay } => {
            out.text("eject");
            out.numbers(&[u64::from(*bay)]);
        }
    }
    out.line("");
}

fn calls(alloc: Global, bytes: &[u8], out: &mut Draft) -> Result<(), Wrong> {
    match parse_calls(alloc, bytes) {
        Ok(calls) => {
            for call in &calls {
                put_call(out, call);
            }
            out.line("understood");
            Ok(())
        }
        Err(error) => refused(out, error),
    }
}

fn put_call(out: &mut Draft, call: &CallLine) {
    match call {
        CallLine::Job(request) => out.show(request),
        CallLine::Call { ax, bx, cx, dx, es } => {
            out.text("call");
            for register in [*ax, *bx, *cx, *dx, *es] {
                out.text(" ");
                out.hex_word(register);
            }
        }
    }
    out.line("");
}

fn plan(alloc: Global, bytes: &[u8], out: &mut Draft) -> Result<(), Wrong> {
    match plan_of(alloc, bytes) {
        Ok(plan) => put_plan(out, &plan),
        Err(PlanError::NoMemory) => return Err(Wrong::NoMemory),
        Err(error) => out.show_line(&error),
    }
    Ok(())
}

fn put_plan(out: &mut Draft, plan: &FaultPlan) {
    put_faults(out, "bay 0", &plan.bay0);
    put_faults(out, "bay 1", &plan.bay1);
    put_faults(out, "spare 0", &plan.spare0);
    put_faults(out, "spare 1", &plan.spare1);
    put_pace(out, "gap ", &plan.pace.gaps);
    put_pace(out, "hold ", &plan.pace.holds);
    put_pace(out, "stray ", &plan.pace.strays);
    out.line("understood");
}

fn put_faults(out: &mut Draft, drive: &str, faults: &[Fault]) {
    for fault in faults {
        out.text(drive);
        put_fault(out, *fault);
    }
}

fn put_fault(out: &mut Draft, fault: Fault) {
    match fault {
        Fault::Dropout { c, h, word, count } => {
            out.text(" drop");
            out.numbers(&[
                u64::from(c),
                u64::from(h),
                u64::from(word),
                u64::from(count),
            ]);
        }
        Fault::Cut { c, h, word, count } => {
            out.text(" cut");
            out.numbers(&[
                u64::from(c),
                u64::from(h),
                u64::from(word),
                u64::from(count),
            ]);
        }
        Fault::Lose { c, count } => {
            out.text(" lose");
            out.numbers(&[u64::from(c), u64::from(count)]);
        }
        Fault::Stick { c, count } => {
            out.text(" stick");
            out.numbers(&[u64::from(c), u64::from(count)]);
        }
    }
    out.line("");
}

fn put_pace<T: std::fmt::Display>(out: &mut Draft, kind: &str, steps: &[T]) {
    for count in steps {
        out.text(kind);
        out.show_line(count);
    }
}

/// `log SECTORS`: the log that a rescue would write with the lines of this one, or the first bad line
fn log(asked: FileBytes, line: &mut LineWords, out: &mut Draft) -> Result<(), Wrong> {
    match read_log(asked.alloc, asked.bytes, line.byte()) {
        Ok(lines) => {
            out.put(&write_log(asked.alloc, &lines)?);
            out.line("understood");
        }
        Err(LogError::NoMemory) => return Err(Wrong::NoMemory),
        Err(error) => out.show_line(&error),
    }
    Ok(())
}
