// What is printed of a run.
use crate::runs::{MachineCounts, SeenRun};
use floppy_jobs::is_verb;
use test_files::Draft;

/// Prints the status of a run, the counts that are asked for, and the part of memory.
pub(crate) fn put_seen(seen: &SeenRun, asked: &[String], out: &mut Draft) {
    out.text("status");
    out.numbers(&[u64::from(seen.status)]);
    out.line("");
    if !asked.is_empty()
        && let Some(counts) = seen.counts
    {
        put_counts(asked, counts, out);
    }
    if !seen.memory.is_empty() {
        put_memory(&seen.memory, out);
    }
}

/// Prints counts by their names.
fn put_counts(asked: &[String], counts: MachineCounts, out: &mut Draft) {
    out.text("counts");
    for name in asked {
        let name = name.as_str();
        out.text(" ");
        out.text(name);
        out.numbers(&[number_of(counts, name).unwrap_or(0)]);
    }
    out.line("");
}

/// The count of this name, if there is one.
pub(crate) fn number_of(counts: MachineCounts, name: &str) -> Option<u64> {
    let name = name.as_bytes();
    let MachineCounts {
        steps,
        commands,
        taken,
        stalls,
        direct,
        faults: [first, second],
    } = counts;
    if is_verb(name, "steps") {
        Some(steps)
    } else if is_verb(name, "commands") {
        Some(commands)
    } else if is_verb(name, "taken") {
        Some(taken)
    } else if is_verb(name, "stalls") {
        Some(stalls)
    } else if is_verb(name, "direct") {
        Some(direct)
    } else if is_verb(name, "faults0") {
        Some(first)
    } else if is_verb(name, "faults1") {
        Some(second)
    } else {
        None
    }
}

/// Prints bytes of memory, with a row of equal bytes as one byte and their number.
fn put_memory(memory: &[u8], out: &mut Draft) {
    out.text("ram");
    let mut last = None;
    let mut times = 0u64;
    for byte in memory {
        if last != Some(*byte) {
            put_times(last, times, out);
            last = Some(*byte);
            times = 0;
        }
        times = times.saturating_add(1);
    }
    put_times(last, times, out);
    out.line("");
}

fn put_times(byte: Option<u8>, times: u64, out: &mut Draft) {
    if let Some(byte) = byte {
        out.numbers(&[times]);
        out.text("x");
        out.hex_byte(byte);
    }
}
