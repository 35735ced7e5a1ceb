// The rescue of a diskette.
ghost use Rattle.std.specs.Prelude.{◌≡◌, IfOk, string_bytes};
ghost use Rattle.disk_commands.specs.Common.{Runs, Ran, RanPart, Finishes};
ghost use Rattle.disk_commands.specs.Logs.{lines_found};
ghost use Rattle.disk_commands.specs.Rescue.{asked_keys, rescues_all, outcome_of, last_text, stores_log, rescue_found, Rescues};
ghost use Rattle.disk_commands.specs.RescueLeading.{LogGoes, FinishesFound};

use crate::logs::{find_log, tell_no_log};
use crate::prepare::prepare;
use crate::records::rescue_records;
use commands::AnyRun;
use flop_base::{Chrn, Name, NoMemory, Status};
use floppy_jobs::Request;
use floppy_session::Shape;
use rescue::{LogLine, Outcome, logged_keys, standard_keys, write_log};
use std::alloc::{AllocError, Global};

/// The records that are asked for: those of the log, or all records if there is no log.
fn asked_keys(
    alloc: Global,
    shape: Shape,
    found: &Option<Vec<LogLine>>,
) -> Result<Vec<Chrn>, NoMemory>
    ensures { IfOk result (λ keys. keys.items ≡ asked_keys shape (lines_found found.now)) }
{
    match found {
        Some(lines) => logged_keys(alloc, lines),
        None => standard_keys(alloc, shape.rate, shape.cylinders, shape.heads),
    }
}

/// Rescues the records to the other diskette, and stores that diskette. Answers the new log.
#[tactic(auto, unfolding(crate::specs::Rescue::rescues_all))]
fn rescue_all<R: AnyRun>(
    run: &mut R,
    to: Name,
    shape: Shape,
    logged: bool,
    keys: &[Chrn],
) -> Result<Vec<LogLine>, Status>
    ensures { RanPart R.hand (LogGoes (rescues_all to shape logged keys.now)) run.old result run.new }
{
    prepare(run, to, shape, logged)?;
    let log = rescue_records(run, keys)?;
    run.carry(&Request::Eject { bay: 1 })?;
    Ok(log)
}

/// The outcome of a rescue that left these lines.
fn outcome(asked: usize, lines: &[LogLine]) -> Outcome
    ensures { result ≡ outcome_of asked lines.now }
{
    Outcome {
        written: asked.saturating_sub(lines.len()),
        asked,
    }
}

fn last_line(alloc: Global, outcome: Outcome) -> Result<String, AllocError>
    ensures { IfOk result (λ line. string_bytes line ≡ last_text outcome) }
{
    format!(in alloc; "{outcome}\n")
}

/// Stores the new log, even if it is empty, and tells how many of the records that were asked for were written.
#[tactic(auto, using(commands::proofs::Running::starved), unfolding(crate::specs::Rescue::stores_log))]
fn store_log<R: AnyRun>(run: &mut R, log: &Name, asked: usize, lines: &[LogLine]) -> Status
    ensures { Ran R.hand (Finishes (stores_log log.now asked lines.now)) run.old run.new result }
{
    let Ok(bytes) = write_log(run.alloc(), lines) else {
        return Status::NoMemory;
    };
    let outcome = outcome(asked, lines);
    let line = last_line(run.alloc(), outcome);
    run.store_last(log.as_str(), &bytes, line, outcome.status())
}

/// Rescues the records that the found log asks for.
fn rescue_found<R: AnyRun>(
    run: &mut R,
    to: Name,
    log: &Name,
    shape: Shape,
    found: &Option<Vec<LogLine>>,
) -> Status
    ensures { Ran R.hand (Finishes (rescue_found to log.now shape (lines_found found.now))) run.old run.new result }
{
    let Ok(keys) = asked_keys(run.alloc(), shape, found) else {
        return Status::NoMemory;
    };
    match rescue_all(run, to, shape, found.is_some(), &keys) {
        Ok(lines) => store_log(run, log, keys.len(), &lines),
        Err(ended) => ended,
    }
}

/// Rescues the disk that was put in, by its log.
fn rescue_opened<R: AnyRun>(run: &mut R, to: Name, log: Name, shape: Shape) -> Status
    ensures { Ran R.hand (FinishesFound to log shape) run.old run.new result }
{
    match find_log(run, &log, shape.rate.sectors()) {
        Ok(found) => rescue_found(run, to, &log, shape, &found),
        Err(cause) => tell_no_log(run, cause),
    }
}

/// Reads the records of the diskette of one name that its log asks for, or all if there is no log. Writes them to the
/// diskette of another name. That diskette is stored first, and then the new log, which has a line for each record that
/// wasn't read. Prints how many of how many records were written, or what stopped the rescue.
#[tactic(auto, using(crate::proofs::RescueOpening::not_opened))]
pub fn rescue_disk<R: AnyRun>(run: &mut R, from: Name, to: Name, log: Name) -> Status
    ensures { Ran R.hand (Runs (Rescues from to log)) run.old run.new result }
{
    match run.open_disk(from) {
        Ok(shape) => rescue_opened(run, to, log, shape),
        Err(ended) => ended,
    }
}
