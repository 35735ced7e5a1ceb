// The records that are asked for: each is read, and then written or logged.
ghost use Rattle.std.specs.Prelude.{◌≡◌, [], ◌∷◌, ◌++◌, IfOk};
ghost use Rattle.disk_commands.specs.Common.{through, Finishes, Ran, RanPart};
ghost use Rattle.disk_commands.specs.Rescue.{after_answer, gives_up, does_next, follows, rescues};
ghost use Rattle.disk_commands.specs.RescueLeading.{HasNextTries, LogGoes};

use commands::{AnyRun, stopped_line};
use flop_base::{Chrn, NoMemory, Status};
use rescue::{AfterRead, LogLine, after_read, read_request};
use sector_model::{Reason, Reply};

/// What comes next by the answer to the read of a record. It is an error if the answer is a refusal that no drive
/// gives.
fn next_of(key: Chrn, reply: &Reply) -> Result<AfterRead, Reason>
    ensures value { result ≡ after_answer key reply.now }
    ensures tries { IfOk result HasNextTries }
{
    match reply {
        Reply::Refused(Reason::Driver(code)) => Ok(after_read(key, Err(*code))),
        Reply::Refused(reason) => Err(*reason),
        Reply::DoneDeleted => Ok(after_read(key, Ok(true))),
        Reply::Done | Reply::Bytes { .. } => Ok(after_read(key, Ok(false))),
    }
}

/// Tells that the read of a record was refused in such a way that the rescue ends there.
fn give_up<R: AnyRun>(run: &mut R, key: Chrn, reason: Reason) -> Status
    ensures { Ran R.hand (Finishes (gives_up key reason)) run.old run.new result }
{
    let line = stopped_line(run.alloc(), &read_request(key), reason);
    run.finish(line, Status::SomeRefused)
}

/// Adds a line to a log.
fn push_line(mut log: Vec<LogLine>, line: LogLine) -> Result<Vec<LogLine>, NoMemory>
    ensures { IfOk result (λ made. made.items ≡ log.items ++ line ∷ []) }
{
    match log.push(line) {
        Ok(()) => Ok(log),
        Err(_) => Err(NoMemory),
    }
}

/// Writes a record, or adds its line to the log, or ends the rescue.
#[tactic(auto, using(commands::proofs::Running::fed, commands::proofs::Running::starved), unfolding(crate::specs::Rescue::does_next))]
fn do_next<R: AnyRun>(
    run: &mut R,
    key: Chrn,
    next: AfterRead,
    log: Vec<LogLine>,
) -> Result<Vec<LogLine>, Status>
    requires tries { HasNextTries next }
    ensures { RanPart R.hand (LogGoes (does_next key (Ok next) log.items)) run.old result run.new }
{
    match next {
        AfterRead::Write(request) => {
            run.carry(&request)?;
            Ok(log)
        }
        AfterRead::Log(line) => match push_line(log, line) {
            Ok(log) => Ok(log),
            Err(_) => Err(Status::NoMemory),
        },
        AfterRead::Stop(code) => Err(give_up(run, key, Reason::Driver(code))),
    }
}

/// Does what follows the answer to the read of a record, and answers the log.
#[tactic(auto, unfolding(crate::specs::Rescue::follows, crate::specs::Rescue::does_next))]
fn follow<R: AnyRun>(
    run: &mut R,
    key: Chrn,
    reply: &Reply,
    log: Vec<LogLine>,
) -> Result<Vec<LogLine>, Status>
    ensures { RanPart R.hand (LogGoes (follows key reply.now log.items)) run.old result run.new }
{
    match next_of(key, reply) {
        Ok(next) => do_next(run, key, next, log),
        Err(reason) => Err(give_up(run, key, reason)),
    }
}

/// Reads a record and writes it to the other diskette, or adds its line to the log.
#[tactic(auto, unfolding(crate::specs::Rescue::rescues))]
fn rescue_record<R: AnyRun>(
    run: &mut R,
    key: Chrn,
    log: Vec<LogLine>,
) -> Result<Vec<LogLine>, Status>
    ensures { RanPart R.hand (LogGoes (rescues key log.items)) run.old result run.new }
{
    let reply = run.ask(&read_request(key))?;
    follow(run, key, &reply, log)
}

/// Rescues records, one after the other, and answers the new log.
pub(crate) fn rescue_records<R: AnyRun>(run: &mut R, keys: &[Chrn]) -> Result<Vec<LogLine>, Status>
    ensures { RanPart R.hand (LogGoes (through rescues keys.now [])) run.old result run.new }
{
    let mut log = Vec::new(run.alloc());
    for key in keys {
        log = rescue_record(run, *key, log)?;
    }
    Ok(log)
}
