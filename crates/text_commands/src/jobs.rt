// The subcommand `play JOB`: a batch job is read and run to its end, or up to what stops it.
ghost use Rattle.std.specs.Prelude.{All};
ghost use Rattle.text_commands.specs.Common.{HasTries, Ran, RanPart};
ghost use Rattle.text_commands.specs.JobRounds.{RoundGoes, RoundsGo, PlaysJob, PlaysOrStarves};

use crate::ending::{either, finish};
use commands::{AnyRun, bad_line, is_refusal};
use flop_base::Status;
use floppy_jobs::{JobError, Request, parse_job};

/// The longest text of a job, in bytes.
const MOST_JOB_BYTES: usize = 4_194_304;

/// Runs a request and prints its answer; true if it was refused. The error is the status of a run that ends here.
pub(crate) fn run_one<R: AnyRun>(run: &mut R, request: &Request) -> Result<bool, Status>
    requires { HasTries request.now }
    ensures { RanPart R.hand (RoundGoes request.now) run.old result run.new }
{
    match run.ask(request) {
        Ok(reply) => match run.tell(request, &reply) {
            Ok(()) => Ok(is_refusal(&reply)),
            Err(ended) => Err(ended),
        },
        Err(ended) => Err(ended),
    }
}

/// Runs the requests of a batch job in order, and prints their answers; true if one was refused. The error is the
/// status of a run that ends here.
fn run_requests<R: AnyRun>(run: &mut R, requests: &[Request]) -> Result<bool, Status>
    requires { All HasTries requests.now }
    ensures { RanPart R.hand (RoundsGo requests.now) run.old result run.new }
{
    let mut refused = false;
    for request in requests {
        match run_one(run, request) {
            Ok(refusal) => refused = either(refused, refusal),
            Err(ended) => return Err(ended),
        }
    }
    Ok(refused)
}

/// Plays the job with this text.
fn play_text<R: AnyRun>(run: &mut R, text: &[u8]) -> Status
    ensures { Ran R.hand (PlaysOrStarves text.now) run.old run.new result }
{
    match parse_job(run.alloc(), text) {
        Ok(requests) => match run_requests(run, &requests) {
            Ok(refused) => finish(run, refused),
            Err(ended) => ended,
        },
        Err(JobError::BadLine { line }) => {
            run.finish(bad_line(run.alloc(), line), Status::BadJob)
        }
        Err(JobError::NoMemory) => Status::NoMemory,
    }
}

/// Reads the job of this name and plays it.
pub fn play<R: AnyRun>(run: &mut R, job: &str) -> Status
    ensures { Ran R.hand (PlaysJob job.now) run.old run.new result }
{
    match run.load_text(job, MOST_JOB_BYTES) {
        Ok(text) => play_text(run, &text),
        Err(ended) => ended,
    }
}
