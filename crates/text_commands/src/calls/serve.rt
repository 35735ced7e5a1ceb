// The subcommand `int13 FILE`: the calls of a text are served to its end, or up to what stops the run.
ghost use Rattle.std.specs.Prelude.{All};
ghost use Rattle.text_commands.specs.Common.{Ran, RanPart, Runs};
ghost use Rattle.text_commands.specs.CallCourses.{ServesCalls};
ghost use Rattle.text_commands.specs.CallLines.{LineHasTries, LinesGo, ServesOrStarves, Serving};

use crate::calls::line::serve_line;
use crate::ending::{either, finish};
use bios_int13::Int13;
use commands::{AnyRun, bad_line};
use flop_base::{Name, Status};
use floppy_jobs::{CallLine, JobError, parse_calls};

/// The longest text of calls, in bytes.
const MOST_CALLS_BYTES: usize = 4_194_304;

/// Serves lines in order and prints what came of them, beginning with the service as it is at first; true if one counts
/// as a refusal. The error is the status of a run that ends here.
fn serve_lines<R: AnyRun>(run: &mut R, lines: &[CallLine]) -> Result<bool, Status>
    requires { All LineHasTries lines.now }
    ensures { RanPart R.hand (LinesGo lines.now) run.old result run.new }
{
    let mut front = Int13::new();
    let mut refused = false;
    for line in lines {
        match serve_line(run, &mut front, line) {
            Ok(refusal) => refused = either(refused, refusal),
            Err(ended) => return Err(ended),
        }
    }
    Ok(refused)
}

/// Serves the lines of a text, and stores what is left in the bays.
fn serve_all<R: AnyRun>(run: &mut R, lines: &[CallLine]) -> Status
    requires { All LineHasTries lines.now }
    ensures { Ran R.hand (Serving lines.now) run.old run.new result }
{
    match serve_lines(run, lines) {
        Ok(refused) => finish(run, refused),
        Err(ended) => ended,
    }
}

/// Serves the calls of this text.
fn serve_text<R: AnyRun>(run: &mut R, text: &[u8]) -> Status
    ensures { Ran R.hand (ServesOrStarves text.now) run.old run.new result }
{
    match parse_calls(run.alloc(), text) {
        Ok(lines) => serve_all(run, &lines),
        Err(JobError::BadLine { line }) => {
            run.finish(bad_line(run.alloc(), line), Status::BadJob)
        }
        Err(JobError::NoMemory) => Status::NoMemory,
    }
}

/// Reads the text of this name and serves its calls (INT 13h of the PC/AT). Each line prints what came of it. At the
/// end the media that are left in the bays are stored.
pub fn serve_calls<R: AnyRun>(run: &mut R, name: Name) -> Status
    ensures { Ran R.hand (Runs (ServesCalls name)) run.old run.new result }
{
    match run.load_text(name.as_str(), MOST_CALLS_BYTES) {
        Ok(text) => serve_text(run, &text),
        Err(ended) => ended,
    }
}
