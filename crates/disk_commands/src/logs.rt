// The file of a log.
ghost use Rattle.std.specs.Prelude.{◌≡◌, IfOk, string_bytes};
ghost use Rattle.disk_commands.specs.Common.{Finishes, RanLast};
ghost use Rattle.disk_commands.specs.Logs.{NotUnderstood, NotLoaded};
ghost use Rattle.disk_commands.specs.Rescue.{bad_log_text, tells_no_log};
ghost use Rattle.disk_commands.specs.RescueLeading.{Finds};

use commands::AnyRun;
use flop_base::{LoadError, Name, Status};
use rescue::{LogError, LogLine, read_log};
use std::alloc::{AllocError, Global};

/// The longest text of a log, in bytes.
const MOST_LOG_BYTES: usize = 65_536;

/// Why there is no log to go by.
#[derive(Clone, Copy)]
pub(crate) enum NoLog {
    /// This line isn't understood. Lines are counted from 1, and it is 0 if the text is too long.
    BadLine { line: usize },
    /// The shelf failed.
    FileFault,
    /// Memory ran out.
    NoMemory,
}

/// The lines of the log under this name, of a diskette with this many sectors on a track. The answer is nothing if
/// there is no log.
pub(crate) fn find_log<R: AnyRun>(
    run: &mut R,
    name: &Name,
    sectors: u8,
) -> Result<Option<Vec<LogLine>>, NoLog>
    ensures { Finds R.hand name.now sectors run.old result run.new }
{
    match run.load(name.as_str(), MOST_LOG_BYTES) {
        Ok(bytes) => match read_log(run.alloc(), &bytes, sectors) {
            Ok(lines) => Ok(Some(lines)),
            Err(error) => Err(not_understood(error)),
        },
        Err(error) => not_loaded(error),
    }
}

/// Why a text isn't a log.
fn not_understood(error: LogError) -> NoLog
    ensures { NotUnderstood error result }
{
    match error {
        LogError::BadLine { line } => NoLog::BadLine { line },
        LogError::NoMemory => NoLog::NoMemory,
    }
}

/// The answer for a file that wasn't loaded. There is no log if there is no file. Otherwise the answer is why the file
/// wasn't loaded.
fn not_loaded(error: LoadError) -> Result<Option<Vec<LogLine>>, NoLog>
    ensures { NotLoaded error result }
{
    match error {
        LoadError::Absent => Ok(None),
        LoadError::TooLong => Err(NoLog::BadLine { line: 0 }),
        LoadError::Failed => Err(NoLog::FileFault),
        LoadError::NoMemory => Err(NoLog::NoMemory),
    }
}

#[tactic(auto, unfolding(crate::specs::Rescue::bad_log_text))]
fn bad_log_line(alloc: Global, line: usize) -> Result<String, AllocError>
    ensures { IfOk result (λ made. string_bytes made ≡ bad_log_text line) }
{
    format!(in alloc; "log line {line} not understood\n")
}

/// Tells why there is no log to go by.
#[tactic(auto, using(commands::proofs::Running::fails_here), unfolding(crate::specs::Rescue::tells_no_log))]
pub(crate) fn tell_no_log<R: AnyRun>(run: &mut R, cause: NoLog) -> Status
    ensures { RanLast R.hand (Finishes (tells_no_log cause)) (cause ≡ NoLog.FileFault) run.old run.new result }
{
    match cause {
        NoLog::BadLine { line } => run.finish(bad_log_line(run.alloc(), line), Status::BadJob),
        NoLog::FileFault => Status::FileFault,
        NoLog::NoMemory => Status::NoMemory,
    }
}
