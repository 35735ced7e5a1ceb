// A text that isn't loaded.
ghost use Rattle.std.specs.Prelude.{◌≡◌};
ghost use Rattle.commands.specs.Puts.{printed_of};
ghost use Rattle.commands.specs.Leading.{Told};
ghost use Rattle.commands.specs.Texts.{MissesText};

use crate::lines::{put_last_absent, put_last_bad_line};
use flop_base::{LoadError, Sink, Status};
use std::alloc::Global;

/// Prints why the text of this name wasn't loaded, unless memory ran out or the file store failed, and gives the status
/// of the command that needed it.
pub fn tell_missing_text<K: Sink>(
    alloc: Global,
    name: &str,
    error: LoadError,
    out: &mut K,
) -> Status
    ensures { Told (MissesText error name.now) (error ≡ LoadError.Failed)
        (printed_of K.told K.fault_count out.old) (printed_of K.told K.fault_count out.new) result }
{
    match error {
        LoadError::Absent => put_last_absent(alloc, out, name),
        LoadError::TooLong => put_last_bad_line(alloc, out, 0),
        LoadError::Failed => Status::FileFault,
        LoadError::NoMemory => Status::NoMemory,
    }
}
