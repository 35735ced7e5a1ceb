// The end of a text, if all its lines were done: whether one was refused, and what is left in the bays.
ghost use Rattle.std.specs.Prelude.{◌≡◌, ◌||◌};
ghost use Rattle.text_commands.specs.Common.{Ran};
ghost use Rattle.text_commands.specs.Ending.{EndsQuietly};

use commands::{AnyRun, whole_status};
use flop_base::Status;

/// Whether one of two lines, or parts of lines, was refused.
pub(crate) fn either(first: bool, second: bool) -> bool
    ensures { result ≡ (first || second) }
{
    first || second
}

/// Stores what is left in the bays of a session, and gives the status of a run to the end.
pub(crate) fn finish<R: AnyRun>(run: &mut R, refused: bool) -> Status
    ensures { Ran R.hand (EndsQuietly refused) run.old run.new result }
{
    match run.end() {
        Ok(()) => whole_status(refused),
        Err(ended) => ended,
    }
}
