// Answers to the requests of a script.
ghost use Rattle.std.specs.Prelude.{◌≡◌, false, MatchOption};
ghost use Rattle.commands.specs.Common.{is_refusal};

use sector_model::{Reason, Reply};

/// Whether an answer is a refusal.
pub fn is_refusal(reply: &Reply) -> bool
    ensures { result ≡ is_refusal reply.now }
{
    match reply {
        Reply::Refused(_) => true,
        Reply::Done | Reply::DoneDeleted | Reply::Bytes { .. } => false,
    }
}

/// Why a request was refused, if it was.
pub(crate) fn refusal(reply: &Reply) -> Option<Reason>
    ensures { MatchOption result (is_refusal reply.now ≡ false) (λ reason. reply.now ≡ Reply.Refused reason) }
{
    match reply {
        Reply::Refused(reason) => Some(*reason),
        Reply::Done | Reply::DoneDeleted | Reply::Bytes { .. } => None,
    }
}
