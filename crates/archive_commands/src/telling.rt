// The last line of a command that makes a file of another.
ghost use Rattle.std.specs.Prelude.{◌≡◌, ◌≢◌, Err, IfOk, string_bytes};
ghost use Rattle.archive_commands.specs.Common.{Blames};
ghost use Rattle.sector_model.specs.declared.reply.Stop.TheVariants as stop;
ghost use Rattle.archive_commands.specs.Making.{made_text, Tells};

use crate::halt::Halt;
use commands::{put_last, put_last_line, put_last_unfit};
use flop_base::{Sink, Status};
use std::alloc::{AllocError, Global};

#[tactic(auto, unfolding(crate::specs::Making::made_text))]
fn made_line(alloc: Global, verb: &str, count: usize) -> Result<String, AllocError>
    ensures { IfOk result (λ line. string_bytes line ≡ made_text verb.now count) }
{
    format!(in alloc; "{verb} ok {count}\n")
}

/// Puts the last line of a command that makes a file of another, by what came of it, and gives the status.
pub(crate) fn tell<K: Sink>(
    alloc: Global,
    out: &mut K,
    verb: &str,
    outcome: &Result<usize, Halt>,
) -> Status
    ensures tells { Tells verb.now outcome.now (K.told out.old) (K.told out.new) result }
    ensures is_form { result ≢ Status.BadWords }
    ensures shelf_fault { result ≡ Status.FileFault → outcome.now ≡ Err (Halt.Stopped stop.FileFault) }
    ensures fault_told { outcome.now ≡ Err (Halt.Stopped stop.FileFault) → result ≡ Status.FileFault }
    ensures sink_faults { Blames (result ≡ Status.SinkFault) (K.fault_count out.old) (K.fault_count out.new) }
{
    match outcome {
        Ok(count) => put_last_line(out, made_line(alloc, verb, *count), Status::AllOk),
        Err(Halt::Unfit { c, h }) => put_last_unfit(alloc, out, *c, *h),
        Err(Halt::Stopped(cause)) => put_last(alloc, out, cause),
    }
}
