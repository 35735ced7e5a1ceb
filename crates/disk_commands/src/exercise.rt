// The command that runs a generated workload.
ghost use Rattle.std.specs.Prelude.{◌≡◌, codes, IfOk, string_bytes};
ghost use Rattle.disk_commands.specs.Common.{RunsScript, Goes, RanPart, Ran, Runs};
ghost use Rattle.disk_commands.specs.Exercise.{exercises, exercise_text, exercise_script};

use crate::work::run_work;
use crate::work_tally::WorkTally;
use commands::{AnyRun, acknowledge, blank_request, format_tracks, whole_status};
use flop_base::{Name, NoMemory, Rate, Status};
use std::alloc::{AllocError, Global};

/// The cylinders of the disk on which the workload runs.
const CYLINDERS: u8 = 4;

/// Makes the disk, and runs the workload on it.
fn run_exercise<R: AnyRun>(
    run: &mut R,
    name: Name,
    seed: u32,
    count: u16,
) -> Result<WorkTally, Status>
    requires name { name ≡ codes "exercise" }
    ensures { RanPart R.hand (Goes (exercises seed count)) run.old result run.new }
{
    let blank = blank_request(0, name, CYLINDERS, Rate::R500);
    run.carry(&blank)?;
    acknowledge(run, 0, Rate::R500)?;
    format_tracks(run, 0, CYLINDERS, 2)?;
    run_work(run, seed, count)
}

#[tactic(auto, unfolding(crate::specs::Exercise::exercise_text))]
fn exercise_line(
    alloc: Global,
    seed: u32,
    count: u16,
    tally: WorkTally,
) -> Result<String, AllocError>
    ensures { IfOk result (λ line. string_bytes line ≡ exercise_text seed count tally.done tally.refused tally.sum) }
{
    let WorkTally { done, refused, sum } = tally;
    format!(in alloc; "exercise {seed} {count} ok {done} refused {refused} sum {sum}\n")
}

/// Makes a formatted disk of four cylinders, and runs a workload on it that is drawn from the seed. Prints how many
/// reads and writes were done, how many were refused, and the sum of all bytes that were read. Nothing is stored.
#[tactic(auto, using(crate::proofs::FlatRuns::fed_first, crate::proofs::FlatRuns::starved_first))]
pub fn exercise_disk<R: AnyRun>(run: &mut R, seed: u32, count: u16) -> Status
    ensures { Ran R.hand (Runs (RunsScript (exercise_script seed count))) run.old run.new result }
{
    let name = match Name::copy(run.alloc(), "exercise") {
        Ok(name) => name,
        Err(NoMemory) => return Status::NoMemory,
    };
    match run_exercise(run, name, seed, count) {
        Ok(tally) => {
            let line = exercise_line(run.alloc(), seed, count, tally);
            run.finish(line, whole_status(tally.refused > 0))
        }
        Err(ended) => ended,
    }
}
