// The machine of the program, and what the program does with the arguments (words).
ghost use Rattle.std.specs.Prelude.{◌≡◌, [], map, string_bytes};
ghost use Rattle.floppy_tools.specs.Common.{plain_state, script_state, lists_of, faulty_outside_of};
ghost use Rattle.floppy_tools.specs.Drives.{AreEmpty, parts_with};
ghost use Rattle.floppy_tools.specs.Runs.{parts_of, plain_parts, RunsNew, RunsPlanned, EndsRun, Starves, LacksPlan};

use crate::drives::Drives;
use crate::plan::read_plan;
use crate::program::floppy;
use drive_model::{Drive, PlainDrive, ScriptDrive};
use fault_plan::FaultPlan;
use flop_base::{Shelf, Sink, Status};
use irq_events::Pace;
use pc_bus::MachineOf;
use std::alloc::Global;

/// How a run ended, and the machine that it left, where one was made.
#[derive(Drop)]
pub struct Ended<D> {
    pub status: Status,
    pub machine: Option<MachineOf<D>>,
}

/// Runs the program on drives without faults, which nothing delays.
pub fn run_plain<S: Shelf, K: Sink>(
    alloc: Global,
    words: &[String],
    shelf: &mut S,
    out: &mut K,
) -> Ended<PlainDrive>
    // The main clause: what is printed and stored is what the top call does on a new machine, which comes back.
    ensures { EndsRun (RunsNew plain_state plain_parts (map string_bytes words.now)) Starves
        (faulty_outside_of S.told S.fault_count K.told K.fault_count shelf.old out.old) (faulty_outside_of S.told S.fault_count K.told K.fault_count shelf.new out.new)
        result.machine result.status }
{
    run_on(
        alloc,
        words,
        Drives::plain(),
        Drives::plain(),
        no_delays(alloc),
        shelf,
        out,
    )
}

/// Runs the program on drives with the faults of the plan of this name, and with the plan's timing. If the plan isn't
/// loaded or isn't read, no machine is made, and the files stay as they are. A line then says why, unless memory ran
/// out or the file store failed.
pub fn run_planned<S: Shelf, K: Sink>(
    alloc: Global,
    plan: &str,
    words: &[String],
    shelf: &mut S,
    out: &mut K,
) -> Ended<ScriptDrive>
    // The new machine has the faults and the timing (pace) of the plan that the file spells.
    ensures { EndsRun (RunsPlanned plan.now (map string_bytes words.now)) (LacksPlan plan.now)
        (faulty_outside_of S.told S.fault_count K.told K.fault_count shelf.old out.old) (faulty_outside_of S.told S.fault_count K.told K.fault_count shelf.new out.new)
        result.machine result.status }
{
    match read_plan(alloc, plan, shelf, out) {
        Ok(plan) => run_faulty(alloc, plan, words, shelf, out),
        Err(status) => Ended {
            status,
            machine: None,
        },
    }
}

/// Runs the program on drives with these faults, and with the plan's timing.
fn run_faulty<S: Shelf, K: Sink>(
    alloc: Global,
    plan: FaultPlan,
    words: &[String],
    shelf: &mut S,
    out: &mut K,
) -> Ended<ScriptDrive>
    ensures { EndsRun (RunsNew script_state (parts_of (lists_of plan)) (map string_bytes words.now)) Starves
        (faulty_outside_of S.told S.fault_count K.told K.fault_count shelf.old out.old) (faulty_outside_of S.told S.fault_count K.told K.fault_count shelf.new out.new)
        result.machine result.status }
{
    let FaultPlan {
        bay0,
        bay1,
        spare0,
        spare1,
        pace,
    } = plan;
    let bays = Drives::scripted(bay0, bay1);
    let spare = Drives::scripted(spare0, spare1);
    run_on(alloc, words, bays, spare, pace, shelf, out)
}

fn no_delays(alloc: Global) -> Pace
    ensures gaps { result.gaps.items ≡ [] }
    ensures holds { result.holds.items ≡ [] }
    ensures strays { result.strays.items ≡ [] }
{
    Pace {
        gaps: Vec::new(alloc),
        holds: Vec::new(alloc),
        strays: Vec::new(alloc),
    }
}

/// Runs the program on a machine with these drives in its bays and these spare ones.
fn run_on<S: Shelf, K: Sink, D: Drive>(
    alloc: Global,
    words: &[String],
    bays: Drives<D>,
    spare: Drives<D>,
    pace: Pace,
    shelf: &mut S,
    out: &mut K,
) -> Ended<D>
    requires bays { AreEmpty D.state bays }
    requires spare { AreEmpty D.state spare }
    ensures { EndsRun (RunsNew D.state (parts_with D.state bays spare pace) (map string_bytes words.now)) Starves
        (faulty_outside_of S.told S.fault_count K.told K.fault_count shelf.old out.old) (faulty_outside_of S.told S.fault_count K.told K.fault_count shelf.new out.new)
        result.machine result.status }
{
    let Ok(machine) = bays.machine(alloc, pace) else {
        return Ended {
            status: Status::NoMemory,
            machine: None,
        };
    };
    let Ok(spare) = spare.spare(alloc) else {
        return Ended {
            status: Status::NoMemory,
            machine: None,
        };
    };
    let (status, machine) = floppy(alloc, words, shelf, out, machine, spare);
    Ended {
        status,
        machine: Some(machine),
    }
}
