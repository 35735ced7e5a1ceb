// The program, by what the environment variable gave that names a plan.
ghost use Rattle.std.specs.Prelude.{◌≡◌, ◌≢◌, ◌∷◌, [], codes, map, string_bytes};
ghost use Rattle.floppy_tools.specs.Common.{Prints, absent_text, Blames, faulty_outside_of};
ghost use Rattle.floppy_tools.specs.PlanVariable.{EndsProgram, status_of};

use crate::run::{Ended, run_plain, run_planned};
use commands::put_last_absent;
use drive_model::{PlainDrive, ScriptDrive};
use flop_base::{Shelf, Sink, Status};
use std::alloc::Global;
use std::env::VarError;

/// The environment variable that names a plan of faults.
pub const PLAN_VARIABLE: &str = "FLOPPY_PLAN";

/// How the program ended, and the machine that it left: one with the faults of a plan, or one without faults.
#[derive(Drop)]
pub enum ProgramEnded {
    Planned(Ended<ScriptDrive>),
    Unplanned(Ended<PlainDrive>),
}

impl ProgramEnded {
    /// The exit status.
    pub fn status(self) -> Status
        ensures { result ≡ status_of self }
    {
        match self {
            ProgramEnded::Planned(run) => run.status,
            ProgramEnded::Unplanned(run) => run.status,
        }
    }
}

/// Runs the program by what the variable `PLAN_VARIABLE` gave: with the plan of that name, or without a plan if the
/// variable isn't set. If its value isn't text, no file has that name. Then a line says so, no machine is made, and the
/// files stay as they are.
pub fn run_program<S: Shelf, K: Sink>(
    alloc: Global,
    plan: Result<String, VarError>,
    words: &[String],
    shelf: &mut S,
    out: &mut K,
) -> ProgramEnded
    // A run without the named plan isn't a run of that plan.
    ensures { EndsProgram plan (map string_bytes words.now)
        (faulty_outside_of S.told S.fault_count K.told K.fault_count shelf.old out.old) (faulty_outside_of S.told S.fault_count K.told K.fault_count shelf.new out.new)
        result }
{
    match plan {
        Ok(name) => ProgramEnded::Planned(run_planned(alloc, name.as_str(), words, shelf, out)),
        Err(VarError::NotPresent) => ProgramEnded::Unplanned(run_plain(alloc, words, shelf, out)),
        Err(VarError::NotUnicode) => ProgramEnded::Unplanned(Ended {
            status: put_last_no_name(alloc, out),
            machine: None,
        }),
        Err(VarError::OutOfMemory) => ProgramEnded::Unplanned(Ended {
            status: Status::NoMemory,
            machine: None,
        }),
    }
}

/// Puts the last line where the variable's value isn't text, and gives the status.
fn put_last_no_name<K: Sink>(alloc: Global, out: &mut K) -> Status
    ensures prints { Prints (absent_text (codes "FLOPPY_PLAN") ∷ []) Status.Absent (K.told out.old) (K.told out.new) result }
    ensures no_shelf_fault { result ≢ Status.FileFault }
    ensures sink_faults { Blames (result ≡ Status.SinkFault) (K.fault_count out.old) (K.fault_count out.new) }
{
    put_last_absent(alloc, out, PLAN_VARIABLE)
}
