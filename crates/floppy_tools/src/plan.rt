// The plan of faults and delays that the environment names.
ghost use Rattle.std.specs.Prelude.{◌≡◌, ◌≢◌, ◌∷◌, [], IfErr, IfOk, IfSome, IsErrOf, IsSomeAnd, Ok, OnOk, string_bytes};
ghost use Rattle.floppy_tools.specs.Common.{file_at, Blames, Prints, lists_of, plan_spelled};
ghost use Rattle.floppy_tools.specs.Plans.{bad_plan_text, EndsWithoutPlan, TellsUnloaded, TellsUnread};

use commands::{put_last_absent, put_last_line};
use fault_plan::{FaultPlan, PlanError, plan_of};
use flop_base::{LoadError, Shelf, Sink, Status};
use std::alloc::{AllocError, Global};

/// The longest text of a plan, in bytes.
const MOST_PLAN_BYTES: usize = 4_194_304;

/// Reads the plan of this name. If it isn't loaded or isn't read, the error is the exit status, and a line says why,
/// unless memory ran out or the file store failed.
pub(crate) fn read_plan<S: Shelf, K: Sink>(
    alloc: Global,
    name: &str,
    shelf: &mut S,
    out: &mut K,
) -> Result<FaultPlan, Status>
    ensures plan { IfOk result (λ plan. IfSome (S.told shelf.old) (λ files. IsSomeAnd (file_at files name.now)
        (λ text. plan_spelled text ≡ Ok (lists_of plan)))) }
    ensures untold { OnOk result (K.told out.new ≡ K.told out.old) }
    ensures stays { S.told shelf.new ≡ S.told shelf.old }
    ensures ended { IfErr result (λ ended. EndsWithoutPlan (S.told shelf.old) name.now (K.told out.old) (K.told out.new) ended) }
    ensures shelf_faults { Blames (IsErrOf result Status.FileFault) (S.fault_count shelf.old) (S.fault_count shelf.new) }
    ensures sink_faults { Blames (IsErrOf result Status.SinkFault) (K.fault_count out.old) (K.fault_count out.new) }
{
    let text = match shelf.load(alloc, name, MOST_PLAN_BYTES) {
        Ok(text) => text,
        Err(error) => return Err(not_loaded(alloc, name, out, error)),
    };
    match plan_of(alloc, &text) {
        Ok(plan) => Ok(plan),
        Err(error) => Err(not_read(alloc, out, error)),
    }
}

/// Ends a program whose plan wasn't loaded.
fn not_loaded<K: Sink>(alloc: Global, name: &str, out: &mut K, error: LoadError) -> Status
    ensures tells { TellsUnloaded error name.now (K.told out.old) (K.told out.new) result }
    ensures shelf_fault { result ≡ Status.FileFault → error ≡ LoadError.Failed }
    ensures fault_told { error ≡ LoadError.Failed → result ≡ Status.FileFault }
    ensures sink_faults { Blames (result ≡ Status.SinkFault) (K.fault_count out.old) (K.fault_count out.new) }
{
    match error {
        LoadError::Absent => put_last_absent(alloc, out, name),
        LoadError::TooLong => put_last_bad_plan(alloc, out, 0),
        LoadError::Failed => Status::FileFault,
        LoadError::NoMemory => Status::NoMemory,
    }
}

/// Ends a program whose plan wasn't read.
fn not_read<K: Sink>(alloc: Global, out: &mut K, error: PlanError) -> Status
    ensures tells { TellsUnread error (K.told out.old) (K.told out.new) result }
    ensures no_shelf_fault { result ≢ Status.FileFault }
    ensures sink_faults { Blames (result ≡ Status.SinkFault) (K.fault_count out.old) (K.fault_count out.new) }
{
    match error {
        PlanError::BadLine { line } => put_last_bad_plan(alloc, out, line),
        PlanError::NoMemory => Status::NoMemory,
    }
}

/// Puts the last line where a line of a plan isn't understood, and gives the status.
fn put_last_bad_plan<K: Sink>(alloc: Global, out: &mut K, line: usize) -> Status
    ensures prints { Prints (bad_plan_text line ∷ []) Status.BadJob (K.told out.old) (K.told out.new) result }
    ensures no_shelf_fault { result ≢ Status.FileFault }
    ensures sink_faults { Blames (result ≡ Status.SinkFault) (K.fault_count out.old) (K.fault_count out.new) }
{
    put_last_line(out, bad_plan_line(alloc, line), Status::BadJob)
}

#[tactic(auto, unfolding(crate::specs::Plans::bad_plan_text))]
fn bad_plan_line(alloc: Global, line: usize) -> Result<String, AllocError>
    ensures { IfOk result (λ made. string_bytes made ≡ bad_plan_text line) }
{
    format!(in alloc; "plan line {line} not understood\n")
}
