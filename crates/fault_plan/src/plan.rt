// A plan as its drives and its machine take it.
ghost use Rattle.std.specs.Prelude.{◌≡◌, ◌++◌, [], ◌∷◌, OnOk, IfOk, replicate};
ghost use Rattle.fault_plan.specs.Plan.{lists_of, plan_for, joined, plan_spelled, ReadsPlan};

use crate::error::PlanError;
use crate::line::{PlanLine, PlannedDrive};
use drive_model::Fault;
use flop_base::NoMemory;
use floppy_jobs::lines::read_lines;
use irq_events::Pace;
use std::alloc::Global;

/// The most lines of a plan.
const MOST_LINES: usize = 1_000;

/// The faults of each drive, in the order in which they are used up, and the timing of the machine.
#[derive(Drop)]
pub struct FaultPlan {
    pub bay0: Vec<Fault>,
    pub bay1: Vec<Fault>,
    pub spare0: Vec<Fault>,
    pub spare1: Vec<Fault>,
    pub pace: Pace,
}

/// Reads a plan's text, of at most 1,000 lines. A text with a bad line is refused as a whole.
#[tactic(auto, unfolding(crate::specs::Plan::plan_spelled))]
pub fn plan_of(alloc: Global, bytes: &[u8]) -> Result<FaultPlan, PlanError>
    ensures { ReadsPlan result (plan_spelled bytes.now) }
{
    let lines: Vec<PlanLine> = read_lines(alloc, bytes, MOST_LINES)?;
    Ok(gather(alloc, lines.as_slice())?)
}

/// The plan that these lines make.
fn gather(alloc: Global, lines: &[PlanLine]) -> Result<FaultPlan, NoMemory>
    ensures { IfOk result (λ plan. lists_of plan ≡ plan_for lines.now) }
{
    let mut plan = FaultPlan::empty(alloc);
    for line in lines {
        plan.add(*line)?;
    }
    Ok(plan)
}

impl FaultPlan {
    /// The plan with no line.
    #[tactic(auto, unfolding(crate::specs::Plan::plan_for))]
    fn empty(alloc: Global) -> FaultPlan
        ensures { lists_of result ≡ plan_for [] }
    {
        FaultPlan {
            bay0: Vec::new(alloc),
            bay1: Vec::new(alloc),
            spare0: Vec::new(alloc),
            spare1: Vec::new(alloc),
            pace: Pace {
                gaps: Vec::new(alloc),
                holds: Vec::new(alloc),
                strays: Vec::new(alloc),
            },
        }
    }

    /// Adds what one more line says.
    #[tactic(auto, unfolding(crate::specs::Plan::plan_for))]
    fn add(&mut self, line: PlanLine) -> Result<(), NoMemory>
        ensures { OnOk result (lists_of self.new
            ≡ joined (lists_of self.old) (plan_for (line ∷ []))) }
    {
        match line {
            PlanLine::Fault { drive, fault } => self.add_fault(drive, fault),
            PlanLine::Gap { steps, count } => push_copies(&mut self.pace.gaps, steps, count),
            PlanLine::Hold { steps, count } => push_copies(&mut self.pace.holds, steps, count),
            PlanLine::Stray { steps, count } => push_copies(&mut self.pace.strays, steps, count),
        }
    }

    #[tactic(auto, unfolding(crate::specs::Plan::plan_for))]
    fn add_fault(&mut self, drive: PlannedDrive, fault: Fault) -> Result<(), NoMemory>
        ensures { OnOk result (lists_of self.new
            ≡ joined (lists_of self.old) (plan_for (PlanLine.Fault drive fault ∷ []))) }
    {
        match drive {
            PlannedDrive::Bay0 => self.bay0.push(fault)?,
            PlannedDrive::Bay1 => self.bay1.push(fault)?,
            PlannedDrive::Spare0 => self.spare0.push(fault)?,
            PlannedDrive::Spare1 => self.spare1.push(fault)?,
        }
        Ok(())
    }
}

/// Appends an item so many times.
fn push_copies<T: Copy>(items: &mut Vec<T>, item: T, count: u16) -> Result<(), NoMemory>
    ensures { OnOk result (items.new.items ≡ items.old.items ++ replicate count item) }
{
    for _ in 0..count {
        items.push(item)?;
    }
    Ok(())
}
