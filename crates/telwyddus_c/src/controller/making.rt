// The controller's making.
ghost use Rattle.telwyddus_c.specs.Common.{lists_of};
ghost use Rattle.telwyddus_c.specs.Controllers.{IsPlain};
ghost use Rattle.telwyddus_c.specs.Drives.{IsPlanned};
ghost use Rattle.telwyddus_c.specs.Plans.{FillsPlanned};
ghost use Rattle.telwyddus_c.specs.Slots.{Fills, Frees, Moves};

use crate::code::{BAD_PLAN, DONE, EMPTY, FULL, NO_MEMORY};
use crate::controller::drives::replan;
use c_bay_drive::BayDrive;
use c_slots::{ControllerSlot, WholeController};
use fault_plan::{FaultPlan, PlanError, plan_of};
use fdc_chip::Chip;
use std::alloc::Global;

/// Makes a controller with two empty drives that have no faults.
#[unsafe(no_mangle)]
pub extern "C" fn telwyddus_controller_new(alloc: Global, slot: &mut ControllerSlot) -> u32
    ensures { Fills IsPlain result slot.old.held.controller slot.new.held.controller }
{
    if slot.is_full() {
        return FULL;
    }
    let first = BayDrive::new(Vec::new(alloc));
    let second = BayDrive::new(Vec::new(alloc));
    let Ok(controller) = Chip::new(alloc, first, second) else {
        return NO_MEMORY;
    };
    let Ok(controller) = Box::new(alloc, controller) else {
        return NO_MEMORY;
    };
    slot.put(controller);
    DONE
}

/// Makes a controller with two empty drives that have the faults of a plan's text. The plan's gaps, DMA latencies and
/// spurious interrupts aren't used. If a line isn't understood, its number is reported, counted from 1, or 0 if the
/// text is too long.
#[unsafe(no_mangle)]
pub extern "C" fn telwyddus_controller_new_planned(
    alloc: Global,
    slot: &mut ControllerSlot,
    plan: &[u8],
    line: &mut usize,
) -> u32
    ensures { FillsPlanned IsPlanned plan.now result line.old line.new slot.old.held.controller slot.new.held.controller }
{
    if slot.is_full() {
        return FULL;
    }
    match plan_of(alloc, plan) {
        Err(PlanError::NoMemory) => NO_MEMORY,
        Err(PlanError::BadLine { line: bad }) => {
            *line = bad;
            BAD_PLAN
        }
        Ok(plan) => {
            let first = BayDrive::new(Vec::new(alloc));
            let second = BayDrive::new(Vec::new(alloc));
            let Ok(mut controller) = Chip::new(alloc, first, second) else {
                return NO_MEMORY;
            };
            plan_both(alloc, &mut controller, plan);
            let Ok(controller) = Box::new(alloc, controller) else {
                return NO_MEMORY;
            };
            slot.put(controller);
            DONE
        }
    }
}

/// Plans the faults of a plan's text for both drives of a new controller.
fn plan_both(alloc: Global, controller: &mut WholeController, plan: FaultPlan)
    requires { IsPlain controller.old }
    ensures { IsPlanned (lists_of plan) controller.new }
{
    replan(alloc, controller, 0, plan.bay0);
    replan(alloc, controller, 1, plan.bay1);
}

/// Frees the controller with its drives and media.
#[unsafe(no_mangle)]
pub extern "C" fn telwyddus_controller_free(alloc: Global, slot: &mut ControllerSlot) -> u32
    ensures { Frees result slot.old.held.controller slot.new.held.controller }
{
    match slot.take(alloc) {
        None => EMPTY,
        Some(_controller) => DONE,
    }
}

/// Moves the controller, with its drives and media, into a slot that is empty.
#[unsafe(no_mangle)]
pub extern "C" fn telwyddus_controller_move(
    alloc: Global,
    to: &mut ControllerSlot,
    from: &mut ControllerSlot,
) -> u32
    ensures { Moves result from.old.held.controller from.new.held.controller to.old.held.controller to.new.held.controller }
{
    if to.is_full() {
        return FULL;
    }
    let Some(controller) = from.take(alloc) else {
        return EMPTY;
    };
    to.put(controller);
    DONE
}
