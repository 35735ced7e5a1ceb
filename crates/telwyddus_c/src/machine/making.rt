// The machine's making.
ghost use Rattle.std.specs.Prelude.{◌≡◌};
ghost use Rattle.telwyddus_c.specs.Machines.{IsPlain, IsPlanned};
ghost use Rattle.telwyddus_c.specs.Plans.{FillsPlanned};
ghost use Rattle.telwyddus_c.specs.Slots.{Fills, Frees, Moves};

use crate::code::{BAD_PLAN, DONE, EMPTY, FULL, NO_MEMORY};
use c_slots::MachineSlot;
use drive_model::ScriptDrive;
use fault_plan::{PlanError, plan_of};
use irq_events::Pace;
use pc_bus::MachineOf;
use std::alloc::Global;

/// Makes a machine with two empty drives that have no faults. Nothing delays or disturbs it.
#[unsafe(no_mangle)]
pub extern "C" fn telwyddus_machine_new(alloc: Global, slot: &mut MachineSlot) -> u32
    ensures { Fills IsPlain result slot.old.held.machine slot.new.held.machine }
{
    if slot.is_full() {
        return FULL;
    }
    let pace = Pace {
        gaps: Vec::new(alloc),
        holds: Vec::new(alloc),
        strays: Vec::new(alloc),
    };
    let first = ScriptDrive::new(Vec::new(alloc));
    let second = ScriptDrive::new(Vec::new(alloc));
    let Ok(machine) = MachineOf::new(alloc, first, second, pace) else {
        return NO_MEMORY;
    };
    let Ok(machine) = Box::new(alloc, machine) else {
        return NO_MEMORY;
    };
    slot.put(machine);
    DONE
}

/// Makes a machine with two empty drives that have the faults of a plan's text, with the plan's timing. If a line isn't
/// understood, its number is reported, counted from 1, or 0 if the text is too long.
#[unsafe(no_mangle)]
pub extern "C" fn telwyddus_machine_new_planned(
    alloc: Global,
    slot: &mut MachineSlot,
    plan: &[u8],
    line: &mut usize,
) -> u32
    ensures { FillsPlanned IsPlanned plan.now result line.old line.new slot.old.held.machine slot.new.held.machine }
{
    if slot.is_full() {
        return FULL;
    }
    match plan_of(alloc, plan) {
        Err(PlanError::NoMemory) => NO_MEMORY,
        Err(PlanError::BadLine { line: bad }) => {
            *line = bad;
            BAD_PLAN
        }
        Ok(plan) => {
            let first = ScriptDrive::new(plan.bay0);
            let second = ScriptDrive::new(plan.bay1);
            let Ok(machine) = MachineOf::new(alloc, first, second, plan.pace) else {
                return NO_MEMORY;
            };
            let Ok(machine) = Box::new(alloc, machine) else {
                return NO_MEMORY;
            };
            slot.put(machine);
            DONE
        }
    }
}

/// Frees the machine with its drives and media.
#[unsafe(no_mangle)]
pub extern "C" fn telwyddus_machine_free(alloc: Global, slot: &mut MachineSlot) -> u32
    ensures { Frees result slot.old.held.machine slot.new.held.machine }
{
    match slot.take(alloc) {
        None => EMPTY,
        Some(_machine) => DONE,
    }
}

/// Moves the machine, with its drives and media, into a slot that is empty.
#[unsafe(no_mangle)]
pub extern "C" fn telwyddus_machine_move(
    alloc: Global,
    to: &mut MachineSlot,
    from: &mut MachineSlot,
) -> u32
    ensures { Moves result from.old.held.machine from.new.held.machine to.old.held.machine to.new.held.machine }
{
    if to.is_full() {
        return FULL;
    }
    let Some(machine) = from.take(alloc) else {
        return EMPTY;
    };
    to.put(machine);
    DONE
}
