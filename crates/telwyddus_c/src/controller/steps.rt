// The controller's device steps.
ghost use Rattle.std.specs.Prelude.{◌≡◌};
ghost use Rattle.fdc_chip.specs.Quiet.{StaysQuiet};
ghost use Rattle.fdc_chip.specs.Steps.{StepsChip, RunsChip};
ghost use Rattle.telwyddus_c.specs.Controllers.{state_of, lines_byte};
ghost use Rattle.telwyddus_c.specs.Slots.{Serves};

use crate::code::{DONE, EMPTY};
use crate::controller::lines::lines_of;
use c_slots::ControllerSlot;
use std::alloc::Global;

/// One device step. Afterwards `lines` has the controller's lines.
#[unsafe(no_mangle)]
pub extern "C" fn telwyddus_controller_step(
    alloc: Global,
    slot: &mut ControllerSlot,
    lines: &mut u8,
) -> u32
    ensures { Serves (λ code old new. (code ≡ 0) × StepsChip (state_of old) (state_of new) × (lines.new ≡ lines_byte (state_of new))) (lines.new ≡ lines.old)
        result slot.old.held.controller slot.new.held.controller }
{
    let Some(mut controller) = slot.take(alloc) else {
        return EMPTY;
    };
    controller.step();
    *lines = lines_of(&controller);
    slot.put(controller);
    DONE
}

/// Makes device steps until the interrupt line or the request line changes, at most `most`. Reports how many were made.
/// Afterwards `lines` has the controller's lines.
#[unsafe(no_mangle)]
pub extern "C" fn telwyddus_controller_run(
    alloc: Global,
    slot: &mut ControllerSlot,
    most: u32,
    made: &mut u32,
    lines: &mut u8,
) -> u32
    ensures { Serves (λ code old new. (code ≡ 0) × RunsChip most (state_of old) made.new (state_of new) × (lines.new ≡ lines_byte (state_of new)))
        ((made.new ≡ made.old) × (lines.new ≡ lines.old)) result slot.old.held.controller slot.new.held.controller }
{
    let Some(mut controller) = slot.take(alloc) else {
        return EMPTY;
    };
    *made = controller.run(most);
    *lines = lines_of(&controller);
    slot.put(controller);
    DONE
}

/// How many device steps, at most `most`, surely change neither the interrupt line nor the request line. `StaysQuiet`
/// says under which premises this holds while a command is executed. Nothing changes.
#[unsafe(no_mangle)]
pub extern "C" fn telwyddus_controller_quiet(
    alloc: Global,
    slot: &mut ControllerSlot,
    most: u32,
    steps: &mut u32,
) -> u32
    ensures { Serves (λ code old new. (code ≡ 0) × (new ≡ old) × StaysQuiet most (state_of old) steps.new) (steps.new ≡ steps.old)
        result slot.old.held.controller slot.new.held.controller }
{
    let Some(controller) = slot.take(alloc) else {
        return EMPTY;
    };
    *steps = controller.quiet(most);
    slot.put(controller);
    DONE
}
