// The controller's reset pin.
ghost use Rattle.std.specs.Prelude.{◌≡◌};
ghost use Rattle.fdc_chip.specs.Pins.{ResetsByPin};
ghost use Rattle.telwyddus_c.specs.Controllers.{state_of, lines_byte};
ghost use Rattle.telwyddus_c.specs.Slots.{Serves};

use crate::code::{DONE, EMPTY};
use crate::controller::lines::lines_of;
use c_slots::{ControllerSlot, WholeController};
use std::alloc::Global;

/// The reset pin: the controller is as at power-up, held in reset, except for what SPECIFY set. Media, heads, straps,
/// cables and plans stay. Afterwards `lines` has the controller's lines.
#[unsafe(no_mangle)]
pub extern "C" fn telwyddus_controller_reset(
    alloc: Global,
    slot: &mut ControllerSlot,
    lines: &mut u8,
) -> u32
    ensures { Serves (λ code old new. (code ≡ 0) × ResetsByPin (state_of old) (state_of new) × (lines.new ≡ lines_byte (state_of new))) (lines.new ≡ lines.old)
        result slot.old.held.controller slot.new.held.controller }
{
    let Some(mut controller) = slot.take(alloc) else {
        return EMPTY;
    };
    reset(&mut controller, lines);
    slot.put(controller);
    DONE
}

/// The reset pin of a controller. Reports the lines.
fn reset(controller: &mut WholeController, lines: &mut u8)
    ensures resets { ResetsByPin (state_of controller.old) (state_of controller.new) }
    ensures told { lines.new ≡ lines_byte (state_of controller.new) }
{
    controller.reset_by_pin();
    *lines = lines_of(controller);
}
