// The controller's lines.
ghost use Rattle.std.specs.Prelude.{◌≡◌};
ghost use Rattle.telwyddus_c.specs.Controllers.{state_of, lines_byte, TellsLines};
ghost use Rattle.telwyddus_c.specs.Slots.{Serves};

use crate::code::{DONE, EMPTY};
use c_slots::{ControllerSlot, WholeController};
use std::alloc::Global;

/// The interrupt line is up.
const INT: u8 = 1;

/// The DMA request line is up.
const DRQ: u8 = 2;

/// Bytes go to memory.
const TO_MEMORY: u8 = 4;

/// The index of the selected drive's medium passes.
const INDEX: u8 = 8;

/// The lines: 1 for the interrupt line, 2 for the DMA request line, 4 if bytes go to memory, 8 for the index of the
/// selected drive.
#[unsafe(no_mangle)]
pub extern "C" fn telwyddus_controller_lines(
    alloc: Global,
    slot: &mut ControllerSlot,
    lines: &mut u8,
) -> u32
    ensures { Serves (λ code old new. (code ≡ 0) × (new ≡ old) × (lines.new ≡ lines_byte (state_of old))) (lines.new ≡ lines.old)
        result slot.old.held.controller slot.new.held.controller }
{
    let Some(controller) = slot.take(alloc) else {
        return EMPTY;
    };
    *lines = lines_of(&controller);
    slot.put(controller);
    DONE
}

/// Reports the lines of what a slot holds, if anything.
pub(crate) fn tell_lines(alloc: Global, slot: &mut ControllerSlot, lines: &mut u8)
    ensures stays { slot.new.held.controller ≡ slot.old.held.controller }
    ensures told { TellsLines slot.old.held.controller lines.old lines.new }
{
    let Some(controller) = slot.take(alloc) else {
        return;
    };
    *lines = lines_of(&controller);
    slot.put(controller);
}

/// The lines of a controller.
pub(crate) fn lines_of(controller: &WholeController) -> u8
    ensures { result ≡ lines_byte (state_of controller.now) }
{
    let int = if controller.int() { INT } else { 0 };
    let drq = if controller.drq() { DRQ } else { 0 };
    let to_memory = if controller.to_memory() { TO_MEMORY } else { 0 };
    let index = if controller.index() { INDEX } else { 0 };
    int + drq + to_memory + index
}
