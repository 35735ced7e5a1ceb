// The controller's state as bytes, and back.
ghost use Rattle.std.specs.Prelude.{◌≡◌};
ghost use Rattle.telwyddus_c.specs.Controllers.{TellsLines};
ghost use Rattle.telwyddus_c.specs.Lengths.{TellsAtMost};
ghost use Rattle.telwyddus_c.specs.Slots.{Serves};
ghost use Rattle.telwyddus_c.specs.States.{spelled_controller, ControllerFits, WritesState, RestoresState};

use crate::code::{BAD_STATE, DONE, EMPTY, NO_MEMORY};
use crate::controller::lines::tell_lines;
use crate::state::{read_state, write_state};
use c_slots::{ControllerSlot, WholeController};
use saved_state::RestoreError;
use std::alloc::Global;

/// Writes the controller's state, with its drives and their media, to the beginning of a buffer, and reports its
/// length. The controller goes on.
#[unsafe(no_mangle)]
pub extern "C" fn telwyddus_controller_save(
    alloc: Global,
    slot: &mut ControllerSlot,
    out: &mut [u8],
    length: &mut usize,
) -> u32
    ensures serves { Serves (λ code old new. (new ≡ old) × WritesState ControllerFits spelled_controller old code out.old out.new length.old length.new)
        ((out.new ≡ out.old) × (length.new ≡ length.old)) result slot.old.held.controller slot.new.held.controller }
    ensures most { TellsAtMost slot.old.held.controller result length.new }
{
    let Some(controller) = slot.take(alloc) else {
        return EMPTY;
    };
    let code = save(alloc, &controller, out, length);
    slot.put(controller);
    code
}

/// Writes the state of a controller.
fn save(alloc: Global, controller: &WholeController, out: &mut [u8], length: &mut usize) -> u32
    ensures { WritesState ControllerFits spelled_controller controller.now result out.old out.new length.old length.new }
{
    write_state(alloc, controller, out, length)
}

/// Makes the slot hold the controller whose state the bytes are, in place of what it holds, and reports the lines of
/// what it then holds.
#[unsafe(no_mangle)]
pub extern "C" fn telwyddus_controller_restore(
    alloc: Global,
    slot: &mut ControllerSlot,
    bytes: &[u8],
    lines: &mut u8,
) -> u32
    ensures restores { RestoresState ControllerFits spelled_controller bytes.now result slot.old.held.controller slot.new.held.controller }
    ensures told { TellsLines slot.new.held.controller lines.old lines.new }
{
    let code = restore(alloc, slot, bytes);
    tell_lines(alloc, slot, lines);
    code
}

/// Makes the slot hold the controller whose state the bytes are, and reports no lines.
fn restore(alloc: Global, slot: &mut ControllerSlot, bytes: &[u8]) -> u32
    ensures { RestoresState ControllerFits spelled_controller bytes.now result slot.old.held.controller slot.new.held.controller }
{
    match read_state(alloc, bytes) {
        Ok(controller) => {
            slot.put(controller);
            DONE
        }
        Err(RestoreError::NoState) => BAD_STATE,
        Err(RestoreError::NoMemory) => NO_MEMORY,
    }
}
