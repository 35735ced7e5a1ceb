// The controller's state without its media as bytes, and back onto the media that are in its bays.
ghost use Rattle.std.specs.Prelude.{◌≡◌};
ghost use Rattle.telwyddus_c.specs.Bare.{WritesBare, RestoresBare};
ghost use Rattle.telwyddus_c.specs.Controllers.{state_of, lines_byte};
ghost use Rattle.telwyddus_c.specs.Slots.{Serves};

use crate::bare::{bare_bytes, refill};
use crate::buffer::write_bytes;
use crate::code::{BAD_STATE, DONE, EMPTY, NO_MEMORY, UNFIT};
use crate::controller::lines::lines_of;
use crate::state::{BARE, read_behind};
use c_slots::{ControllerSlot, WholeController};
use saved_state::RestoreError;
use std::alloc::Global;

/// Writes the controller's state with its drives to the beginning of a buffer, and reports its length. Of the media in
/// the drives the state has only the length of their tracks and their rates. The controller goes on.
#[unsafe(no_mangle)]
pub extern "C" fn telwyddus_controller_save_bare(
    alloc: Global,
    slot: &mut ControllerSlot,
    out: &mut [u8],
    length: &mut usize,
) -> u32
    ensures { Serves (λ code old new. (new ≡ old) × WritesBare old code out.old out.new length.old length.new)
        ((out.new ≡ out.old) × (length.new ≡ length.old)) result slot.old.held.controller slot.new.held.controller }
{
    let Some(mut controller) = slot.take(alloc) else {
        return EMPTY;
    };
    let code = save_bare(alloc, &mut controller, out, length);
    slot.put(controller);
    code
}

/// Writes the state of a controller, which afterwards has its media again.
fn save_bare(
    alloc: Global,
    controller: &mut WholeController,
    out: &mut [u8],
    length: &mut usize,
) -> u32
    ensures same { controller.new ≡ controller.old }
    ensures writes { WritesBare controller.old result out.old out.new length.old length.new }
{
    match bare_bytes(alloc, controller) {
        Err(_) => NO_MEMORY,
        Ok(bytes) => write_bytes(bytes.as_slice(), out, length),
    }
}

/// Makes the controller that a slot holds the one whose state the bytes are, except for its media. These stay in its
/// bays, with what it reports of writes to them. Afterwards `lines` has the lines of the controller.
#[unsafe(no_mangle)]
pub extern "C" fn telwyddus_controller_restore_bare(
    alloc: Global,
    slot: &mut ControllerSlot,
    bytes: &[u8],
    lines: &mut u8,
) -> u32
    ensures { Serves (λ code old new. RestoresBare bytes.now code old new × (lines.new ≡ lines_byte (state_of new))) (lines.new ≡ lines.old)
        result slot.old.held.controller slot.new.held.controller }
{
    let Some(mut controller) = slot.take(alloc) else {
        return EMPTY;
    };
    let code = restore_telling(alloc, &mut controller, bytes, lines);
    slot.put(controller);
    code
}

/// Restores a controller without its media, and reports the lines.
fn restore_telling(
    alloc: Global,
    controller: &mut WholeController,
    bytes: &[u8],
    lines: &mut u8,
) -> u32
    ensures restores { RestoresBare bytes.now result controller.old controller.new }
    ensures told { lines.new ≡ lines_byte (state_of controller.new) }
{
    let code = restore_bare(alloc, controller, bytes);
    *lines = lines_of(controller);
    code
}

/// Restores a controller without its media, and reports no lines.
fn restore_bare(alloc: Global, controller: &mut WholeController, bytes: &[u8]) -> u32
    ensures { RestoresBare bytes.now result controller.old controller.new }
{
    match read_behind::<WholeController>(alloc, &BARE, bytes) {
        Err(RestoreError::NoState) => BAD_STATE,
        Err(RestoreError::NoMemory) => NO_MEMORY,
        Ok(mut state) => {
            if refill(alloc, controller, &mut state) {
                DONE
            } else {
                UNFIT
            }
        }
    }
}
