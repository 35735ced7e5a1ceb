// The controller's side of a DMA channel of C's own: as many bytes as are asked for.
ghost use Rattle.std.specs.Prelude.{◌≡◌};
ghost use Rattle.telwyddus_c.specs.Blocks.{TakesBlock, GivesBlock};
ghost use Rattle.telwyddus_c.specs.Controllers.{state_of, KeepsDrives, lines_byte};
ghost use Rattle.telwyddus_c.specs.Slots.{Serves};

use crate::code::{DONE, EMPTY};
use crate::controller::lines::lines_of;
use c_slots::{ControllerSlot, WholeController};
use std::alloc::Global;

/// The channel takes bytes to the beginning of a buffer, as long as they are asked for and the buffer has room. Reports
/// how many. Afterwards `lines` has the controller's lines.
#[unsafe(no_mangle)]
pub extern "C" fn telwyddus_controller_dack_block_read(
    alloc: Global,
    slot: &mut ControllerSlot,
    out: &mut [u8],
    moved: &mut usize,
    lines: &mut u8,
) -> u32
    ensures { Serves (λ code old new. (code ≡ 0) × TakesBlock moved.new out.old out.new (state_of old) (state_of new) × KeepsDrives old new × (lines.new ≡ lines_byte (state_of new)))
        ((out.new ≡ out.old) × (moved.new ≡ moved.old) × (lines.new ≡ lines.old)) result slot.old.held.controller slot.new.held.controller }
{
    let Some(mut controller) = slot.take(alloc) else {
        return EMPTY;
    };
    *moved = take_block(&mut controller, out, lines);
    slot.put(controller);
    DONE
}

/// The channel takes bytes from a controller, and the lines are reported.
fn take_block(controller: &mut WholeController, out: &mut [u8], lines: &mut u8) -> usize
    ensures takes { TakesBlock result out.old out.new (state_of controller.old) (state_of controller.new) }
    ensures drives { KeepsDrives controller.old controller.new }
    ensures told { lines.new ≡ lines_byte (state_of controller.new) }
{
    let moved = take_bytes(controller, out);
    *lines = lines_of(controller);
    moved
}

/// The channel takes bytes from a controller, and no lines are reported.
fn take_bytes(controller: &mut WholeController, out: &mut [u8]) -> usize
    ensures { TakesBlock result out.old out.new (state_of controller.old) (state_of controller.new) × KeepsDrives controller.old controller.new }
{
    for i in 0..out.len() {
        match controller.dack_read() {
            None => return i,
            Some(byte) => out[i] = byte,
        }
    }
    out.len()
}

/// The channel gives the bytes of a buffer, from its beginning on, as long as they are asked for. Reports how many.
/// Afterwards `lines` has the controller's lines.
#[unsafe(no_mangle)]
pub extern "C" fn telwyddus_controller_dack_block_write(
    alloc: Global,
    slot: &mut ControllerSlot,
    bytes: &[u8],
    moved: &mut usize,
    lines: &mut u8,
) -> u32
    ensures { Serves (λ code old new. (code ≡ 0) × GivesBlock moved.new bytes.now (state_of old) (state_of new) × KeepsDrives old new × (lines.new ≡ lines_byte (state_of new)))
        ((moved.new ≡ moved.old) × (lines.new ≡ lines.old)) result slot.old.held.controller slot.new.held.controller }
{
    let Some(mut controller) = slot.take(alloc) else {
        return EMPTY;
    };
    *moved = give_block(&mut controller, bytes, lines);
    slot.put(controller);
    DONE
}

/// The channel gives bytes to a controller, and the lines are reported.
fn give_block(controller: &mut WholeController, bytes: &[u8], lines: &mut u8) -> usize
    ensures gives { GivesBlock result bytes.now (state_of controller.old) (state_of controller.new) }
    ensures drives { KeepsDrives controller.old controller.new }
    ensures told { lines.new ≡ lines_byte (state_of controller.new) }
{
    let moved = give_bytes(controller, bytes);
    *lines = lines_of(controller);
    moved
}

/// The channel gives bytes to a controller, and no lines are reported.
fn give_bytes(controller: &mut WholeController, bytes: &[u8]) -> usize
    ensures { GivesBlock result bytes.now (state_of controller.old) (state_of controller.new) × KeepsDrives controller.old controller.new }
{
    for i in 0..bytes.len() {
        if !controller.dack_write(bytes[i]) {
            return i;
        }
    }
    bytes.len()
}
