// The controller's side of a DMA channel of C's own: byte by byte.
ghost use Rattle.std.specs.Prelude.{◌≡◌};
ghost use Rattle.telwyddus_c.specs.Common.{told_chip};
ghost use Rattle.telwyddus_c.specs.Controllers.{state_of, KeepsDrives, lines_byte, TakesByte, GivesByte};
ghost use Rattle.telwyddus_c.specs.Slots.{Serves};

use crate::code::{DONE, EMPTY, NOT_ASKED};
use crate::controller::lines::lines_of;
use c_slots::{ControllerSlot, WholeController};
use std::alloc::Global;

/// The channel takes a byte, if one is asked for. Afterwards `lines` has the controller's lines, even if none was asked
/// for.
#[unsafe(no_mangle)]
pub extern "C" fn telwyddus_controller_dack_read(
    alloc: Global,
    slot: &mut ControllerSlot,
    byte: &mut u8,
    lines: &mut u8,
) -> u32
    ensures { Serves (λ code old new. TakesByte code (state_of old) byte.old byte.new (state_of new) × KeepsDrives old new × (lines.new ≡ lines_byte (state_of new)))
        ((byte.new ≡ byte.old) × (lines.new ≡ lines.old)) result slot.old.held.controller slot.new.held.controller }
{
    let Some(mut controller) = slot.take(alloc) else {
        return EMPTY;
    };
    let code = take_telling(&mut controller, byte, lines);
    slot.put(controller);
    code
}

/// The channel takes a byte from a controller, and the lines are reported.
fn take_telling(controller: &mut WholeController, byte: &mut u8, lines: &mut u8) -> u32
    ensures takes { TakesByte result (state_of controller.old) byte.old byte.new (state_of controller.new) }
    ensures drives { KeepsDrives controller.old controller.new }
    ensures told { lines.new ≡ lines_byte (state_of controller.new) }
{
    let code = take_byte(controller, byte);
    *lines = lines_of(controller);
    code
}

/// The channel takes a byte from a controller, and no lines are reported.
fn take_byte(controller: &mut WholeController, byte: &mut u8) -> u32
    ensures takes { TakesByte result (state_of controller.old) byte.old byte.new (state_of controller.new) }
    ensures drives { KeepsDrives controller.old controller.new }
{
    let Some(taken) = controller.dack_read() else {
        return NOT_ASKED;
    };
    *byte = taken;
    DONE
}

/// The channel gives a byte, if one is asked for. Afterwards `lines` has the controller's lines, even if none was asked
/// for.
#[unsafe(no_mangle)]
pub extern "C" fn telwyddus_controller_dack_write(
    alloc: Global,
    slot: &mut ControllerSlot,
    byte: u8,
    lines: &mut u8,
) -> u32
    ensures { Serves (λ code old new. GivesByte byte code (state_of old) (state_of new) × KeepsDrives old new × (lines.new ≡ lines_byte (state_of new)))
        (lines.new ≡ lines.old) result slot.old.held.controller slot.new.held.controller }
{
    let Some(mut controller) = slot.take(alloc) else {
        return EMPTY;
    };
    let code = give_telling(&mut controller, byte, lines);
    slot.put(controller);
    code
}

/// The channel gives a byte to a controller, and the lines are reported.
fn give_telling(controller: &mut WholeController, byte: u8, lines: &mut u8) -> u32
    ensures gives { GivesByte byte result (state_of controller.old) (state_of controller.new) }
    ensures drives { KeepsDrives controller.old controller.new }
    ensures told { lines.new ≡ lines_byte (state_of controller.new) }
{
    let code = give_byte(controller, byte);
    *lines = lines_of(controller);
    code
}

/// The channel gives a byte to a controller, and no lines are reported.
fn give_byte(controller: &mut WholeController, byte: u8) -> u32
    ensures gives { GivesByte byte result (state_of controller.old) (state_of controller.new) }
    ensures drives { KeepsDrives controller.old controller.new }
{
    if controller.dack_write(byte) {
        DONE
    } else {
        NOT_ASKED
    }
}

/// The channel gives the terminal count. Afterwards `lines` has the controller's lines.
#[unsafe(no_mangle)]
pub extern "C" fn telwyddus_controller_tc(
    alloc: Global,
    slot: &mut ControllerSlot,
    lines: &mut u8,
) -> u32
    ensures { Serves (λ code old new. (code ≡ 0) × (state_of new ≡ told_chip (state_of old)) × KeepsDrives old new × (lines.new ≡ lines_byte (state_of new)))
        (lines.new ≡ lines.old) result slot.old.held.controller slot.new.held.controller }
{
    let Some(mut controller) = slot.take(alloc) else {
        return EMPTY;
    };
    count_out(&mut controller, lines);
    slot.put(controller);
    DONE
}

/// The channel gives a controller the terminal count, and the lines are reported.
fn count_out(controller: &mut WholeController, lines: &mut u8)
    ensures counted { state_of controller.new ≡ told_chip (state_of controller.old) }
    ensures drives { KeepsDrives controller.old controller.new }
    ensures told { lines.new ≡ lines_byte (state_of controller.new) }
{
    controller.tc();
    *lines = lines_of(controller);
}
