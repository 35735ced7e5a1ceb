// The controller's straps, its ports, and what can be read beside them.
ghost use Rattle.std.specs.Prelude.{◌≡◌, ◌==◌, not, ⊤};
ghost use Rattle.telwyddus_c.specs.Common.{selected_at, ReadsChip, WritesChip, data_rate};
ghost use Rattle.fdc_sequencer.specs.WordTimes.{nanoseconds};
ghost use Rattle.telwyddus_c.specs.Controllers.{state_of, KeepsDrives, lines_byte, StrapsSeeks, StrapsSteps};
ghost use Rattle.telwyddus_c.specs.Slots.{Serves};

use crate::code::{DONE, EMPTY};
use crate::controller::lines::lines_of;
use c_slots::{ControllerSlot, WholeController};
use std::alloc::Global;

/// Lets each command that names a cylinder seek it first, whatever CONFIGURE sets, as a strap of an adapter would. If
/// `on` is 0, that is left to CONFIGURE.
#[unsafe(no_mangle)]
pub extern "C" fn telwyddus_controller_strap_seeks(
    alloc: Global,
    slot: &mut ControllerSlot,
    on: u8,
) -> u32
    ensures { Serves (λ code old new. (code ≡ 0) × StrapsSeeks (not (on == 0)) old new) ⊤
        result slot.old.held.controller slot.new.held.controller }
{
    let Some(mut controller) = slot.take(alloc) else {
        return EMPTY;
    };
    controller.strap_seeks(on != 0);
    slot.put(controller);
    DONE
}

/// Lets the pulses of SEEK, RELATIVE SEEK and RECALIBRATE come in the time that SPECIFY sets. If `on` is 0, one comes
/// in each word time.
#[unsafe(no_mangle)]
pub extern "C" fn telwyddus_controller_strap_steps(
    alloc: Global,
    slot: &mut ControllerSlot,
    on: u8,
) -> u32
    ensures { Serves (λ code old new. (code ≡ 0) × StrapsSteps (not (on == 0)) old new) ⊤
        result slot.old.held.controller slot.new.held.controller }
{
    let Some(mut controller) = slot.take(alloc) else {
        return EMPTY;
    };
    controller.strap_steps(on != 0);
    slot.put(controller);
    DONE
}

/// Reads a port, 3F0 to 3F7. Afterwards `lines` has the controller's lines.
#[unsafe(no_mangle)]
pub extern "C" fn telwyddus_controller_read(
    alloc: Global,
    slot: &mut ControllerSlot,
    port: u16,
    value: &mut u8,
    lines: &mut u8,
) -> u32
    ensures { Serves (λ code old new. (code ≡ 0) × ReadsChip port (state_of old) value.new (state_of new) × KeepsDrives old new × (lines.new ≡ lines_byte (state_of new)))
        ((value.new ≡ value.old) × (lines.new ≡ lines.old)) result slot.old.held.controller slot.new.held.controller }
{
    let Some(mut controller) = slot.take(alloc) else {
        return EMPTY;
    };
    *value = read_port(&mut controller, port, lines);
    slot.put(controller);
    DONE
}

/// Reads a port of a controller, and reports the lines.
fn read_port(controller: &mut WholeController, port: u16, lines: &mut u8) -> u8
    ensures reads { ReadsChip port (state_of controller.old) result (state_of controller.new) }
    ensures drives { KeepsDrives controller.old controller.new }
    ensures told { lines.new ≡ lines_byte (state_of controller.new) }
{
    let value = controller.read(port);
    *lines = lines_of(controller);
    value
}

/// Writes a port, 3F0 to 3F7. Afterwards `lines` has the controller's lines.
#[unsafe(no_mangle)]
pub extern "C" fn telwyddus_controller_write(
    alloc: Global,
    slot: &mut ControllerSlot,
    port: u16,
    value: u8,
    lines: &mut u8,
) -> u32
    ensures { Serves (λ code old new. (code ≡ 0) × WritesChip port value (state_of old) (state_of new) × (lines.new ≡ lines_byte (state_of new)))
        (lines.new ≡ lines.old) result slot.old.held.controller slot.new.held.controller }
{
    let Some(mut controller) = slot.take(alloc) else {
        return EMPTY;
    };
    write_port(&mut controller, port, value, lines);
    slot.put(controller);
    DONE
}

/// Writes a port of a controller, and reports the lines.
fn write_port(controller: &mut WholeController, port: u16, value: u8, lines: &mut u8)
    ensures writes { WritesChip port value (state_of controller.old) (state_of controller.new) }
    ensures told { lines.new ≡ lines_byte (state_of controller.new) }
{
    controller.write(port, value);
    *lines = lines_of(controller);
}

/// The drive that DOR selects, 0 to 3. The drives of bays 2 and 3 are absent.
#[unsafe(no_mangle)]
pub extern "C" fn telwyddus_controller_selected(
    alloc: Global,
    slot: &mut ControllerSlot,
    bay: &mut u8,
) -> u32
    ensures { Serves (λ code old new. (code ≡ 0) × (new ≡ old) × (bay.new ≡ selected_at (state_of old).front.adapter)) (bay.new ≡ bay.old)
        result slot.old.held.controller slot.new.held.controller }
{
    let Some(controller) = slot.take(alloc) else {
        return EMPTY;
    };
    *bay = controller.selected();
    slot.put(controller);
    DONE
}

/// The nanoseconds of a device step at the rate that was chosen last.
#[unsafe(no_mangle)]
pub extern "C" fn telwyddus_controller_word_time(
    alloc: Global,
    slot: &mut ControllerSlot,
    word_time: &mut u32,
) -> u32
    ensures { Serves (λ code old new. (code ≡ 0) × (new ≡ old) × (word_time.new ≡ nanoseconds (data_rate (state_of old).front.adapter.controller))) (word_time.new ≡ word_time.old)
        result slot.old.held.controller slot.new.held.controller }
{
    let Some(controller) = slot.take(alloc) else {
        return EMPTY;
    };
    *word_time = controller.word_time();
    slot.put(controller);
    DONE
}
