// The bays of the controller: media in and out, and what a front end shows.
ghost use Rattle.std.specs.Prelude.{◌≡◌, ◌≤◌, ◌-◌};
ghost use Rattle.telwyddus_c.specs.Controllers.{drive_of, InsertsAt, EjectsAt, ShowsWritten, TellsWritten, Shows};
ghost use Rattle.telwyddus_c.specs.Images.{WritesImage};
ghost use Rattle.telwyddus_c.specs.Media.{PutsIn};
ghost use Rattle.telwyddus_c.specs.Controllers.{state_of, lines_byte, KeepsBeside};
ghost use Rattle.telwyddus_c.specs.Drives.{OfDrive};
ghost use Rattle.telwyddus_c.specs.Slots.{Serves, InBay};

use crate::code::{DONE, EMPTY, FULL, HAS_MEDIUM, NO_MEDIUM, NO_MEMORY, OUT_OF_RANGE};
use crate::controller::lines::lines_of;
use crate::image::write_medium;
use c_slots::{ControllerSlot, MediumTray, TraySlot, WholeController};
use std::alloc::Global;

/// The motor is on.
const MOTOR: u8 = 1;

/// DOR selects the drive.
const SELECTED: u8 = 2;

/// The write gate is open.
const GATE: u8 = 4;

/// A medium is in.
const MEDIUM: u8 = 8;

/// Puts the medium of a tray into a bay. If a medium is in already, the new one stays in the tray. Afterwards `lines`
/// has the controller's lines.
#[unsafe(no_mangle)]
pub extern "C" fn telwyddus_controller_insert(
    alloc: Global,
    slot: &mut ControllerSlot,
    bay: u32,
    tray: &mut TraySlot,
    lines: &mut u8,
) -> u32
    ensures { Serves (λ code old new. InBay bay code ((new ≡ old) × (tray.new.held.tray ≡ tray.old.held.tray))
        (OfDrive bay code old ((new ≡ old) × (tray.new.held.tray ≡ tray.old.held.tray))
        (InsertsAt bay code tray.old.held.tray tray.new.held.tray old new)) × (lines.new ≡ lines_byte (state_of new)))
        ((tray.new.held.tray ≡ tray.old.held.tray) × (lines.new ≡ lines.old))
        result slot.old.held.controller slot.new.held.controller }
{
    let Some(mut controller) = slot.take(alloc) else {
        return EMPTY;
    };
    let code = insert_telling(alloc, &mut controller, bay, tray, lines);
    slot.put(controller);
    code
}

/// Puts the medium of a tray into a bay of a controller, and reports the lines.
fn insert_telling(
    alloc: Global,
    controller: &mut WholeController,
    bay: u32,
    tray: &mut TraySlot,
    lines: &mut u8,
) -> u32
    ensures inserts { InBay bay result ((controller.new ≡ controller.old) × (tray.new.held.tray ≡ tray.old.held.tray))
        (OfDrive bay result controller.old ((controller.new ≡ controller.old) × (tray.new.held.tray ≡ tray.old.held.tray))
        (InsertsAt bay result tray.old.held.tray tray.new.held.tray controller.old controller.new)) }
    ensures told { lines.new ≡ lines_byte (state_of controller.new) }
{
    let code = insert_from(alloc, controller, bay, tray);
    *lines = lines_of(controller);
    code
}

/// Puts the medium of a tray into a bay of a controller, and reports no lines.
fn insert_from(
    alloc: Global,
    controller: &mut WholeController,
    bay: u32,
    tray: &mut TraySlot,
) -> u32
    ensures { InBay bay result ((controller.new ≡ controller.old) × (tray.new.held.tray ≡ tray.old.held.tray))
        (OfDrive bay result controller.old ((controller.new ≡ controller.old) × (tray.new.held.tray ≡ tray.old.held.tray))
        (InsertsAt bay result tray.old.held.tray tray.new.held.tray controller.old controller.new)) }
{
    if bay > 1 {
        return OUT_OF_RANGE;
    }
    insert_attached(alloc, controller, bay as u8, tray)
}

/// Puts the medium of a tray into bay 0 or 1. A drive whose cable is pulled takes no medium.
fn insert_attached(
    alloc: Global,
    controller: &mut WholeController,
    bay: u8,
    tray: &mut TraySlot,
) -> u32
    requires { bay ≤ 1 }
    ensures { OfDrive bay result controller.old ((controller.new ≡ controller.old) × (tray.new.held.tray ≡ tray.old.held.tray))
        (InsertsAt bay result tray.old.held.tray tray.new.held.tray controller.old controller.new) }
{
    if controller.drive(bay).is_attached() {
        insert_from_tray(alloc, controller, bay, tray)
    } else {
        OUT_OF_RANGE
    }
}

/// Puts the medium of a tray into a bay whose drive is attached.
fn insert_from_tray(
    alloc: Global,
    controller: &mut WholeController,
    bay: u8,
    tray: &mut TraySlot,
) -> u32
    requires { bay ≤ 1 }
    ensures { InsertsAt bay result tray.old.held.tray tray.new.held.tray controller.old controller.new }
{
    let Some(mut inside) = tray.take(alloc) else {
        return NO_MEDIUM;
    };
    let code = insert(controller, bay, &mut inside);
    tray.put(inside);
    code
}

/// Puts the medium that a tray holds into a bay.
fn insert(controller: &mut WholeController, bay: u8, tray: &mut MediumTray) -> u32
    requires { bay ≤ 1 }
    ensures drive { PutsIn result tray.old tray.new (drive_of controller.old bay) (drive_of controller.new bay) }
    ensures beside { KeepsBeside bay (state_of controller.old) (state_of controller.new) }
{
    match tray.medium.take() {
        None => NO_MEDIUM,
        Some(medium) => match controller.insert(bay, medium) {
            Ok(()) => DONE,
            Err(back) => {
                tray.medium = Some(back);
                HAS_MEDIUM
            }
        },
    }
}

/// Takes the medium out of a bay, into a new tray. Afterwards `lines` has the controller's lines.
#[unsafe(no_mangle)]
pub extern "C" fn telwyddus_controller_eject(
    alloc: Global,
    slot: &mut ControllerSlot,
    bay: u32,
    tray: &mut TraySlot,
    lines: &mut u8,
) -> u32
    ensures { Serves (λ code old new. InBay bay code ((new ≡ old) × (tray.new.held.tray ≡ tray.old.held.tray))
        (EjectsAt bay code tray.old.held.tray tray.new.held.tray old new) × (lines.new ≡ lines_byte (state_of new)))
        ((tray.new.held.tray ≡ tray.old.held.tray) × (lines.new ≡ lines.old))
        result slot.old.held.controller slot.new.held.controller }
{
    let Some(mut controller) = slot.take(alloc) else {
        return EMPTY;
    };
    let code = eject_telling(alloc, &mut controller, bay, tray, lines);
    slot.put(controller);
    code
}

/// Takes the medium out of a bay of a controller, and reports the lines.
fn eject_telling(
    alloc: Global,
    controller: &mut WholeController,
    bay: u32,
    tray: &mut TraySlot,
    lines: &mut u8,
) -> u32
    ensures ejects { InBay bay result ((controller.new ≡ controller.old) × (tray.new.held.tray ≡ tray.old.held.tray))
        (EjectsAt bay result tray.old.held.tray tray.new.held.tray controller.old controller.new) }
    ensures told { lines.new ≡ lines_byte (state_of controller.new) }
{
    let code = eject_into(alloc, controller, bay, tray);
    *lines = lines_of(controller);
    code
}

/// Takes the medium out of a bay of a controller, and reports no lines.
fn eject_into(alloc: Global, controller: &mut WholeController, bay: u32, tray: &mut TraySlot) -> u32
    ensures { InBay bay result ((controller.new ≡ controller.old) × (tray.new.held.tray ≡ tray.old.held.tray))
        (EjectsAt bay result tray.old.held.tray tray.new.held.tray controller.old controller.new) }
{
    if bay > 1 {
        return OUT_OF_RANGE;
    }
    if tray.is_full() {
        return FULL;
    }
    let Ok(mut inside) = Box::new(alloc, MediumTray { medium: None }) else {
        return NO_MEMORY;
    };
    let Some(medium) = controller.eject(bay as u8) else {
        return NO_MEDIUM;
    };
    inside.medium = Some(medium);
    tray.put(inside);
    DONE
}

/// Writes the image file of the medium in a bay to a buffer, and reports its length. The medium stays in.
#[unsafe(no_mangle)]
pub extern "C" fn telwyddus_controller_image(
    alloc: Global,
    slot: &mut ControllerSlot,
    bay: u32,
    out: &mut [u8],
    length: &mut usize,
) -> u32
    ensures { Serves (λ code old new. (new ≡ old) × InBay bay code ((out.new ≡ out.old) × (length.new ≡ length.old))
        (WritesImage (drive_of old bay).medium code out.old out.new length.old length.new)) ((out.new ≡ out.old) × (length.new ≡ length.old))
        result slot.old.held.controller slot.new.held.controller }
{
    let Some(controller) = slot.take(alloc) else {
        return EMPTY;
    };
    let code = image_of(alloc, &controller, bay, out, length);
    slot.put(controller);
    code
}

/// Writes the image file of the medium in a bay of a controller.
fn image_of(
    alloc: Global,
    controller: &WholeController,
    bay: u32,
    out: &mut [u8],
    length: &mut usize,
) -> u32
    ensures { InBay bay result ((out.new ≡ out.old) × (length.new ≡ length.old))
        (WritesImage (drive_of controller.now bay).medium result out.old out.new length.old length.new) }
{
    if bay > 1 {
        return OUT_OF_RANGE;
    }
    write_medium(alloc, controller.medium(bay as u8), out, length)
}

/// Reports whether a word of the medium in a bay was replaced since it was put in, or since this sign was last
/// forgotten. Nothing changes.
#[unsafe(no_mangle)]
pub extern "C" fn telwyddus_controller_is_written(
    alloc: Global,
    slot: &mut ControllerSlot,
    bay: u32,
    written: &mut u8,
) -> u32
    ensures { Serves (λ code old new. (new ≡ old) × InBay bay code (written.new ≡ written.old)
        ((code ≡ 0) × ShowsWritten bay old written.new)) (written.new ≡ written.old)
        result slot.old.held.controller slot.new.held.controller }
{
    let Some(controller) = slot.take(alloc) else {
        return EMPTY;
    };
    let code = show_written(&controller, bay, written);
    slot.put(controller);
    code
}

/// Reports whether a word of the medium in a bay of a controller was replaced.
fn show_written(controller: &WholeController, bay: u32, written: &mut u8) -> u32
    ensures { InBay bay result (written.new ≡ written.old) ((result ≡ 0) × ShowsWritten bay controller.now written.new) }
{
    if bay > 1 {
        return OUT_OF_RANGE;
    }
    *written = u8::from(controller.is_written(bay as u8));
    DONE
}

/// Reports what `is_written` reports, and forgets it.
#[unsafe(no_mangle)]
pub extern "C" fn telwyddus_controller_written(
    alloc: Global,
    slot: &mut ControllerSlot,
    bay: u32,
    written: &mut u8,
) -> u32
    ensures { Serves (λ code old new. InBay bay code ((new ≡ old) × (written.new ≡ written.old))
        ((code ≡ 0) × TellsWritten bay old written.new new)) (written.new ≡ written.old)
        result slot.old.held.controller slot.new.held.controller }
{
    let Some(mut controller) = slot.take(alloc) else {
        return EMPTY;
    };
    let code = tell_written(&mut controller, bay, written);
    slot.put(controller);
    code
}

/// Reports whether a word of the medium in a bay of a controller was replaced, and forgets it.
fn tell_written(controller: &mut WholeController, bay: u32, written: &mut u8) -> u32
    ensures { InBay bay result ((controller.new ≡ controller.old) × (written.new ≡ written.old))
        ((result ≡ 0) × TellsWritten bay controller.old written.new controller.new) }
{
    if bay > 1 {
        return OUT_OF_RANGE;
    }
    *written = u8::from(controller.take_written(bay as u8));
    DONE
}

/// What a front end shows of a bay: the cylinder under the heads, and in a byte 1 for the motor, 2 for the selection, 4
/// for the write gate and 8 for a medium.
#[unsafe(no_mangle)]
pub extern "C" fn telwyddus_controller_bay(
    alloc: Global,
    slot: &mut ControllerSlot,
    bay: u32,
    cylinder: &mut u8,
    signs: &mut u8,
) -> u32
    ensures { Serves (λ code old new. (new ≡ old) × InBay bay code ((cylinder.new ≡ cylinder.old) × (signs.new ≡ signs.old))
        ((code ≡ 0) × Shows bay old cylinder.new signs.new)) ((cylinder.new ≡ cylinder.old) × (signs.new ≡ signs.old))
        result slot.old.held.controller slot.new.held.controller }
{
    let Some(controller) = slot.take(alloc) else {
        return EMPTY;
    };
    let code = show(&controller, bay, cylinder, signs);
    slot.put(controller);
    code
}

/// What a front end shows of a bay of a controller.
fn show(controller: &WholeController, bay: u32, cylinder: &mut u8, signs: &mut u8) -> u32
    ensures { InBay bay result ((cylinder.new ≡ cylinder.old) × (signs.new ≡ signs.old))
        ((result ≡ 0) × Shows bay controller.now cylinder.new signs.new) }
{
    if bay > 1 {
        return OUT_OF_RANGE;
    }
    let bay = bay as u8;
    *cylinder = controller.cylinder(bay);
    let motor = if controller.is_motor_on(bay) {
        MOTOR
    } else {
        0
    };
    let selected = if controller.selected() == bay {
        SELECTED
    } else {
        0
    };
    let gate = if controller.is_gate_open(bay) {
        GATE
    } else {
        0
    };
    let medium = if controller.medium(bay).is_some() {
        MEDIUM
    } else {
        0
    };
    *signs = motor + selected + gate + medium;
    DONE
}
