// What a medium in a drive is, its tracks, and its flat file. The medium stays in, and turns on.
ghost use Rattle.std.specs.Prelude.{◌≡◌};
ghost use Rattle.telwyddus_c.specs.Controllers.{drive_of};
ghost use Rattle.telwyddus_c.specs.Flats.{WritesFlat};
ghost use Rattle.telwyddus_c.specs.Shapes.{TellsShape};
ghost use Rattle.telwyddus_c.specs.Slots.{Serves, InBay};
ghost use Rattle.telwyddus_c.specs.Tracks.{WritesTrack};

use crate::code::{EMPTY, OUT_OF_RANGE};
use crate::flat::write_file;
use crate::shape::{MediumShape, tell_shape};
use crate::track::write_track;
use c_slots::{ControllerSlot, WholeController};
use std::alloc::Global;

/// Reports the shape of the medium in a bay.
#[unsafe(no_mangle)]
pub extern "C" fn telwyddus_controller_shape(
    alloc: Global,
    slot: &mut ControllerSlot,
    bay: u32,
    shape: &mut MediumShape,
) -> u32
    ensures { Serves (λ code old new. (new ≡ old) × InBay bay code (shape.new ≡ shape.old)
        (TellsShape (drive_of old bay).medium code shape.old shape.new)) (shape.new ≡ shape.old)
        result slot.old.held.controller slot.new.held.controller }
{
    let Some(controller) = slot.take(alloc) else {
        return EMPTY;
    };
    let code = shape_at(&controller, bay, shape);
    slot.put(controller);
    code
}

/// Reports the shape of the medium in a bay of a controller.
fn shape_at(controller: &WholeController, bay: u32, shape: &mut MediumShape) -> u32
    ensures { InBay bay result (shape.new ≡ shape.old) (TellsShape (drive_of controller.now bay).medium result shape.old shape.new) }
{
    if bay > 1 {
        return OUT_OF_RANGE;
    }
    tell_shape(controller.medium(bay as u8), shape)
}

/// Writes the words of a track of the medium in a bay to a buffer, and reports how many.
#[unsafe(no_mangle)]
pub extern "C" fn telwyddus_controller_track(
    alloc: Global,
    slot: &mut ControllerSlot,
    bay: u32,
    cylinder: u8,
    head: u8,
    out: &mut [u16],
    length: &mut usize,
) -> u32
    ensures { Serves (λ code old new. (new ≡ old) × InBay bay code ((out.new ≡ out.old) × (length.new ≡ length.old))
        (WritesTrack (drive_of old bay).medium cylinder head code out.old out.new length.old length.new)) ((out.new ≡ out.old) × (length.new ≡ length.old))
        result slot.old.held.controller slot.new.held.controller }
{
    let Some(controller) = slot.take(alloc) else {
        return EMPTY;
    };
    let code = track_at(&controller, bay, cylinder, head, out, length);
    slot.put(controller);
    code
}

/// Writes the words of a track of the medium in a bay of a controller.
fn track_at(
    controller: &WholeController,
    bay: u32,
    cylinder: u8,
    head: u8,
    out: &mut [u16],
    length: &mut usize,
) -> u32
    ensures { InBay bay result ((out.new ≡ out.old) × (length.new ≡ length.old))
        (WritesTrack (drive_of controller.now bay).medium cylinder head result out.old out.new length.old length.new) }
{
    if bay > 1 {
        return OUT_OF_RANGE;
    }
    write_track(controller.medium(bay as u8), cylinder, head, out, length)
}

/// Writes the flat file of the medium in a bay to a buffer, and reports its length. If there is no such file, the
/// cylinder and head of the first track that doesn't fit it are reported. Both are FF if the medium has another shape.
#[unsafe(no_mangle)]
pub extern "C" fn telwyddus_controller_flat(
    alloc: Global,
    slot: &mut ControllerSlot,
    bay: u32,
    out: &mut [u8],
    length: &mut usize,
    cylinder: &mut u8,
    head: &mut u8,
) -> u32
    ensures { Serves (λ code old new. (new ≡ old)
        × InBay bay code ((out.new ≡ out.old) × (length.new ≡ length.old) × (cylinder.new ≡ cylinder.old) × (head.new ≡ head.old))
        (WritesFlat (drive_of old bay).medium code out.old out.new length.old length.new cylinder.old cylinder.new head.old head.new))
        ((out.new ≡ out.old) × (length.new ≡ length.old) × (cylinder.new ≡ cylinder.old) × (head.new ≡ head.old))
        result slot.old.held.controller slot.new.held.controller }
{
    let Some(controller) = slot.take(alloc) else {
        return EMPTY;
    };
    let code = flat_at(alloc, &controller, bay, out, length, cylinder, head);
    slot.put(controller);
    code
}

/// Writes the flat file of the medium in a bay of a controller.
fn flat_at(
    alloc: Global,
    controller: &WholeController,
    bay: u32,
    out: &mut [u8],
    length: &mut usize,
    cylinder: &mut u8,
    head: &mut u8,
) -> u32
    ensures { InBay bay result ((out.new ≡ out.old) × (length.new ≡ length.old) × (cylinder.new ≡ cylinder.old) × (head.new ≡ head.old))
        (WritesFlat (drive_of controller.now bay).medium result out.old out.new length.old length.new cylinder.old cylinder.new head.old head.new) }
{
    if bay > 1 {
        return OUT_OF_RANGE;
    }
    write_file(
        alloc,
        controller.medium(bay as u8),
        out,
        length,
        cylinder,
        head,
    )
}
