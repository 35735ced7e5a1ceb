// Media outside drives.
ghost use Rattle.std.specs.Prelude.{◌≡◌};
ghost use Rattle.telwyddus_c.specs.Slots.{Frees, Moves, Serves};
ghost use Rattle.telwyddus_c.specs.Images.{ReadsImage, WritesImage};

use crate::blank::fill;
use crate::code::{BAD_IMAGE, DONE, EMPTY, FULL, NO_MEMORY};
use crate::image::write_medium;
use c_slots::TraySlot;
use raw_image::{ImageError, read_image};
use std::alloc::Global;

/// Makes a tray with the medium that an image file holds.
#[unsafe(no_mangle)]
pub extern "C" fn telwyddus_tray_read(alloc: Global, slot: &mut TraySlot, bytes: &[u8]) -> u32
    ensures { ReadsImage bytes.now result slot.old.held.tray slot.new.held.tray }
{
    if slot.is_full() {
        return FULL;
    }
    match read_image(alloc, bytes) {
        Ok(medium) => fill(alloc, slot, medium),
        Err(ImageError::NoMemory) => NO_MEMORY,
        Err(_) => BAD_IMAGE,
    }
}

/// Writes the image file of the medium in a tray to a buffer, and reports its length.
#[unsafe(no_mangle)]
pub extern "C" fn telwyddus_tray_write(
    alloc: Global,
    slot: &mut TraySlot,
    out: &mut [u8],
    length: &mut usize,
) -> u32
    ensures { Serves (λ code old new. (new ≡ old) × WritesImage old.medium code out.old out.new length.old length.new) ((out.new ≡ out.old) × (length.new ≡ length.old))
        result slot.old.held.tray slot.new.held.tray }
{
    let Some(tray) = slot.take(alloc) else {
        return EMPTY;
    };
    let code = write_medium(alloc, tray.medium.as_ref(), out, length);
    slot.put(tray);
    code
}

/// Frees a tray and its medium.
#[unsafe(no_mangle)]
pub extern "C" fn telwyddus_tray_free(alloc: Global, slot: &mut TraySlot) -> u32
    ensures { Frees result slot.old.held.tray slot.new.held.tray }
{
    match slot.take(alloc) {
        None => EMPTY,
        Some(_tray) => DONE,
    }
}

/// Moves a tray, with its medium, into a slot that is empty.
#[unsafe(no_mangle)]
pub extern "C" fn telwyddus_tray_move(alloc: Global, to: &mut TraySlot, from: &mut TraySlot) -> u32
    ensures { Moves result from.old.held.tray from.new.held.tray to.old.held.tray to.new.held.tray }
{
    if to.is_full() {
        return FULL;
    }
    let Some(tray) = from.take(alloc) else {
        return EMPTY;
    };
    to.put(tray);
    DONE
}
