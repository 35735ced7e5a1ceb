// Flat sector files in buffers of C.
ghost use Rattle.std.specs.Prelude.{◌≡◌};
ghost use Rattle.telwyddus_c.specs.Common.{option_copied};
ghost use Rattle.telwyddus_c.specs.Flats.{ReadsFlat, TellsFault, WritesFlat, WritesSectors, place_of as place_of_fault};
ghost use Rattle.telwyddus_c.specs.Slots.{Serves};

use crate::blank::fill;
use crate::buffer::write_bytes;
use crate::code::{BAD_IMAGE, EMPTY, FULL, NO_MEDIUM, NO_MEMORY, UNFIT};
use c_slots::TraySlot;
use flat_files::{FlatFault, flat_file, flat_medium};
use raw_image::{ImageError, Medium};
use std::alloc::Global;

/// What is reported in place of a cylinder and a head if no track is meant.
const NO_TRACK: u8 = 0xFF;

/// Makes a tray with the medium of a flat file: all sectors, by cylinder, head and record, of 1.44 MB or 720 KB.
#[unsafe(no_mangle)]
pub extern "C" fn telwyddus_tray_read_flat(alloc: Global, slot: &mut TraySlot, bytes: &[u8]) -> u32
    ensures { ReadsFlat bytes.now result slot.old.held.tray slot.new.held.tray }
{
    if slot.is_full() {
        return FULL;
    }
    match flat_medium(alloc, bytes) {
        Ok(medium) => fill(alloc, slot, medium),
        Err(ImageError::NoMemory) => NO_MEMORY,
        Err(_) => BAD_IMAGE,
    }
}

/// Writes the flat file of the medium in a tray to a buffer, and reports its length. If there is no such file, the
/// cylinder and head of the first track that doesn't fit it are reported. Both are FF if the medium has another shape.
#[unsafe(no_mangle)]
pub extern "C" fn telwyddus_tray_write_flat(
    alloc: Global,
    slot: &mut TraySlot,
    out: &mut [u8],
    length: &mut usize,
    cylinder: &mut u8,
    head: &mut u8,
) -> u32
    ensures { Serves (λ code old new. (new ≡ old)
        × WritesFlat old.medium code out.old out.new length.old length.new cylinder.old cylinder.new head.old head.new)
        ((out.new ≡ out.old) × (length.new ≡ length.old) × (cylinder.new ≡ cylinder.old) × (head.new ≡ head.old))
        result slot.old.held.tray slot.new.held.tray }
{
    let Some(tray) = slot.take(alloc) else {
        return EMPTY;
    };
    let code = write_file(alloc, tray.medium.as_ref(), out, length, cylinder, head);
    slot.put(tray);
    code
}

/// Writes the flat file of a medium, if there is a medium.
pub(crate) fn write_file(
    alloc: Global,
    medium: Option<&Medium>,
    out: &mut [u8],
    length: &mut usize,
    cylinder: &mut u8,
    head: &mut u8,
) -> u32
    ensures { WritesFlat (option_copied medium.entry) result out.old out.new length.old length.new cylinder.old cylinder.new head.old head.new }
{
    match medium {
        None => NO_MEDIUM,
        Some(medium) => write_sectors(alloc, medium, out, length, cylinder, head),
    }
}

/// Writes the flat file of a medium to a buffer.
fn write_sectors(
    alloc: Global,
    medium: &Medium,
    out: &mut [u8],
    length: &mut usize,
    cylinder: &mut u8,
    head: &mut u8,
) -> u32
    ensures { WritesSectors medium.now result out.old out.new length.old length.new cylinder.old cylinder.new head.old head.new }
{
    match flat_file(alloc, medium) {
        Ok(bytes) => write_bytes(&bytes, out, length),
        Err(fault) => tell_fault(fault, cylinder, head),
    }
}

/// Reports where a medium doesn't fit a flat file.
pub(crate) fn tell_fault(fault: FlatFault, cylinder: &mut u8, head: &mut u8) -> u32
    ensures { TellsFault fault result cylinder.old cylinder.new head.old head.new }
{
    let Some((c, h)) = place_of(fault) else {
        return NO_MEMORY;
    };
    *cylinder = c;
    *head = h;
    UNFIT
}

/// The cylinder and head of the track at which a medium doesn't fit a flat file. If memory is out, nothing is said of
/// the medium.
fn place_of(fault: FlatFault) -> Option<(u8, u8)>
    ensures { result ≡ place_of_fault fault }
{
    match fault {
        FlatFault::Shape => Some((NO_TRACK, NO_TRACK)),
        FlatFault::Unfit { c, h } => Some((c, h)),
        FlatFault::More { c, h } => Some((c, h)),
        FlatFault::Lacks { c, h, .. } => Some((c, h)),
        FlatFault::NoMemory => None,
    }
}
