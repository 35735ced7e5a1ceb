// ImageDisk files in buffers of C.
ghost use Rattle.std.specs.Prelude.{◌≡◌, None};
ghost use Rattle.telwyddus_c.specs.Common.{option_copied};
ghost use Rattle.imagedisk.specs.Images.{IsImdImage};
ghost use Rattle.telwyddus_c.specs.Imds.{MakesTray, ReadsImd, WritesImd};
ghost use Rattle.telwyddus_c.specs.Slots.{Serves};

use crate::blank::fill;
use crate::buffer::write_bytes;
use crate::code::{BAD_IMAGE, EMPTY, FULL, NO_MEDIUM, NO_MEMORY, UNFIT};
use c_slots::TraySlot;
use imagedisk::{ImdError, ImdImage, from_medium, read_imd, to_medium, write_imd};
use raw_image::{ImageError, Medium};
use std::alloc::Global;
use track_format::NARROW_GAP;

/// Makes a tray with the medium of an ImageDisk file. If a track has no room for its sectors, however narrow the gaps
/// between them, its cylinder and head are reported.
#[unsafe(no_mangle)]
pub extern "C" fn telwyddus_tray_read_imd(
    alloc: Global,
    slot: &mut TraySlot,
    bytes: &[u8],
    cylinder: &mut u8,
    head: &mut u8,
) -> u32
    ensures { ReadsImd bytes.now result cylinder.old cylinder.new head.old head.new slot.old.held.tray slot.new.held.tray }
{
    if slot.is_full() {
        return FULL;
    }
    match read_imd(alloc, bytes) {
        Ok(image) => make_tray(alloc, slot, &image, cylinder, head),
        Err(ImageError::NoMemory) => NO_MEMORY,
        Err(_) => BAD_IMAGE,
    }
}

/// Makes a tray with the medium of an image, in an empty slot.
fn make_tray(
    alloc: Global,
    slot: &mut TraySlot,
    image: &ImdImage,
    cylinder: &mut u8,
    head: &mut u8,
) -> u32
    requires empty { slot.old.held.tray ≡ None }
    requires valid { IsImdImage image.now }
    ensures { MakesTray image.now result cylinder.old cylinder.new head.old head.new slot.old.held.tray slot.new.held.tray }
{
    match to_medium(alloc, image, NARROW_GAP) {
        Ok(medium) => fill(alloc, slot, medium),
        Err(ImdError::Unfit { c, h }) => {
            *cylinder = c;
            *head = h;
            UNFIT
        }
        Err(ImdError::NoMemory) => NO_MEMORY,
    }
}

/// Writes the ImageDisk file of the medium in a tray to a buffer, and reports its length. If such a file can't have a
/// track, the cylinder and head of that track are reported.
#[unsafe(no_mangle)]
pub extern "C" fn telwyddus_tray_write_imd(
    alloc: Global,
    slot: &mut TraySlot,
    out: &mut [u8],
    length: &mut usize,
    cylinder: &mut u8,
    head: &mut u8,
) -> u32
    ensures { Serves (λ code old new. (new ≡ old)
        × WritesImd old.medium code out.old out.new length.old length.new cylinder.old cylinder.new head.old head.new)
        ((out.new ≡ out.old) × (length.new ≡ length.old) × (cylinder.new ≡ cylinder.old) × (head.new ≡ head.old))
        result slot.old.held.tray slot.new.held.tray }
{
    let Some(tray) = slot.take(alloc) else {
        return EMPTY;
    };
    let code = write_file(alloc, tray.medium.as_ref(), out, length, cylinder, head);
    slot.put(tray);
    code
}

/// Writes the ImageDisk file of a medium to a buffer.
fn write_file(
    alloc: Global,
    medium: Option<&Medium>,
    out: &mut [u8],
    length: &mut usize,
    cylinder: &mut u8,
    head: &mut u8,
) -> u32
    ensures { WritesImd (option_copied medium.entry) result out.old out.new length.old length.new cylinder.old cylinder.new head.old head.new }
{
    let Some(medium) = medium else {
        return NO_MEDIUM;
    };
    match from_medium(alloc, medium) {
        Ok(image) => match write_imd(alloc, &image) {
            Err(_) => NO_MEMORY,
            Ok(bytes) => write_bytes(&bytes, out, length),
        },
        Err(ImdError::Unfit { c, h }) => {
            *cylinder = c;
            *head = h;
            UNFIT
        }
        Err(ImdError::NoMemory) => NO_MEMORY,
    }
}
