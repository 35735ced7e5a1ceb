// Image files in buffers of C.
ghost use Rattle.telwyddus_c.specs.Common.{option_copied};
ghost use Rattle.telwyddus_c.specs.Images.{WritesImage};

use crate::buffer::write_bytes;
use crate::code::{NO_MEDIUM, NO_MEMORY};
use raw_image::{Medium, write_image};
use std::alloc::Global;

/// Writes the image file of a medium to the beginning of a buffer, and reports its length. If the buffer is too short
/// it stays as it is, and the length is reported all the same.
pub(crate) fn write_medium(
    alloc: Global,
    medium: Option<&Medium>,
    out: &mut [u8],
    length: &mut usize,
) -> u32
    ensures { WritesImage (option_copied medium.entry) result out.old out.new length.old length.new }
{
    let Some(medium) = medium else {
        return NO_MEDIUM;
    };
    match write_image(alloc, medium) {
        Err(_) => NO_MEMORY,
        Ok(bytes) => write_bytes(bytes.as_slice(), out, length),
    }
}
