// Buffers of C.
ghost use Rattle.telwyddus_c.specs.Buffers.{WritesBytes};

use crate::code::{DONE, TOO_SHORT};

/// Writes bytes to the beginning of a buffer, and reports how many. If the buffer is too short it stays as it is, and
/// the number of bytes is reported all the same.
pub(crate) fn write_bytes(bytes: &[u8], out: &mut [u8], length: &mut usize) -> u32
    ensures { WritesBytes bytes.now result out.old out.new length.new }
{
    *length = bytes.len();
    if out.len() < bytes.len() {
        return TOO_SHORT;
    }
    out[..bytes.len()].copy_from_slice(bytes);
    DONE
}
