// Saved states in buffers of C.
ghost use Rattle.std.specs.Prelude.{◌≡◌, ◌⊎◌, [], IfOk, Ok, Err};
ghost use Rattle.saved_state.specs.declared.whole.RestoreError.TheVariants as cause;
ghost use Rattle.telwyddus_c.specs.States.{WritesState, FindsState, behind, named};

use crate::buffer::write_bytes;
use crate::code::NO_MEMORY;
use flop_base::NoMemory;
use saved_state::{RestoreError, SavedBytes, SavedWhole, Source};
use std::alloc::Global;

/// What each state begins with: a name, and the number of the form of the bytes that follow.
const NAME: [u8; 8] = *b"TELWYDD\x04";

/// What the state of a controller without its media begins with.
pub(crate) const BARE: [u8; 8] = *b"TELWYDB\x04";

/// The bytes of a state, with a name in front of them.
pub(crate) fn save_behind<T: SavedWhole>(
    alloc: Global,
    name: &[u8],
    state: &T,
) -> Result<Vec<u8>, NoMemory>
    ensures fits { T.Fits state.now }
    ensures spelled { IfOk result (λ bytes. bytes.items ≡ behind name.now T.spelled state.now []) }
{
    let mut saved = SavedBytes::new(alloc);
    saved.part(name);
    state.save(alloc, &mut saved);
    saved.finish()
}

/// The state whose bytes these are, all of them, with this name in front. Bytes with another name are no state.
fn restore_behind<T: SavedWhole + Drop>(
    alloc: Global,
    name: &[u8],
    bytes: &[u8],
) -> Result<T, RestoreError>
    ensures found { IfOk result (λ state. T.Fits state × (bytes.now ≡ behind name.now T.spelled state [])) }
    ensures only { (state : T) → T.Fits state → bytes.now ≡ behind name.now T.spelled state []
        → (result ≡ Ok state) ⊎ (result ≡ Err cause.NoMemory) }
{
    let mut from = Source::new(bytes);
    from.part(name.len());
    let state = T::load(alloc, &mut from)?;
    let again = save_behind(alloc, name, &state)?;
    if again.as_slice() == bytes {
        Ok(state)
    } else {
        Err(RestoreError::NoState)
    }
}

/// Writes the bytes of a state to the beginning of a buffer, and reports how many. If the buffer is too short it stays
/// as it is, and their number is reported all the same.
pub(crate) fn write_state<T: SavedWhole>(
    alloc: Global,
    state: &T,
    out: &mut [u8],
    length: &mut usize,
) -> u32
    ensures { WritesState T.Fits (named T.spelled) state.now result out.old out.new length.old length.new }
{
    match save_behind(alloc, &NAME, state) {
        Err(_) => NO_MEMORY,
        Ok(bytes) => write_bytes(bytes.as_slice(), out, length),
    }
}

/// The state whose bytes these are, all of them, in a box.
pub(crate) fn read_state<T: SavedWhole + Drop>(
    alloc: Global,
    bytes: &[u8],
) -> Result<Box<T>, RestoreError>
    ensures { FindsState T.Fits (named T.spelled) bytes.now result }
{
    read_behind(alloc, &NAME, bytes)
}

/// The state whose bytes these are, with this name in front, in a box.
pub(crate) fn read_behind<T: SavedWhole + Drop>(
    alloc: Global,
    name: &[u8],
    bytes: &[u8],
) -> Result<Box<T>, RestoreError>
    ensures { FindsState T.Fits (behind name.now T.spelled) bytes.now result }
{
    match restore_behind(alloc, name, bytes) {
        Err(error) => Err(error),
        Ok(state) => match Box::new(alloc, state) {
            Err(_) => Err(RestoreError::NoMemory),
            Ok(found) => Ok(found),
        },
    }
}
