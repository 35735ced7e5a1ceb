// A whole state to bytes and back.
ghost use Rattle.std.specs.Prelude.{◌≡◌, ◌⊎◌, [], IfOk, Ok, Err};
ghost use Rattle.saved_state.specs.declared.whole.RestoreError.TheVariants as cause;

use crate::saved::SavedWhole;
use crate::saved_bytes::SavedBytes;
use crate::source::Source;
use flop_base::NoMemory;
use std::alloc::Global;
use thiserror::Error;

/// Why a state isn't restored.
#[derive(Clone, Copy, Debug, PartialEq, Eq, Error)]
pub enum RestoreError {
    /// The bytes are those of no state.
    #[error("no saved state")]
    NoState,
    /// Memory couldn't be allocated. This says nothing of the bytes.
    #[error("no memory")]
    NoMemory,
}

impl From<NoMemory> for RestoreError {
    ghost from_gives = { λ _ e. e ≡ cause.NoMemory };

    fn from(_: NoMemory) -> RestoreError {
        RestoreError::NoMemory
    }
}

/// The bytes of a state.
pub fn save_state<T: SavedWhole>(alloc: Global, state: &T) -> Result<Vec<u8>, NoMemory>
    ensures fits { T.Fits state.now }
    ensures spelled { IfOk result (λ bytes. bytes.items ≡ T.spelled state.now []) }
{
    let mut saved = SavedBytes::new(alloc);
    state.save(alloc, &mut saved);
    saved.finish()
}

/// The state that has exactly these bytes.
pub fn restore_state<T: SavedWhole + Drop>(alloc: Global, bytes: &[u8]) -> Result<T, RestoreError>
    // What is restored has these bytes.
    ensures found { IfOk result (λ state. T.Fits state × (bytes.now ≡ T.spelled state [])) }
    // The state that was saved is restored, unless memory runs out.
    ensures only { (state : T) → T.Fits state → bytes.now ≡ T.spelled state []
        → (result ≡ Ok state) ⊎ (result ≡ Err cause.NoMemory) }
{
    let state = T::load(alloc, &mut Source::new(bytes))?;
    let again = save_state(alloc, &state)?;
    if again.as_slice() == bytes {
        Ok(state)
    } else {
        Err(RestoreError::NoState)
    }
}
