// Why a medium wasn't laid out anew.
ghost use Rattle.std.specs.Prelude.{◌≡◌};
ghost use Rattle.remaster.specs.declared.error.RemasterError.TheVariants as cause;

use flop_base::NoMemory;
use std::alloc::{AllocError, AllocFailed};
use thiserror::Error;

/// Why a medium wasn't laid out anew.
#[derive(Clone, Copy, Debug, PartialEq, Eq, Error)]
pub enum RemasterError {
    /// The first track, by cylinder, then head, whose sectors can't be laid out anew. Two of them have the same key,
    /// one names another cylinder or head, their sizes differ, there are more than 255, or no gap suits them.
    #[error("track {c} {h} can't be laid out anew")]
    Unfit { c: u8, h: u8 },
    /// Memory ran out.
    #[error("no memory")]
    NoMemory,
}

impl From<NoMemory> for RemasterError {
    ghost from_gives = { λ _ e. e ≡ cause.NoMemory };

    fn from(_: NoMemory) -> RemasterError {
        RemasterError::NoMemory
    }
}

impl From<AllocError> for RemasterError {
    ghost from_gives = { λ _ e. e ≡ cause.NoMemory };

    fn from(_: AllocError) -> RemasterError {
        RemasterError::NoMemory
    }
}

impl<T: Drop> From<AllocFailed<T>> for RemasterError {
    ghost from_gives = { λ _ e. e ≡ cause.NoMemory };

    fn from(_: AllocFailed<T>) -> RemasterError {
        RemasterError::NoMemory
    }
}
