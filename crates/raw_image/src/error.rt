// Why bytes are no image file.
ghost use Rattle.std.specs.Prelude.{◌≡◌};
ghost use Rattle.raw_image.specs.declared.error.ImageError.TheVariants as cause;

use flop_base::NoMemory;
use std::alloc::AllocError;
use thiserror::Error;

/// What is wrong with an image file. If several of these hold, it is the first one in this order. Lengths and offsets
/// count bytes, and the first byte has offset 0.
#[derive(Clone, Copy, Debug, PartialEq, Eq, Error)]
pub enum ImageError {
    /// The file ends before the header does, or before the words that the header tells of.
    #[error("too short, {need} needed, {have} there")]
    TooShort { need: usize, have: usize },
    /// The file doesn't begin with the bytes that an image begins with.
    #[error("bad magic")]
    BadMagic,
    /// The first field of the header that has no valid value.
    #[error("bad field at {offset}")]
    BadField { offset: usize },
    /// Bytes follow the last word.
    #[error("trailing byte at {offset}")]
    Trailing { offset: usize },
    /// Memory ran out. This says nothing of the file.
    #[error("no memory")]
    NoMemory,
}

impl From<NoMemory> for ImageError {
    ghost from_gives = { λ _ e. e ≡ cause.NoMemory };

    fn from(_: NoMemory) -> ImageError {
        ImageError::NoMemory
    }
}

impl From<AllocError> for ImageError {
    ghost from_gives = { λ _ e. e ≡ cause.NoMemory };

    fn from(_: AllocError) -> ImageError {
        ImageError::NoMemory
    }
}
