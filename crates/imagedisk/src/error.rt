// Why a diskette has no image, or an image no diskette.
ghost use Rattle.std.specs.Prelude.{◌≡◌};
ghost use Rattle.imagedisk.specs.declared.error.ImdError.TheVariants as cause;

use flop_base::NoMemory;
use thiserror::Error;

/// Why a diskette has no ImageDisk file, or why such a file has no diskette.
#[derive(Clone, Copy, Debug, PartialEq, Eq, Error)]
pub enum ImdError {
    /// The first track that the other form can't represent.
    #[error("track {c} {h} unfit")]
    Unfit { c: u8, h: u8 },
    /// Memory ran out.
    #[error("no memory")]
    NoMemory,
}

impl From<NoMemory> for ImdError {
    ghost from_gives = { λ _ e. e ≡ cause.NoMemory };

    fn from(_: NoMemory) -> ImdError {
        ImdError::NoMemory
    }
}
