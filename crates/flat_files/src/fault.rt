// Why a medium has no flat file.
ghost use Rattle.std.specs.Prelude.{◌≡◌};
ghost use Rattle.flat_files.specs.declared.fault.FlatFault.TheVariants as cause;

use flop_base::NoMemory;
use std::alloc::AllocError;
use thiserror::Error;

/// Why a medium has no flat file.
#[derive(Clone, Copy, Debug, PartialEq, Eq, Error)]
pub enum FlatFault {
    /// The medium has other cylinders, other heads or another rate than such a file.
    #[error("another geometry")]
    Shape,
    /// The first track with sectors of several sizes, or of a size code that names no size.
    #[error("track {c} {h} unfit")]
    Unfit { c: u8, h: u8 },
    /// The first track with more sectors than a flat file takes from it, or with one that is marked as deleted.
    #[error("track {c} {h} has more")]
    More { c: u8, h: u8 },
    /// The first sector that isn't there, or whose data are missing or damaged.
    #[error("sector {c} {h} {r} lacking")]
    Lacks { c: u8, h: u8, r: u8 },
    /// Memory ran out. This says nothing of the medium.
    #[error("no memory")]
    NoMemory,
}

impl From<NoMemory> for FlatFault {
    ghost from_gives = { λ _ e. e ≡ cause.NoMemory };

    fn from(_: NoMemory) -> FlatFault {
        FlatFault::NoMemory
    }
}

impl From<AllocError> for FlatFault {
    ghost from_gives = { λ _ e. e ≡ cause.NoMemory };

    fn from(_: AllocError) -> FlatFault {
        FlatFault::NoMemory
    }
}
