// Why a medium has no flat file of a geometry.
ghost use Rattle.std.specs.Prelude.{◌≡◌};
ghost use Rattle.flat_files.specs.declared.file_fault.FileFault.TheVariants as cause;

use crate::fault::FlatFault;
use thiserror::Error;

/// Why a medium has no flat file of a geometry.
#[derive(Clone, Copy, Debug, PartialEq, Eq, Error)]
pub enum FileFault {
    /// There is no such geometry.
    #[error("no geometry")]
    NoForm,
    /// The medium isn't as a flat file of this geometry has it.
    #[error("{fault}")]
    Flat { fault: FlatFault },
}

impl From<FlatFault> for FileFault {
    ghost from_gives = { λ fault e. e ≡ cause.Flat fault };

    fn from(fault: FlatFault) -> FileFault {
        FileFault::Flat { fault }
    }
}
