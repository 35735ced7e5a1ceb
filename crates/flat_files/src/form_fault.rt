// Why a flat file makes no medium.
ghost use Rattle.std.specs.Prelude.{◌≡◌};
ghost use Rattle.flat_files.specs.declared.form_fault.FormFault.TheVariants as cause;

use flop_base::NoMemory;
use thiserror::Error;

/// Why a flat file makes no medium.
#[derive(Clone, Copy, Debug, PartialEq, Eq, Error)]
pub enum FormFault {
    /// There is no such geometry.
    #[error("no geometry")]
    NoForm,
    /// The file has another length.
    #[error("another length")]
    Length,
    /// A track has no room for its sectors, however narrow the gaps between them.
    #[error("no room on a track")]
    Crowded,
    /// Memory ran out. This says nothing of the file.
    #[error("no memory")]
    NoMemory,
}

impl From<NoMemory> for FormFault {
    ghost from_gives = { λ _ e. e ≡ cause.NoMemory };

    fn from(_: NoMemory) -> FormFault {
        FormFault::NoMemory
    }
}
