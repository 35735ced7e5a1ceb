// What the session answers to a request.
ghost use Rattle.std.specs.Prelude.{◌≡◌};
ghost use Rattle.sector_model.specs.declared.reply.Stop.TheVariants as stop;

use flop_base::{Bytes, Code, Name, NoMemory};
use raw_image::ImageError;
use std::fmt;
use thiserror::Error;

/// The answer to a request that was run.
#[derive(Drop)]
pub enum Reply {
    /// The request was done. A field that was read isn't marked deleted.
    Done,
    /// A field was read, and its mark says that it is deleted.
    DoneDeleted,
    /// The bytes of memory from the address on.
    Bytes { address: u32, content: Bytes },
    /// The request was refused, for this reason.
    Refused(Reason),
}

/// Why a request was refused. A request that the driver sent to the drive may have changed memory or the medium. Any
/// other request changed nothing.
#[derive(Clone, Copy, Debug, PartialEq, Eq, Error)]
pub enum Reason {
    /// The driver refused the request.
    #[error("{0}")]
    Driver(Code),
    /// The bay is loaded.
    #[error("bay is loaded")]
    Busy,
    /// The bay isn't loaded.
    #[error("bay is empty")]
    Empty,
    /// No spare drive is left.
    #[error("no spare drive is left")]
    NoSpare,
}

/// What stops a run.
#[derive(Drop)]
pub enum Stop {
    /// The file is no image.
    BadImage { name: Name, error: ImageError },
    /// The file has more than `most` bytes.
    TooLong { name: Name, most: usize },
    /// There is no file of this name.
    Absent { name: Name },
    /// The shelf failed.
    FileFault,
    /// Memory couldn't be allocated.
    NoMemory,
}

impl fmt::Display for Stop {
    fn fmt<W: fmt::Write>(&self, f: &mut fmt::Formatter<W>) -> fmt::Result {
        match self {
            Stop::BadImage { name, error } => write!(f, "{}: {error}", name.as_str()),
            Stop::TooLong { name, most } => write!(f, "{}: more than {most} bytes", name.as_str()),
            Stop::Absent { name } => write!(f, "{}: no such file", name.as_str()),
            Stop::FileFault => write!(f, "file could not be read or written"),
            Stop::NoMemory => write!(f, "out of memory"),
        }
    }
}

impl From<NoMemory> for Stop {
    ghost from_gives = { λ _ stopped. stopped ≡ stop.NoMemory };

    fn from(_: NoMemory) -> Self {
        Stop::NoMemory
    }
}
