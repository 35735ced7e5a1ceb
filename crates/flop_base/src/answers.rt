// The answers of the layers: refusals of the driver, statuses of the program, and what can go wrong outside.
ghost use Rattle.std.specs.Prelude.{◌≡◌};
ghost use Rattle.flop_base.specs.Numbers.{code_number, status_number};
ghost use Rattle.flop_base.specs.declared.answers.LoadError.TheVariants as load;

use std::alloc::{AllocError, AllocFailed};
use std::fmt;
use thiserror::Error;

/// The data rate of a medium: 500 kbit/s (1.44 MB) or 250 kbit/s (720 KB).
#[derive(Clone, Copy, Debug, PartialEq, Eq)]
pub enum Rate {
    /// 500 kbit/s, as a 1.44 MB disk is recorded.
    R500,
    /// 250 kbit/s, as a 720 KB disk is recorded.
    R250,
}

/// Memory couldn't be allocated.
#[derive(Clone, Copy, Debug, PartialEq, Eq, Error)]
#[error("out of memory")]
pub struct NoMemory;

impl From<AllocError> for NoMemory {
    fn from(_: AllocError) -> Self {
        NoMemory
    }
}

impl<T: Drop> From<AllocFailed<T>> for NoMemory {
    fn from(_: AllocFailed<T>) -> Self {
        NoMemory
    }
}

/// A refusal of the driver. The numbers are the status codes of INT 13h (PC/AT).
#[derive(Clone, Copy, Debug, PartialEq, Eq, Error)]
pub enum Code {
    /// 01: no such bay, place, size, gap 3 or function, or a range that ends past user memory.
    #[error("bad request")]
    BadRequest,
    /// 02: no address mark, no data behind the address field, or a track that the layout doesn't fit on.
    #[error("no address mark found")]
    NoMark,
    /// 03: a write or a format of a medium that is write-protected.
    #[error("medium is write-protected")]
    Protected,
    /// 04: the track has address marks, but no sector with the sector ID was found.
    #[error("sector not found")]
    NotFound,
    /// 06: the bay isn't acknowledged.
    #[error("medium was changed")]
    Changed,
    /// 08: a DMA request waited too long.
    #[error("DMA overrun")]
    Overrun,
    /// 09: the first and the last byte of the range lie in different pages of 65,536 bytes.
    #[error("transfer crosses a 64 KB page")]
    Page,
    /// 10: the data field is damaged.
    #[error("CRC error")]
    BadCrc,
    /// 40: no track 0 after two recalibrations.
    #[error("seek failed")]
    Seek,
    /// 80: no medium is in, or its drive lost pulse after pulse.
    #[error("drive not ready")]
    NotReady,
}

impl Code {
    /// The byte that INT 13h has for this refusal.
    pub fn number(self) -> u8
        ensures { result ≡ code_number self }
    {
        match self {
            Code::BadRequest => 0x01,
            Code::NoMark => 0x02,
            Code::Protected => 0x03,
            Code::NotFound => 0x04,
            Code::Changed => 0x06,
            Code::Overrun => 0x08,
            Code::Page => 0x09,
            Code::BadCrc => 0x10,
            Code::Seek => 0x40,
            Code::NotReady => 0x80,
        }
    }
}

/// How a run of the program ended.
#[derive(Clone, Copy, Debug, PartialEq, Eq)]
pub enum Status {
    /// 0: all was run, and nothing refused.
    AllOk,
    /// 1: some request was refused, or a track can't be converted to another image format.
    SomeRefused,
    /// 2: the program doesn't know its arguments.
    BadWords,
    /// 3: a line of a text isn't understood, or the text is too long. Nothing of that text is run.
    BadJob,
    /// 4: a file doesn't have the format that it is loaded as, or it is too long.
    BadImage,
    /// 5: a file that the program loads isn't there.
    Absent,
    /// 6: a file of the folder couldn't be read or written.
    FileFault,
    /// 7: memory couldn't be allocated.
    NoMemory,
    /// 8: standard output failed.
    SinkFault,
}

impl Status {
    /// The exit status of the program.
    pub fn number(self) -> u8
        ensures { result ≡ status_number self }
    {
        match self {
            Status::AllOk => 0,
            Status::SomeRefused => 1,
            Status::BadWords => 2,
            Status::BadJob => 3,
            Status::BadImage => 4,
            Status::Absent => 5,
            Status::FileFault => 6,
            Status::NoMemory => 7,
            Status::SinkFault => 8,
        }
    }
}

impl fmt::Display for Status {
    fn fmt<W: fmt::Write>(&self, f: &mut fmt::Formatter<W>) -> fmt::Result {
        let text = match self {
            Status::AllOk => "all requests were done",
            Status::SomeRefused => "some requests were refused",
            Status::BadWords => "command words not understood",
            Status::BadJob => "text file not understood",
            Status::BadImage => "file refused",
            Status::Absent => "no such file",
            Status::FileFault => "file could not be read or written",
            Status::NoMemory => "out of memory",
            Status::SinkFault => "output could not be written",
        };
        write!(f, "{text}")
    }
}

/// Why a file wasn't loaded.
#[derive(Clone, Copy, Debug, PartialEq, Eq, Error)]
pub enum LoadError {
    /// No file has the name.
    #[error("no such file")]
    Absent,
    /// The file has more bytes than the call allows.
    #[error("file too long")]
    TooLong,
    /// The outside failed, which is counted as a fault.
    #[error("file could not be read")]
    Failed,
    /// Memory for the bytes couldn't be allocated.
    #[error("out of memory")]
    NoMemory,
}

impl From<AllocError> for LoadError {
    ghost from_gives = { λ _ error. error ≡ load.NoMemory };

    fn from(_: AllocError) -> Self {
        LoadError::NoMemory
    }
}

/// Why a file wasn't stored.
#[derive(Clone, Copy, Debug, PartialEq, Eq, Error)]
pub enum StoreError {
    /// The outside failed, which is counted as a fault.
    #[error("file could not be written")]
    Failed,
    /// Memory couldn't be allocated.
    #[error("out of memory")]
    NoMemory,
}

/// Why bytes weren't printed.
#[derive(Clone, Copy, Debug, PartialEq, Eq, Error)]
pub enum PutError {
    /// The outside failed, which is counted as a fault.
    #[error("output could not be written")]
    Failed,
    /// Memory couldn't be allocated.
    #[error("out of memory")]
    NoMemory,
}
