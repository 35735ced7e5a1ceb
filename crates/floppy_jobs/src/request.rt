// The requests of a job.
ghost use Rattle.std.specs.Prelude.{◌≡◌};

use flop_base::{Chrn, Name, Rate};

/// One request to the session. Addresses are offsets in the machine's memory, and lengths count bytes. A field may have
/// any value where no range is given. The session refuses a value that isn't possible.
#[derive(Drop)]
pub enum Request {
    /// Loads the image of this name and puts its medium in.
    Insert { bay: u8, name: Name },
    /// Puts in a blank 1.44 MB medium, to be stored under this name.
    Blank { bay: u8, name: Name, cylinders: u8 },
    /// Puts in a blank 720 KB medium, to be stored under this name.
    BlankDd { bay: u8, name: Name, cylinders: u8 },
    /// Takes the medium out and stores its image.
    Eject { bay: u8 },
    /// Acknowledges a change of the medium.
    Ack { bay: u8 },
    /// Reads the record with this key to memory.
    Read { bay: u8, key: Chrn, address: u32 },
    /// Writes memory to the record with this key.
    Write { bay: u8, key: Chrn, address: u32 },
    /// Writes memory to the record with this key and marks it deleted.
    WriteDeleted { bay: u8, key: Chrn, address: u32 },
    /// Formats the track of this cylinder and head.
    Format { bay: u8, c: u8, h: u8 },
    /// Sets bytes of memory.
    Fill { address: u32, length: u32, byte: u8 },
    /// Prints bytes of memory.
    Dump { address: u32, length: u32 },
    /// Takes the next spare drive into the bay.
    Unit { bay: u8 },
    /// Sets the data rate of the bay.
    SetRate { bay: u8, rate: Rate },
    /// Sets the number of attempts of the requests after this one, 1 to 10.
    Tries { tries: u8 },
}

impl Request {
    ghost use Rattle.floppy_jobs.specs.Spelling.{verb_text};

    /// The first word of the request's line.
    pub fn verb(&self) -> &'static str
        ensures { result.now ≡ verb_text self.now }
    {
        match self {
            Request::Insert { .. } => "insert",
            Request::Blank { .. } => "blank",
            Request::BlankDd { .. } => "blankdd",
            Request::Eject { .. } => "eject",
            Request::Ack { .. } => "ack",
            Request::Read { .. } => "read",
            Request::Write { .. } => "write",
            Request::WriteDeleted { .. } => "writedel",
            Request::Format { .. } => "format",
            Request::Fill { .. } => "fill",
            Request::Dump { .. } => "dump",
            Request::Unit { .. } => "unit",
            Request::SetRate { .. } => "rate",
            Request::Tries { .. } => "tries",
        }
    }
}
