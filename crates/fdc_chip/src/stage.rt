// What is under way.
use crate::answer::ChipAnswer;
use fdc_commands::Results;
use fdc_registers::{St1, St2};
use flop_base::Chrn;

/// What is under way.
#[derive(Clone, Copy, PartialEq, Eq, Debug)]
pub enum ChipStage {
    /// Nothing is under way: the bytes of a command come, and heads may move.
    Ready,
    /// A command is whole, and is done once the heads stand.
    Held,
    /// The inner controller executes a command.
    Busy { task: ChipTask },
    /// The host reads an answer. It has read this many of its bytes.
    Telling { answer: ChipAnswer, read: u8 },
}

/// What a command of the inner controller is executed for.
#[derive(Clone, Copy, PartialEq, Eq, Debug)]
pub enum ChipTask {
    /// The command is the one that the host sent.
    Sent,
    /// A READ ID looks which cylinder passes, after a sector that wasn't found.
    Sought { results: Results },
    /// A READ ID is executed in place of a command that this medium can't have. With MFM it may see an address mark.
    Refused { unit: u8, key: Chrn, mfm: bool },
    /// A READ DATA is executed for a VERIFY, and its bytes go nowhere. This many are left before the terminal count.
    Verify { left: u32 },
    /// Commands of one sector are executed for a READ TRACK.
    Track { track: Track },
}

/// A READ TRACK.
#[derive(Clone, Copy, PartialEq, Eq, Debug)]
pub struct Track {
    /// The head in bit 2 and the drive in bits 1 and 0, as they were sent.
    pub unit: u8,
    /// The sector ID that was sent.
    pub key: Chrn,
    /// How many sectors are left.
    pub left: u16,
    pub place: Place,
    /// Whether the terminal count came.
    pub counted: bool,
    /// Whether an address field had the sector ID.
    pub met: bool,
    /// Whether the heads went to the cylinder first, by an implied seek.
    pub seeks: bool,
    /// What was wrong with any field.
    pub st1: St1,
    pub st2: St2,
}

/// Where a READ TRACK stands.
#[derive(Clone, Copy, PartialEq, Eq, Debug)]
pub enum Place {
    /// It waits for the index pulse.
    Index,
    /// It waits for the next address field.
    Address,
    /// It reads the data field after that address field.
    Data,
}
