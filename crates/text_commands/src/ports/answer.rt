// What a line of port accesses answers.

use sector_model::Reason;

/// The answer to a line that was done.
#[derive(Drop)]
pub enum LineAnswer {
    /// A write or a wait, which has nothing to print.
    Nothing,
    /// The byte that a port gave.
    Byte { port: u16, value: u8 },
    /// Whether the interrupt latch was set before it was taken.
    Latch { set: bool },
    /// A medium was put in or taken out.
    Done,
    /// A medium wasn't put in or taken out.
    Refused(Reason),
}
