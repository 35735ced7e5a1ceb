// What is done in front of the controller.
use crate::transfer::Transfer;
use fdc_commands::Results;

/// A sector that is moved.
#[derive(Clone, Copy, PartialEq, Eq, Debug)]
pub struct Moving {
    /// The command at this sector.
    pub transfer: Transfer,
    /// How many bytes of the sector still have to pass: none if the sector is passed over.
    pub left: u16,
    /// Whether the terminal count came.
    pub counted: bool,
    /// Whether a field with the mark that isn't wanted was passed over, at this sector or before.
    pub passed_over: bool,
    /// Whether the field of this sector is passed over.
    pub skipped: bool,
}

/// What is done in front of the controller.
#[derive(Clone, Copy, PartialEq, Eq, Debug)]
pub enum FrontStage {
    /// Nothing is done: each access is the controller's.
    Through,
    /// The heads go to the cylinder of a command. `counted` says that the terminal count came.
    Seeking { transfer: Transfer, counted: bool },
    /// A sector is moved, by one of the controller's own commands.
    Moving { moving: Moving },
    /// The command has ended, and these results wait.
    Telling { results: Results },
}
