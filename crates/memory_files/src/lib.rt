//! Files and printed lines in memory, which report what they hold, with the program running on them. The crate also has
//! a session over a machine, request by request.
#![tactic(auto)]

mod lines;
mod memory;
mod session;
mod shelf;
mod unfailing;
mod words;

pub use memory::{MemShelf, MemSink};
pub use session::MachineSession;
pub use shelf::RunShelf;
pub use words::{WordsError, split_words};
