//! A rescue of a diskette that is read in several runs. Here are the log of the records that weren't read, as a text
//! that is read and written exactly, the records that a run asks for, what follows each read, and how a run ends.
#![tactic(auto)]

mod course;
mod keys;
pub mod laws;
mod line;
mod outcome;
mod read;
mod write;

pub use course::{AfterRead, after_read, read_request};
pub use keys::{logged_keys, standard_keys};
pub use line::LogLine;
pub use outcome::Outcome;
pub use read::{LogError, read_log};
pub use write::write_log;
