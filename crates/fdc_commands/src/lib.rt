//! The bytes of the controller's commands and of their results (Intel 82077AA data sheet), read and written. The crate
//! also has the controller's seeks: the present cylinder number of each drive, step pulses, seek bits and the results
//! that SENSE INTERRUPT takes.
#![tactic(auto)]

mod bytes;
pub mod codes;
mod command;
pub mod laws;
mod motion;
mod results;
mod saving;
mod seeks;
mod spelled;

pub use bytes::{Accepted, CommandBytes};
pub use command::Command;
pub use motion::{Motion, Seek};
pub use results::Results;
pub use seeks::Seeks;
pub use spelled::SpelledCommand;
