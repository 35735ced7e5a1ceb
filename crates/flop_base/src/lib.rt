//! What every layer of the diskette path names: sector keys, codes, statuses, texts, and the outside world
//! as two traits, a shelf of named files and a sink of printed lines.
//!
//! The crate also has definitions for machine, driver and sector model. They are pairs of values for the two bays, the
//! counts of their drives with how they change, and user memory with its size.
#![tactic(auto)]

mod answers;
mod key;
mod shelf;
mod sink;
pub mod standard;
mod text;
mod two;

pub use answers::{Code, LoadError, NoMemory, PutError, Rate, Status, StoreError};
pub use key::{Chrn, sector_size};
pub use shelf::Shelf;
pub use sink::Sink;
pub use text::{Bytes, Name};
pub use two::Two;

/// The size of user memory in bytes. It goes from 00000 to EFFFF; the page above it belongs to the driver.
pub const USER_BYTES: u32 = 983_040;
