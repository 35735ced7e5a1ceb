//! Diskette drives: what every drive does, word time by word time, and what can be looked at in one. There are two
//! drives here, one without faults and one whose faults follow a list.
//!
//! A word time is the time in which sixteen cells pass under the heads. There is no other clock.
#![tactic(auto)]

mod boxed;
mod drive;
mod fault;
mod inspect;
pub mod laws;
mod limits;
mod mechanics;
mod media;
mod plain;
mod plan;
mod saving;
mod script;

pub use drive::{Drive, Heard, Turn};
pub use fault::Fault;
pub use inspect::Inspect;
pub use limits::{limited_cylinder, limited_place, limited_spin};
pub use media::{load_medium, save_medium};
pub use plain::PlainDrive;
pub use script::ScriptDrive;
