//! The separator: it finds the fields of a revolution of the disk in its words, as they pass under the head.
//!
//! A revolution is the words from one index to the next. Each word has sixteen cells, the first in bit 15, and a field
//! may begin at any cell (IBM System 34 format). The separator keeps the last 128 cells and a few numbers, and no list.
#![tactic(auto)]

mod hunting;
pub mod laws;
mod passing;
mod reading;
mod register;
mod saving;
mod separator;
mod state;
mod waiting;

pub use state::{Seen, Separator};
