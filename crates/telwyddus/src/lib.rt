//! The library under one name: what a user of it calls, by subject.
//!
//! Nothing is defined here. The definitions that clauses cite are in `specs`, by the same subjects.
#![tactic(auto)]

pub mod controller;
pub mod disk;
pub mod driver;
pub mod machine;
pub mod program;
pub mod track;

pub use flop_base::{Chrn, Code, NoMemory, Rate, sector_size, standard};
pub use saved_state::{RestoreError, restore_state, save_state};
