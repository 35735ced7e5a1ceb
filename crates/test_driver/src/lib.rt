//! A bench for a driver: a machine in memory that runs one command at a time and has the troubles that its user plans,
//! and a driver that is set up on it.
#![tactic(auto)]

mod bench;
mod commands;
mod counts;
mod drive;
mod driven;
mod drives;
mod formatting;
mod reading;
mod script;
mod writing;

pub use driven::DrivenBench;
pub use script::{Call, CommandTrouble};
