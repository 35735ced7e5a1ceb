//! A desk for single sectors: a station with two drives that have no faults.
//!
//! Media go into its bays, and each call reads, writes or formats there. Each call is a step of the sector model, which
//! nothing disturbs.
#![tactic(auto)]

mod desk;
mod sectors;

pub use desk::SectorDesk;
