//! The sector model: what a station with two diskette bays does, call by call, and what a session and a job make of it.
//! The model speaks of sectors on disks and of bytes in memory. The crate has definitions, the types of a session's
//! answers, the trait of stations, and the tests of what can be asked for. It has no controller, no register and no
//! cell buffer.
#![tactic(auto)]

pub mod laws;
mod orders;
mod reply;
mod station;

pub use orders::{crosses_page, is_place, is_sector_request, most_format_gap};
pub use reply::{Reason, Reply, Stop};
pub use station::Station;
