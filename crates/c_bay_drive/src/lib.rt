//! The drive of a bay. It has planned faults, and it reports which tracks were written. It can be detached, as if its
//! cable were pulled, and attached again.
#![tactic(auto)]

mod bay;
mod cable;
mod map;

pub use bay::BayDrive;
pub use map::TrackMap;
