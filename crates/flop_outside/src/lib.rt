//! The trusted edge to the outside: files of the current folder, and standard output. Neither of them tells the proofs
//! what it holds.
#![tactic(auto)]

mod known;
mod replace;
mod shelf;
mod sink;

pub use shelf::FileShelf;
pub use sink::StreamSink;
