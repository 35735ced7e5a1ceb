//! The driver of two diskette bays. It has a read, a write, a format and an acknowledgement, each in a few attempts. It
//! works on a machine that runs one command at a time (the trait `Commands`).
//!
//! Each call is a step of the sector model, whatever faults the drives have and however long DMA requests wait. No call
//! allocates memory, and only the machine's commands change its user memory. Two parts stand alone: how often the
//! driver tries and how it prepares an attempt, and what it keeps of the change line.
#![tactic(auto)]

mod acknowledging;
mod change_line;
mod commands;
mod driver;
mod formatting;
mod preparing;
mod reading;
mod retry_plan;
mod writing;

pub use change_line::Gate;
pub use commands::Commands;
pub use driver::Driver;
pub use retry_plan::{Prepare, START_TRIES, preparation};
