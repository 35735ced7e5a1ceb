//! Line 6 of a PC's interrupt controller as one latch, and the timing (pace) of a machine beside its program.
//!
//! The timing is three lists from outside (`Pace`), and each of them as the machine uses it up. They are the gaps after
//! port accesses, the spurious interrupts (strays), and the holds of DMA requests, with a count of the stalls.
#![tactic(auto)]

mod gaps;
mod holding;
mod latch;
pub mod laws;
mod pace;
mod queues;
mod strays;

pub use gaps::Gaps;
pub use holding::{DmaRequest, Holding};
pub use latch::IrqLatch;
pub use pace::Pace;
pub use strays::Strays;
