//! Channel 2 of an 8237A DMA controller with its page register, at the ports of a PC/AT.
#![tactic(auto)]

mod channel;
pub mod laws;
mod word;

pub use channel::{Dma, MEMORY_SIZE};
