//! The machine of a PC/AT around its diskette controller. It has the ports, memory, DMA channel 2, interrupt line 6 as
//! a latch, and two drives. It goes on device step by device step.
//!
//! A device step is one word time. Nothing moves outside of device steps. `wait`, `run_to_irq` and `wait_irq` run
//! device steps, and the timing (pace) runs some after each port access.
#![tactic(auto)]

mod bus;
mod chips;
mod handling;
mod machine;
mod memory;
mod ports;
mod saving;
mod steps;

pub use machine::{Machine, MachineOf};
