//! The commands of the machine, one at a time: what stands between a driver and the chips. A command is set up at the
//! ports, sent, and awaited at interrupt line 6; then its results are read. Above the commands is the station: a
//! machine with its driver and spare drives, on which a session works.
//!
//! Everything goes by way of the chips: fields go through DMA channel 2, and only the keys of a format are put into the
//! driver's page. Only the driver reads and writes sectors. The calls that a session makes past the driver, on media,
//! drives and user memory, go to the machine itself, and each of them is counted there.
#![tactic(auto)]

mod asking;
mod calls;
mod channel;
mod codes;
mod commands;
mod flags;
mod formatting;
mod handling;
mod heads;
mod hearing;
pub mod laws;
mod machine;
mod motors;
mod ports;
mod reading;
mod results;
mod sending;
mod set_up;
mod start;
mod station;
mod writing;

pub use machine::CommandedMachine;
pub use station::MachineStation;
