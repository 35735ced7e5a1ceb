//! The controller with its two drives, and commands of several sectors (Intel 82077AA data sheet: MT, SK, EOT, implied
//! seeks) in front of it. The sequencer makes commands of one sector of each such command, sector by sector.
//!
//! The bytes of commands are collected by a layer in front, the chip. It gives whole commands here, and takes their
//! results.
#![tactic(auto)]

mod adapter;
mod bays;
mod channel;
mod commands;
mod field;
mod moving;
mod opcode;
mod ports;
mod refitting;
mod saving;
mod senses;
mod sequencer;
mod stage;
mod still;
mod transfer;

pub use adapter::DisketteAdapter;
pub use opcode::{Opcode, Operation};
pub use sequencer::Sequencer;
pub use stage::{FrontStage, Moving};
pub use transfer::{Transfer, drive_bit};
