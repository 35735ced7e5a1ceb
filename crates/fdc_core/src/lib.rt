//! The diskette controller (Intel 82077AA data sheet, in PC/AT mode, in outline): its ports, its commands, its reset
//! and polling, and its side of the DMA channel, device step by device step.
#![tactic(auto)]

mod commands;
mod contents;
mod controller;
mod courses;
mod dma;
pub mod drives;
mod fields;
mod formatting;
pub mod laws;
mod ports;
mod quiet;
mod reading;
mod saving;
mod steps;
mod transfers;
mod whole;
mod writing;

pub use controller::{Fdc, Lines};
pub use fdc_phases::DataRate;
