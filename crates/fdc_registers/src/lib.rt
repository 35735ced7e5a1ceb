//! The registers of the diskette controller in PC/AT mode (Intel 82077AA data sheet), as sets of named bits. A set is
//! its byte. Any byte is a set, also one with bits that have no name. `specs/` has a word for each bit. Call `union`
//! and the other methods of `Flags`, whose contracts are exact. The operators, such as `|`, have no contracts. The
//! crate also has the data FIFO, with the rule by which it asks for DMA.
#![tactic(auto)]

mod drive_lines;
mod fifo;
mod main_status;
pub mod ports;
mod results;
mod saving;

pub use bitflags::Flags;
pub use drive_lines::{Dir, Dor};
pub use fifo::{DEPTH, Fifo};
pub use main_status::Msr;
pub use results::{St0, St1, St2, St3};
