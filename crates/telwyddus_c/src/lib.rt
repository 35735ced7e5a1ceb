//! The controller, the machine, sectors of diskettes, media, and the program over files in memory for C: c/telwyddus.h.
//!
//! C keeps slots, all 0 at first, and calls these functions with their addresses. Each function answers a code.
#![tactic(auto)]

mod bare;
mod blank;
mod buffer;
mod code;
mod controller;
mod disk;
mod flat;
mod flat_as;
mod image;
mod imd;
pub mod laws;
mod machine;
mod rate;
mod shape;
mod shelf;
mod state;
mod survey;
mod tab;
mod track;
mod tray;
mod version;
