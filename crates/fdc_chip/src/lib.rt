//! The whole diskette controller as a guest meets it (Intel 82077AA data sheet). It stands in front of an inner
//! controller, the sequencer, which takes the data commands of several sectors.
//!
//! The bytes of a command are collected here. The inner controller is then given what it can do, and the rest is made
//! of that. A command that this medium can't have ends like a search, with INT and its results. The results of seeks
//! are kept here, so that commands can come while some results are pending. DOR lets INT and DRQ out here. The inner
//! controller always lets them out, so that its MSR asks for bytes all the same.
#![tactic(auto)]

mod answer;
mod bays;
mod channel;
mod chip;
mod code;
mod doing;
mod ending;
mod formatted;
mod interrupts;
mod moving;
mod order;
mod pace;
mod pin;
mod ports;
mod quiet;
mod refitting;
mod saving;
mod settings;
mod stage;
mod starting;
mod track;

pub use answer::{ChipAnswer, Registers};
pub use chip::Chip;
pub use code::ChipOpcode;
pub use interrupts::Interrupts;
pub use order::Order;
pub use pace::PacedSeek;
pub use settings::Settings;
pub use stage::{ChipStage, ChipTask, Place, Track};
