//! The stages of the diskette controller's commands, word by word as the words pass (Intel 82077AA data sheet; System
//! 34 format). Some stages hear the disk, for READ DATA and READ ID: the search for an address field, and the reading
//! of the data field after it. Others write: the search and the window of WRITE DATA and WRITE DELETED DATA, and the
//! layout of FORMAT TRACK.
//!
//! Nothing here moves a drive or a FIFO. A stage is a value, and a word that was heard or written gives the stage after
//! it.
#![tactic(auto)]

mod ending;
mod formatting;
pub mod laws;
mod reading;
mod saving;
mod searching;
mod window;
mod writing;
pub mod writing_laws;
mod writing_saving;

pub use ending::Ending;
pub use formatting::{FormatEnd, FormatNext, FormatPart, FormatStage, FormatWord};
pub use reading::{ReadHeard, ReadStage};
pub use searching::{Search, Searched};
pub use window::{Given, Part, Window};
pub use writing::{WriteNext, WriteStage, WriteWord};
