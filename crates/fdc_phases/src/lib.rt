//! What the diskette controller is doing (Intel 82077AA data sheet, in outline): its phases, the data commands in
//! execution and how far each is, and the result bytes.
//!
//! Nothing here moves a drive, a line or a FIFO. A phase is a value; a byte, a word or the terminal count gives the
//! next phase.
#![tactic(auto)]

mod answers;
mod beginning;
mod phases;
mod rates;
mod saving;
mod sized_key;
mod transfers;

pub use answers::{Answer, results};
pub use beginning::{formatting_track, reading_data, reading_id, writing_data};
pub use phases::{End, Execution, LAST_STEP, NO_KEY, Phase, Task, head_of, is_last};
pub use rates::DataRate;
pub use sized_key::SizedKey;
pub use transfers::{Formatting, Reading, Writing, is_format_over, is_write_over};
