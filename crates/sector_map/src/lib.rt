//! What is on a track and on a medium. This crate finds the fields of a raw track: address fields, data marks and the
//! content behind them. It also finds the sectors of a medium, writes one of them over, and says where sectors are in a
//! flat file.
//!
//! A track is a list of words of sixteen cells, from the index on. A field may begin at any cell. No field crosses the
//! index (IBM System 34 format). Words 0000 hold no recording, and no field touches one.
#![tactic(auto)]

mod bytes;
mod disks;
mod fields;
pub mod flat;
pub mod laws;
mod looking;
mod marks;
mod regular;
mod standard;
mod turn;
mod window;
mod writing;

pub use bytes::content_byte;
pub use disks::{is_regular_disk, look};
pub use fields::list_fields;
pub use looking::{Absent, data_at, find_address, find_sector, has_address, look_at};
pub use regular::{is_regular, window_word};
pub use standard::{failing, keys_of_track};
pub use track_model::{Field, Look, crc_step, field_crc, mark_crc};
pub use track_separator::{Seen, Separator};
pub use turn::{TurnRead, read_turn};
pub use window::place_window;
pub use writing::{address_words, field_words, fill_field_words};
