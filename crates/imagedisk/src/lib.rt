//! ImageDisk files (`.IMD`): their images are taken of diskettes, and diskettes are made of them.
//!
//! A file is a text up to the byte 1A, and then tracks (the ImageDisk format by Dave Dunfield). A track tells its mode,
//! its cylinder and head, and the number and size of its sectors. The record numbers follow, in the order on the track.
//! If the cylinders or heads of the keys differ from the track's, a map of them follows. Then come the data of each
//! sector. Modes other than MFM at 500 and 250 kbit/s, sectors of 128 bytes and tracks of mixed sizes aren't supported.
//!
//! A diskette is read as it is: the address fields of each track in order of place, and for each field what a look at
//! it finds. An image is made into formatted tracks. Each data field is then written over, damaged or wiped.
#![tactic(auto)]

mod error;
mod fields;
mod header;
mod image;
pub mod laws;
mod left;
mod making;
mod reading;
mod sector;
mod taking;
mod track;
mod tracks;
mod windows;
mod writing;

pub use error::ImdError;
pub use image::{ImdImage, ImdTracks};
pub use making::to_medium;
pub use reading::read_imd;
pub use sector::{ImdKind, ImdSector, ImdSectors};
pub use taking::from_medium;
pub use track::ImdTrack;
pub use writing::write_imd;
