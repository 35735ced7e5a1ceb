//! Media and the image files that keep them.
//!
//! A medium is what a diskette holds. For each cylinder and head it has a track of 16-bit words. Their bits are the
//! flux cells as they pass under the head, the highest bit first. An image file is a header of 14 bytes and then all
//! the words.
#![tactic(auto)]

mod error;
mod header;
pub mod laws;
mod medium;
mod reader;
mod shape;
mod stage;
mod words;
mod writing;

pub use error::ImageError;
pub use medium::Medium;
pub use reader::{ImageReader, read_image};
pub use writing::write_image;
