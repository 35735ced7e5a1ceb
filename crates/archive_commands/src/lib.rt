//! The commands that turn files into others: media from and to ImageDisk files, media laid out anew, and the survey of
//! a medium. They use only a file store (shelf) and an output (sink). No session, bay or drive takes part.
#![tactic(auto)]

mod files;
mod halt;
pub mod laws;
mod making;
mod surveying;
mod telling;

pub use halt::Halt;
pub use making::{from_imd, remaster_disk, to_imd};
pub use surveying::survey_disk;
