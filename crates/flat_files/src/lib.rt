//! Media are made of flat files, and flat files of media, without a drive. Each sector of the file is on a formatted
//! medium under its key.
//!
//! A flat file has 80 cylinders of 2 heads. Its tracks have 9 sectors (720 KB) or 18 (1.44 MB). Media are also made of
//! flat files of any other geometry whose tracks have room, and such files of media.
#![tactic(auto)]

mod fault;
mod file_fault;
mod filing;
mod finding;
mod form;
mod form_fault;
mod form_imaging;
mod form_making;
mod imaging;
pub mod laws;
mod making;
mod whole;

pub use fault::FlatFault;
pub use file_fault::FileFault;
pub use filing::{flat_file, flat_file_as};
pub use form::FlatForm;
pub use form_fault::FormFault;
pub use form_making::flat_medium_as;
pub use making::flat_medium;
pub use whole::blank_flat;
