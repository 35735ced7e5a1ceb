//! What the words of the command line ask for: a subcommand (form), a text of port accesses, or nothing.
#![tactic(auto)]

mod form;
mod places;
mod read;

pub use form::{Cylinders, Form};
pub use read::{form_named, ports_file};
