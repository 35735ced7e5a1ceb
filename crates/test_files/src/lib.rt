//! Scenes as data: lines word by word, files that are made by recipes and shown by their length and sum, and what is
//! printed.
#![tactic(auto)]

mod draft;
mod line;
mod recipes;
mod told;
mod wrong;

pub use draft::Draft;
pub use line::{LineWords, words_in};
pub use recipes::{follow, hex_bytes};
pub use told::put_file;
pub use wrong::Wrong;
