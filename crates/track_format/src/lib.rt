//! The layout of a formatted track, whole or word by word (IBM System 34 format).
#![tactic(auto)]

mod gap;
pub mod laws;
mod stream;
mod symbols;
mod whole;

pub use gap::{NARROW_GAP, WIDE_GAP, choose_gap};
pub use stream::FormatStream;
pub use whole::{LayoutError, fill_layout, layout};
