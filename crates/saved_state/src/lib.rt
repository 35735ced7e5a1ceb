//! States as bytes: what is saved, and how it is read back.
//!
//! A value is written field after field in a fixed order, and read back in the same order. Reading never refuses bytes:
//! bytes that no value has give some value. `restore_state` refuses that value, since saving it gives other bytes.
#![tactic(auto)]

mod lists;
mod numbers;
mod saved;
mod saved_bytes;
mod source;
mod values;
mod whole;

pub use lists::{load_bytes, load_four, load_list, save_bytes, save_four, save_list};
pub use saved::{Saved, SavedWhole};
pub use saved_bytes::SavedBytes;
pub use source::Source;
pub use whole::{RestoreError, restore_state, save_state};
