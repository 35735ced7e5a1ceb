// What a write or a format leaves as it was, on tracks and on media. The bodies are empty.
mod changes;
mod windows;

pub use changes::{change_keeps, laying_keeps};
pub use windows::{cut_keeps, damaged_keeps, empty_keeps};
