//! The diskette controller with the drives in its two bays: a word time of all three, word times in a row, the lines of
//! the selected drive, and what both drives do after a port write.

mod following;
mod selected;
mod word_times;

pub use following::{follow_motor, follow_write};
pub use selected::lines;
pub use word_times::{may_leap, pass_word_time, pass_word_times};
