//! What the program's commands have in common: scripts of commands over a session, and the lines of reports.
//!
//! A script is what a command asks, prints and stores, part by part; each function on scripts goes through one part. A
//! command is a function over any run, which holds a session, a file store and an output. The lines are those that
//! answer the requests of a batch job, and the last line of each way in which a run ends.
#![tactic(auto)]

mod any_run;
mod asking;
mod lines;
mod opening;
mod printing;
mod records;
mod run;
mod texts;

pub use any_run::AnyRun;
pub use asking::is_refusal;
pub use lines::{
    bad_line, put_last, put_last_absent, put_last_bad_line, put_last_bad_words, put_last_line,
    put_last_unfit, put_line, reason_word, stop_status, stopped_line,
};
pub use opening::{acknowledge, blank_request, format_tracks};
pub use printing::whole_status;
pub use records::{TRACK_ADDRESS, record_address};
pub use run::Run;
pub use texts::tell_missing_text;
