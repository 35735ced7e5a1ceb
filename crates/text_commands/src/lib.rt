//! The commands that go through a text, line by line, and store at the end what is left in the bays. A batch job and
//! calls of INT 13h run over a session. Port accesses run on a machine as it stands, with no driver.
#![tactic(auto)]

mod calls;
mod ending;
mod jobs;
mod ports;

pub use calls::{calls_count, serve_calls};
pub use jobs::play;
pub use ports::{LineAnswer, run_ports};
