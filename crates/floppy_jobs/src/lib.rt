//! The texts that the program reads (jobs, port accesses, calls of INT 13h), on top of one reader of lines, words and
//! numbers. Also here: the requests that a job may have, and the plain spelling of a request.
#![tactic(auto)]

mod calls;
mod job;
pub mod laws;
pub mod lines;
mod name;
pub mod numbers;
mod ports;
mod request;
mod spelling;
mod verb;

pub use calls::{CallLine, parse_calls};
pub use job::parse_job;
pub use lines::JobError;
pub use name::{is_name, name_text};
pub use ports::{PortLine, parse_ports};
pub use request::Request;
pub use spelling::{Address, MemoryByte};
pub use verb::is_verb;
