//! The program. Its subcommands (forms) run over any station, and over a machine on which a driver is set up. They run
//! on a new machine of two drives with two spare ones, with the faults of a plan or without, and on files in memory. A
//! report says what the answers are. A text of port accesses runs on the machine itself, with no driver.
#![tactic(auto)]

mod drives;
mod forms;
mod laws;
mod machines;
mod plan;
mod plan_variable;
mod program;
mod run;

pub use forms::{run_asked, run_words};
pub use laws::{accesses_of_a_job, counts_of_a_run};
pub use machines::{into_machine, set_up};
pub use plan_variable::{PLAN_VARIABLE, ProgramEnded, run_program};
pub use program::floppy;
pub use run::{Ended, run_plain, run_planned};
pub use sector_model::{Reason, Reply, Stop};
