// The command that runs a text of port accesses on a machine as it stands, with no driver.
mod answer;
mod doing;
mod media;
mod running;
mod telling;

pub use answer::LineAnswer;
pub use running::run_ports;
