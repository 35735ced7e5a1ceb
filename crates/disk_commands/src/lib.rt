//! The commands on whole disks, over a session. They are format, copy and verify, the export to and the import from a
//! flat file, a generated workload, and the rescue of a failing disk. The log of a rescue keeps what wasn't read. Each
//! command is a script: it says what the command requests, prints and stores, part by part.
#![tactic(auto)]

mod copy;
mod draws;
mod exercise;
mod export;
mod flat_file;
mod format;
mod import;
mod logs;
mod prepare;
mod read_tally;
mod records;
mod rescuing;
mod shape;
mod verify;
mod work;
mod work_tally;

pub use copy::copy_disk;
pub use exercise::exercise_disk;
pub use export::export_disk;
pub use format::format_disk;
pub use import::import_disk;
pub use rescuing::rescue_disk;
pub use verify::verify_disk;
