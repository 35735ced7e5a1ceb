// The driver, on a machine and as a station; single sectors.
pub use floppy_driver::{Commands, Driver};
pub use machine_commands::{CommandedMachine, MachineStation};
pub use sector_desk::SectorDesk;
pub use sector_model::{Station, most_format_gap};
