// The controller at its ports, alone and with two drives; the drives.
pub use c_bay_drive::{BayDrive, TrackMap};
pub use drive_model::{Drive, Fault, Heard, Inspect, PlainDrive, ScriptDrive, Turn};
pub use fdc_chip::Chip;
pub use fdc_commands::{Command, Results};
pub use fdc_core::{DataRate, Fdc, Lines};
pub use fdc_sequencer::{DisketteAdapter, Opcode, Operation, Sequencer, Transfer};
