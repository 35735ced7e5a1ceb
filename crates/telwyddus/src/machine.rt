// The machine at its ports, its drives, and what delays it.
pub use drive_model::{Drive, Fault, PlainDrive, ScriptDrive};
pub use irq_events::Pace;
pub use pc_bus::{Machine, MachineOf};
