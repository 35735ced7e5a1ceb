//! What C keeps of a controller, of a machine, of a desk for sectors, of a medium and of a shelf: slots that hold one
//! or none. A slot owns what it holds by a pointer, for which a box is taken apart and made again.
#![tactic(auto)]

mod controller;
mod disk;
mod loose;
mod machine;
mod shelf;
mod tray;

use c_bay_drive::BayDrive;
pub use controller::ControllerSlot;
pub use disk::DiskSlot;
use drive_model::ScriptDrive;
use fdc_chip::Chip;
pub use machine::MachineSlot;
use memory_files::RunShelf;
use pc_bus::MachineOf;
use raw_image::Medium;
use sector_desk::SectorDesk;
pub use shelf::ShelfSlot;
pub use tray::TraySlot;

/// The machine with drives that have the faults of a list, which may be empty.
pub type BenchMachine = MachineOf<ScriptDrive>;

/// The whole controller, with such drives, whose cables may be pulled.
pub type WholeController = Chip<BayDrive>;

/// What a medium lies in outside a drive.
#[derive(Drop)]
pub struct MediumTray {
    pub medium: Option<Medium>,
}

/// A slot may go to another thread with what it holds.
fn crosses<T: Send + Drop>(_slot: T) {}

/// Each slot may go to another thread.
pub fn slots_cross(
    machine: MachineSlot,
    controller: ControllerSlot,
    disk: DiskSlot,
    tray: TraySlot,
    shelf: ShelfSlot,
) {
    crosses(machine);
    crosses(controller);
    crosses(disk);
    crosses(tray);
    crosses(shelf);
}
