// A station with a machine.
ghost use Rattle.std.specs.Prelude.{◌≡◌, length};
ghost use Rattle.machine_commands.specs.Common.{user_bytes, board};
ghost use Rattle.machine_commands.specs.StationShown.{ShowsStation, station_shown};

use crate::CommandedMachine;
use crate::flags::Flags;
use drive_model::Drive;
use floppy_driver::Driver;
use pc_bus::MachineOf;
use std::collections::VecDeque;

/// A machine with its driver, and the spare drives that are left, the next one first.
#[derive(Drop)]
pub struct MachineStation<D> {
    pub(crate) machine: CommandedMachine<D>,
    pub(crate) driver: Driver,
    pub(crate) spare: VecDeque<D>,
    pub(crate) flags: Flags,
}

impl<D: Drive> MachineStation<D> {
    /// The machine, with its counts.
    pub fn machine(&self) -> &MachineOf<D>
        ensures shows { ShowsStation (board D.state result.now) (station_shown D.state self.now) }
    {
        self.machine.machine()
    }

    /// Hands the machine out as it stands. The spare drives that are left are dropped.
    pub fn into_machine(self) -> MachineOf<D>
        ensures shows { ShowsStation (board D.state result) (station_shown D.state self) }
    {
        self.machine.into_machine()
    }

    /// The size of memory; it does nothing.
    pub(crate) fn hold_size(&self)
        ensures { length (station_shown D.state self.now).memory ≡ user_bytes }
    {
        let _byte = self.machine.machine().ram(0);
    }
}
