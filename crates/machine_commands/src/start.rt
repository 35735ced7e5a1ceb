// A station before the first request.
ghost use Rattle.std.specs.Prelude.{All, map};
ghost use Rattle.machine_commands.specs.Common.{board, IsEmpty, IsFresh, counts_of};
ghost use Rattle.machine_commands.specs.StationReady.{is_station_ready};
ghost use Rattle.machine_commands.specs.StationShown.{station_shown};
ghost use Rattle.machine_commands.specs.Started.{IsFreshBoard, Starts};

use crate::CommandedMachine;
use crate::flags::Flags;
use crate::hearing::{hear_machine, hear_spare};
use crate::station::MachineStation;
use drive_model::Drive;
use floppy_driver::Driver;
use pc_bus::MachineOf;
use std::collections::VecDeque;

impl<D: Drive> MachineStation<D> {
    /// Sets the driver up on a machine that is as it was made. The first of the spare drives is taken first.
    pub fn set_up(machine: MachineOf<D>, spare: Vec<D>) -> MachineStation<D>
        requires machine { IsFreshBoard (board D.state machine) }
        requires spare { All (λ drive. IsEmpty (D.state drive)) spare.items }
        ensures fresh { IsFresh (station_shown D.state result) }
        ensures starts { Starts (board D.state machine) (map (λ drive. counts_of (D.state drive)) spare.items) (station_shown D.state result) }
        ensures ready { is_station_ready D.state result }
    {
        hear_spare(&spare);
        let mut machine = CommandedMachine::new(machine);
        let driver = Driver::set_up(&mut machine);
        hear_machine(machine.machine());
        MachineStation {
            machine,
            driver,
            spare: VecDeque::from_vec(spare),
            flags: Flags::empty(),
        }
    }
}
