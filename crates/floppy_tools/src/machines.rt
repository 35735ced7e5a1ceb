// A session over a new machine, and the machine that it leaves.
ghost use Rattle.std.specs.Prelude.{All};
ghost use Rattle.floppy_tools.specs.Common.{board, IsEmpty, all_counts, ShowsStation, IsFreshBoard};
ghost use Rattle.floppy_tools.specs.Machines.{IsSetUp};

use drive_model::Drive;
use floppy_session::Session;
use machine_commands::MachineStation;
use pc_bus::MachineOf;
use std::alloc::Global;

/// Sets the driver up on a new machine. The first of the spare drives is taken first. The session keeps the allocator
/// for what it runs, and takes no memory itself.
pub fn set_up<D: Drive>(
    alloc: Global,
    machine: MachineOf<D>,
    spare: Vec<D>,
) -> Session<MachineStation<D>>
    requires machine { IsFreshBoard (board D.state machine) }
    requires spare { All (λ drive. IsEmpty (D.state drive)) spare.items }
    ensures { IsSetUp (board D.state machine) (all_counts D.state spare.items) result }
{
    let station = MachineStation::set_up(machine, spare);
    Session::new(alloc, station)
}

/// The machine of a session as it stands. The spare drives that are left are dropped.
pub fn into_machine<D: Drive>(session: Session<MachineStation<D>>) -> MachineOf<D>
    ensures { ShowsStation (board D.state result) session.station }
{
    session.into_station().into_machine()
}
