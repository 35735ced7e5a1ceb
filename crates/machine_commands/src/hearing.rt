// What drives tell of the faults that are left to them. These functions only ask.
ghost use Rattle.std.specs.Prelude.{All};
ghost use Rattle.machine_commands.specs.Common.{DriveTells, InRange, board, counts_of};

use drive_model::Drive;
use pc_bus::MachineOf;

/// A drive tells what is left only where its count can't reach its last value.
fn hear_drive<D: Drive>(drive: &D)
    ensures { DriveTells (counts_of (D.state drive.now)) }
{
    let _faults = drive.faults();
}

/// Each of these drives tells what is left only where its count can't reach its last value.
pub(crate) fn hear_spare<D: Drive>(drives: &[D])
    ensures { All (λ drive. DriveTells (counts_of (D.state drive))) drives.now }
{
    for drive in drives {
        hear_drive(drive);
    }
}

/// Both drives of a machine tell what is left only where their counts can't reach the last value.
pub(crate) fn hear_machine<D: Drive>(machine: &MachineOf<D>)
    ensures first { DriveTells (counts_of (board D.state machine.now).first) }
    ensures second { DriveTells (counts_of (board D.state machine.now).second) }
{
    let _first = machine.faults(0);
    let _second = machine.faults(1);
}
