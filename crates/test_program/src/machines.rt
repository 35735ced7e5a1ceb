// Machines of the tests.
ghost use Rattle.std.specs.Prelude.{◌≡◌, All, IfOk};
ghost use Rattle.drive_model.specs.PlainDrive.{plain_state};
ghost use Rattle.pc_bus.specs.Boards.{board, IsEmpty};
ghost use Rattle.machine_commands.specs.Started.{IsFreshBoard};

use drive_model::{Drive, PlainDrive};
use flop_base::NoMemory;
use irq_events::Pace;
use pc_bus::MachineOf;
use std::alloc::Global;

/// A machine with these drives; nothing delays the machine.
pub(crate) fn machine_with<D: Drive>(
    alloc: Global,
    first: D,
    second: D,
) -> Result<MachineOf<D>, NoMemory>
    requires first { IsEmpty (D.state first) }
    requires second { IsEmpty (D.state second) }
    ensures { IfOk result (λ machine. IsFreshBoard (board D.state machine)) }
{
    let pace = Pace {
        gaps: Vec::new(alloc),
        holds: Vec::new(alloc),
        strays: Vec::new(alloc),
    };
    let machine = MachineOf::new(alloc, first, second, pace)?;
    Ok(machine)
}

/// A new drive without faults.
fn plain() -> PlainDrive
    ensures { IsEmpty (plain_state result) }
{
    PlainDrive::new()
}

/// A machine with two drives that have no faults.
pub(crate) fn machine(alloc: Global) -> Result<MachineOf<PlainDrive>, NoMemory>
    ensures { IfOk result (λ machine. IsFreshBoard (board plain_state machine)) }
{
    machine_with(alloc, plain(), plain())
}

/// Two spare drives without faults.
pub(crate) fn spare(alloc: Global) -> Result<Vec<PlainDrive>, NoMemory>
    ensures { IfOk result (λ spare. All (λ drive. IsEmpty (plain_state drive)) spare.items) }
{
    let spare = vec![in alloc; plain(), plain()]?;
    Ok(spare)
}
