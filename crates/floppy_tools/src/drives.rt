// The drives of the program, and machines with them.
ghost use Rattle.std.specs.Prelude.{◌≡◌, [], ◌∷◌, Some, IfOk};
ghost use Rattle.floppy_tools.specs.Common.{board, IsNew, at_rest, plain_state, script_of, script_state};
ghost use Rattle.floppy_tools.specs.Runs.{planned_drive};

use drive_model::{Drive, Fault, PlainDrive, ScriptDrive};
use flop_base::NoMemory;
use irq_events::Pace;
use pc_bus::MachineOf;
use std::alloc::Global;

/// Two drives: those of both bays, or both spare ones.
#[derive(Drop)]
pub(crate) struct Drives<D> {
    pub first: D,
    pub second: D,
}

impl Drives<PlainDrive> {
    /// Two drives without faults.
    pub fn plain() -> Drives<PlainDrive>
        ensures first { plain_state result.first ≡ at_rest (Some 0) }
        ensures second { plain_state result.second ≡ at_rest (Some 0) }
    {
        Drives {
            first: PlainDrive::new(),
            second: PlainDrive::new(),
        }
    }
}

impl Drives<ScriptDrive> {
    /// Two drives with these faults.
    pub fn scripted(first: Vec<Fault>, second: Vec<Fault>) -> Drives<ScriptDrive>
        ensures first { script_state result.first ≡ planned_drive first.items }
        ensures second { script_state result.second ≡ planned_drive second.items }
        ensures first_script { script_of result.first ≡ first.items }
        ensures second_script { script_of result.second ≡ second.items }
    {
        Drives {
            first: ScriptDrive::new(first),
            second: ScriptDrive::new(second),
        }
    }
}

impl<D: Drive> Drives<D> {
    ghost use Rattle.floppy_tools.specs.Drives.{AreEmpty};

    /// A machine with these drives in its bays.
    pub fn machine(self, alloc: Global, pace: Pace) -> Result<MachineOf<D>, NoMemory>
        requires { AreEmpty D.state self }
        ensures { IfOk result (λ machine. IsNew pace (D.state self.first) (D.state self.second) (board D.state machine)) }
    {
        let Drives { first, second } = self;
        let machine = MachineOf::new(alloc, first, second, pace)?;
        Ok(machine)
    }

    /// These drives in their order.
    pub fn spare(self, alloc: Global) -> Result<Vec<D>, NoMemory>
        ensures { IfOk result (λ spare. spare.items ≡ self.first ∷ self.second ∷ []) }
    {
        let Drives { first, second } = self;
        let mut spare = Vec::new(alloc);
        spare.push(first)?;
        spare.push(second)?;
        Ok(spare)
    }
}
