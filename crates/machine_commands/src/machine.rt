// The machine, together with what its commands keep.
ghost use Rattle.std.specs.Prelude.{◌≡◌};
ghost use Rattle.machine_commands.specs.Common.{board};
ghost use Rattle.machine_commands.specs.Shown.{board_of};

use crate::motors::Motors;
use drive_model::Drive;
use pc_bus::MachineOf;

/// A machine that runs one command at a time.
#[derive(Drop)]
pub struct CommandedMachine<D> {
    pub(crate) machine: MachineOf<D>,
    /// The motors that DOR turns on.
    pub(crate) motors: Motors,
}

impl<D: Drive> CommandedMachine<D> {
    /// A machine as it stands. It has to be reset before any other command.
    pub fn new(machine: MachineOf<D>) -> CommandedMachine<D>
        ensures { board_of D.state result ≡ board D.state machine }
    {
        CommandedMachine {
            machine,
            motors: Motors::OFF,
        }
    }

    /// The machine under the commands.
    pub fn machine(&self) -> &MachineOf<D>
        ensures { board D.state result.now ≡ board_of D.state self.now }
    {
        &self.machine
    }

    /// Gives the machine back, without the commands.
    pub fn into_machine(self) -> MachineOf<D>
        ensures { board D.state result ≡ board_of D.state self }
    {
        let CommandedMachine { machine, motors: _ } = self;
        machine
    }
}
