// A session over a machine.
ghost use Rattle.std.specs.Prelude.{◌≡◌, All, IfErr, IfOk, IsErrOf, List, OnOk, Option};
ghost use Rattle.flop_base.specs.Shelf.{Files};
ghost use Rattle.pc_bus.specs.Boards.{board, IsEmpty};
ghost use Rattle.sector_model.specs.Steps.{Step, StopsAt};
ghost use Rattle.sector_model.specs.Runs.{Taken, Ends, EndStopsAt, IsEndStop};
ghost use Rattle.sector_model.specs.Faults.{Blames};
ghost use Rattle.floppy_session.specs.Tries.{HasTries};
ghost use Rattle.bios_int13.specs.Services.{Serves};
ghost use Rattle.machine_commands.specs.StationShown.{all_counts, ShowsStation};
ghost use Rattle.machine_commands.specs.Started.{IsFreshBoard};

use bios_int13::{Int13, Regs, serve};
use drive_model::Drive;
use flop_base::Shelf;
use floppy_jobs::Request;
use floppy_session::Session;
use floppy_tools::{into_machine, set_up};
use machine_commands::MachineStation;
use pc_bus::MachineOf;
use sector_model::{Reply, Stop};
use std::alloc::Global;
use std::marker::Model;

/// A session over a machine, whose driver runs requests one after the other. Contracts see the session as its state.
#[derive(Drop)]
pub struct MachineSession<D: Drive> {
    over: Session<MachineStation<D>>,
}

impl<D: Drive> Model for MachineSession<D> {
    ghost use Rattle.sector_model.specs.States.{State};

    ghost Value = { State };

    ghost view = { λ s. s.over };
}

impl<D: Drive> MachineSession<D> {
    ghost use Rattle.floppy_tools.specs.Machines.{IsSetUp};

    /// Sets the driver up on a machine that is as it was made. The first of the spare drives is taken first. The
    /// session keeps the allocator for `run`, and allocates no memory here.
    pub fn new(alloc: Global, machine: MachineOf<D>, spare: Vec<D>) -> MachineSession<D>
        requires machine { IsFreshBoard (board D.state machine) }
        requires spare { All (λ drive. IsEmpty (D.state drive)) spare.items }
        ensures { IsSetUp (board D.state machine) (all_counts D.state spare.items) result }
    {
        MachineSession {
            over: set_up(alloc, machine, spare),
        }
    }

    /// Runs one request. A refusal is a reply, and the next request may follow. An error stops the whole run.
    pub fn run<S: Shelf>(&mut self, shelf: &mut S, request: &Request) -> Result<Reply, Stop>
        requires { HasTries request.now }
        ensures step { IfOk result (λ reply. Step request.now self.old (S.told shelf.old) reply self.new (S.told shelf.new)) }
        ensures stop { IfErr result (λ stop. StopsAt request.now self.old (S.told shelf.old) stop self.new (S.told shelf.new)) }
        ensures faults { Blames (IsErrOf result Stop.FileFault) (S.fault_count shelf.old) (S.fault_count shelf.new) }
    {
        self.over.run(shelf, request)
    }

    /// Ends a run: the medium of bay 0, and then that of bay 1, is taken out and stored under its name. An error drops
    /// the medium that wasn't stored. If that was the medium of bay 0, bay 1 stays as it is.
    pub fn end<S: Shelf>(&mut self, shelf: &mut S) -> Result<(), Stop>
        ensures ends { OnOk result (Ends self.old (S.told shelf.old) self.new (S.told shelf.new)) }
        ensures stop { IfErr result (λ stop. IsEndStop stop × EndStopsAt self.old (S.told shelf.old)
            self.new (S.told shelf.new)) }
        ensures faults { Blames (IsErrOf result Stop.FileFault) (S.fault_count shelf.old) (S.fault_count shelf.new) }
    {
        self.over.end(shelf)
    }

    /// Serves a call of INT 13h (PC/AT), with the service that keeps the status. It allocates no memory.
    pub fn int13(&mut self, front: &mut Int13, regs: Regs) -> Regs
        ensures { (told : Option Files) → (course : List Taken) × Serves front.old regs
            self.old told result front.new course self.new }
    {
        serve(&mut self.over, front, regs)
    }

    /// The machine, which has the counts.
    pub fn machine(&self) -> &MachineOf<D>
        ensures { ShowsStation (board D.state result.now) self.now.station }
    {
        self.over.station().machine()
    }

    /// The machine as it stands. The spare drives that are left are dropped.
    pub fn into_machine(self) -> MachineOf<D>
        ensures { ShowsStation (board D.state result) self.station }
    {
        let MachineSession { over } = self;
        into_machine(over)
    }
}
