// Runs of the program over a file store and an output in memory.
use drive_model::Drive;
use floppy_tools::{Ended, ProgramEnded, run_program};
use memory_files::{MemShelf, MemSink};
use pc_bus::MachineOf;
use std::alloc::Global;
use std::env::VarError;
use test_files::Wrong;

/// What a machine counted.
#[derive(Clone, Copy)]
pub(crate) struct MachineCounts {
    pub steps: u64,
    pub commands: u64,
    pub taken: u64,
    pub stalls: u64,
    pub direct: u64,
    pub faults: [u64; 2],
}

pub(crate) const NO_COUNTS: MachineCounts = MachineCounts {
    steps: 0,
    commands: 0,
    taken: 0,
    stalls: 0,
    direct: 0,
    faults: [0, 0],
};

/// What is seen after a run: its status and, if a machine was made, its counts and a part of its memory.
#[derive(Drop)]
pub(crate) struct SeenRun {
    pub status: u8,
    pub counts: Option<MachineCounts>,
    pub memory: Vec<u8>,
}

/// The part of memory that is printed.
#[derive(Clone, Copy)]
pub(crate) struct Range {
    pub start: u32,
    pub length: u32,
}

impl Range {
    fn bytes<D: Drive>(self, alloc: Global, machine: &MachineOf<D>) -> Result<Vec<u8>, Wrong> {
        let mut bytes = Vec::new(alloc);
        for i in 0..self.length {
            let address = self.start.saturating_add(i);
            if address < 0x10_0000 {
                bytes.push(machine.ram(address))?;
            }
        }
        Ok(bytes)
    }
}

fn counts_of<D: Drive>(machine: &MachineOf<D>) -> MachineCounts {
    MachineCounts {
        steps: machine.steps(),
        commands: machine.data_commands(),
        taken: machine.taken(),
        stalls: machine.stalls(),
        direct: machine.direct(),
        faults: [machine.faults(0), machine.faults(1)],
    }
}

fn look_over<D: Drive>(alloc: Global, ended: Ended<D>, range: Range) -> Result<SeenRun, Wrong> {
    let Ended { status, machine } = ended;
    let status = status.number();
    match machine {
        Some(machine) => Ok(SeenRun {
            status,
            counts: Some(counts_of(&machine)),
            memory: range.bytes(alloc, &machine)?,
        }),
        None => Ok(SeenRun {
            status,
            counts: None,
            memory: Vec::new(alloc),
        }),
    }
}

/// Runs the program with the plan that the environment variable gives.
pub(crate) fn run(
    alloc: Global,
    plan: Result<String, VarError>,
    words: &[String],
    shelf: &mut MemShelf,
    sink: &mut MemSink,
    range: Range,
) -> Result<SeenRun, Wrong> {
    match run_program(alloc, plan, words, shelf, sink) {
        ProgramEnded::Planned(ended) => look_over(alloc, ended, range),
        ProgramEnded::Unplanned(ended) => look_over(alloc, ended, range),
    }
}
