// Drives a machine whose drive loses a pulse. The read is tried again, and succeeds.
ghost use Rattle.std.specs.Prelude.{IfOk};
ghost use Rattle.telwyddus.specs.Machine.Boards.{board, IsEmpty};
ghost use Rattle.telwyddus.specs.Machine.ScriptDrive.{script_state};
ghost use Rattle.telwyddus.specs.Driver.Started.{IsFreshBoard};

use crate::trouble::Trouble;
use std::alloc::Global;
use telwyddus::disk::Medium;
use telwyddus::driver::{MachineStation, Station};
use telwyddus::machine::{Fault, MachineOf, Pace, ScriptDrive};
use telwyddus::track::fill_layout;
use telwyddus::{Chrn, NoMemory};

/// A disk of three cylinders with one head, at 500 kbit/s. Cylinders 0 and 2 have one sector each: record 1, of 256
/// bytes 5A.
fn disk(alloc: Global) -> Result<Medium, NoMemory> {
    let mut medium = Medium::blank(alloc, 3, 1, 500)?;
    let mut track = vec![in alloc; 0; 500]?;
    fill_layout(track.as_mut_slice(), &[key(0)], 1, 27, 0x5A);
    medium.set_words(0, 0, 0, &track);
    fill_layout(track.as_mut_slice(), &[key(2)], 1, 27, 0x5A);
    medium.set_words(2, 0, 0, &track);
    Ok(medium)
}

/// The sector ID of the sector on a cylinder.
fn key(c: u8) -> Chrn {
    Chrn {
        c,
        h: 0,
        r: 1,
        n: 1,
    }
}

/// An empty drive with these faults.
fn drive(faults: Vec<Fault>) -> ScriptDrive
    ensures { IsEmpty (script_state result) }
{
    ScriptDrive::new(faults)
}

/// A machine without delays. Its drive 0 loses the first pulse inward from cylinder 1.
fn machine(alloc: Global) -> Result<MachineOf<ScriptDrive>, NoMemory>
    ensures { IfOk result (λ machine. IsFreshBoard (board script_state machine)) }
{
    let faults = vec![in alloc; Fault::Lose { c: 1, count: 1 }]?;
    let pace = Pace {
        gaps: Vec::new(alloc),
        holds: Vec::new(alloc),
        strays: Vec::new(alloc),
    };
    let machine = MachineOf::new(alloc, drive(faults), drive(Vec::new(alloc)), pace)?;
    Ok(machine)
}

/// Puts the disk into bay 0, acknowledges it, and reads the sector of cylinder 2 to memory. Gives whether all of this
/// was done.
fn read<S: Station>(station: &mut S, disk: Medium) -> bool
    requires { S.is_ready station.old }
{
    if station.insert(0, disk).is_err() || station.ack(0).is_err() {
        return false;
    }
    station.read(0, key(2), 0x10000).is_ok()
}

/// What came of the read.
#[derive(Clone, Copy)]
struct Told {
    done: bool,
    /// The first and the last of the 256 bytes in memory.
    bytes: [u8; 2],
    faults: u64,
    commands: u64,
}

/// Reads on this machine, which is dropped together with the station. The machine is large, so it lives only in
/// functions in which no line is printed.
fn use_machine(alloc: Global, machine: MachineOf<ScriptDrive>, disk: Medium) -> Told
    requires { IsFreshBoard (board script_state machine) }
{
    let mut station = MachineStation::set_up(machine, Vec::new(alloc));
    let done = read(&mut station, disk);
    Told {
        done,
        bytes: [station.memory(0x10000), station.memory(0x100FF)],
        faults: station.faults(0),
        commands: station.data_commands(),
    }
}

/// Makes the disk and the machine, and reads.
fn set_up_and_run(alloc: Global) -> Result<Told, NoMemory> {
    let disk = disk(alloc)?;
    let machine = machine(alloc)?;
    Ok(use_machine(alloc, machine, disk))
}

/// Runs the machine.
pub(crate) fn run(rt: &(impl Print + AllocGlobal)) -> Result<(), Trouble> {
    let told = set_up_and_run(rt.alloc())?;
    let done = told.done;
    println!(rt; "read {done}")?;
    // The byte that fills the sectors of `disk`.
    let [first, last] = told.bytes;
    println!(rt; "{first:02X} {last:02X}")?;
    // One pulse is lost, so the heads stop on cylinder 1, where nothing is recorded. The acknowledgement steps only
    // from cylinder 0, and finds the rate by one READ ID. Then there is a READ DATA for each of two attempts. The
    // second attempt begins from track 0.
    let (faults, commands) = (told.faults, told.commands);
    println!(rt; "faults {faults}, data commands {commands}")?;
    Ok(())
}
