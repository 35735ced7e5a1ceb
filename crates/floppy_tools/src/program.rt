// The top call.
ghost use Rattle.std.specs.Prelude.{All, None, Some, map, string_bytes};
ghost use Rattle.floppy_tools.specs.Common.{board, IsEmpty, all_counts, IsFreshBoard, no_names, RunsBare};
ghost use Rattle.text_commands.specs.PortFaults.{Ran, faulty_of};
ghost use Rattle.floppy_tools.specs.Performed.{Performed, stand_of};

use crate::forms::run_asked;
use crate::machines::{into_machine, set_up};
use drive_model::Drive;
use flop_base::{NoMemory, Shelf, Sink, Status};
use floppy_words::{form_named, ports_file};
use pc_bus::MachineOf;
use std::alloc::Global;
use text_commands::run_ports;

/// Does what the words after the program's name say, on a new machine:
/// - `play JOB` runs a batch job.
/// - `format NAME CYLS` and `formatdd NAME CYLS` store a formatted disk.
/// - `copy FROM TO` copies a disk, and `verify NAME` reads all of one.
/// - `import FLAT NAME` and `export NAME FLAT` go between a flat file and a disk.
/// - `exercise SEED COUNT` runs a generated workload.
/// - `fromimd IMD NAME` and `toimd NAME IMD` turn ImageDisk files into disks and back.
/// - `survey NAME` lists the address fields of a disk, and `remaster FROM TO` lays one out anew.
/// - `int13 FILE` serves calls of INT 13h.
/// - `rescue FROM TO LOG` reads what it can of a disk, and keeps a log of the rest.
/// - `ports FILE` runs a text of port accesses on the machine itself, with no driver.
///
/// A report is printed to the output (sink), and the status says how the run ended. The machine comes back in every
/// case; the spare drives that are left are dropped.
pub fn floppy<S: Shelf, K: Sink, D: Drive>(
    alloc: Global,
    words: &[String],
    shelf: &mut S,
    out: &mut K,
    machine: MachineOf<D>,
    spare: Vec<D>,
) -> (Status, MachineOf<D>)
    requires machine { IsFreshBoard (board D.state machine) }
    requires spare { All (λ drive. IsEmpty (D.state drive)) spare.items }
    // The main clause: what is printed and stored is a run of the sector model, from the driver's set-up on the machine
    // that is handed in to the machine that comes back. Or it is a run of port accesses on that machine.
    ensures { Performed (map string_bytes words.now) (all_counts D.state spare.items)
        (stand_of D.state S.told S.fault_count K.told K.fault_count machine shelf.old out.old)
        (stand_of D.state S.told S.fault_count K.told K.fault_count result.1 shelf.new out.new) result.0 }
{
    match ports_file(alloc, words) {
        Ok(Some(file)) => at_ports(alloc, file.as_str(), shelf, out, machine),
        Ok(None) => {
            let asked = form_named(alloc, words);
            let mut session = set_up(alloc, machine, spare);
            let status = run_asked(alloc, &mut session, asked, shelf, out);
            (status, into_machine(session))
        }
        Err(NoMemory) => (Status::NoMemory, machine),
    }
}

/// Runs the port accesses of the text of this name.
fn at_ports<S: Shelf, K: Sink, D: Drive>(
    alloc: Global,
    file: &str,
    shelf: &mut S,
    out: &mut K,
    machine: MachineOf<D>,
) -> (Status, MachineOf<D>)
    requires { IsFreshBoard (board D.state machine) }
    ensures { Ran (RunsBare file.now)
        (faulty_of D.state S.told S.fault_count K.told K.fault_count machine no_names shelf.old out.old)
        (faulty_of D.state S.told S.fault_count K.told K.fault_count result.1 no_names shelf.new out.new) result.0 }
{
    let mut machine = machine;
    let status = run_ports(alloc, &mut machine, file, shelf, out);
    (status, machine)
}
