// What each line does, by its call to the machine.
ghost use Rattle.text_commands.specs.Common.{board};
ghost use Rattle.text_commands.specs.Benches.{AreNamed};
ghost use Rattle.text_commands.specs.PortFaults.{Handled, faulty_bench_of};
ghost use Rattle.text_commands.specs.PortLines.{LineGoes, ReadsPort};

use crate::ports::answer::LineAnswer;
use crate::ports::media::{Names, eject, insert};
use drive_model::Drive;
use flop_base::Shelf;
use floppy_jobs::PortLine;
use pc_bus::MachineOf;
use sector_model::Stop;
use std::alloc::Global;

/// Does a line.
pub(crate) fn do_line<S: Shelf, D: Drive>(
    alloc: Global,
    machine: &mut MachineOf<D>,
    names: &mut Names,
    line: &PortLine,
    shelf: &mut S,
) -> Result<LineAnswer, Stop>
    requires { AreNamed names.old (board D.state machine.old) }
    ensures { Handled (LineGoes line.now)
        (faulty_bench_of D.state S.told S.fault_count machine.old names.old shelf.old) result
        (faulty_bench_of D.state S.told S.fault_count machine.new names.new shelf.new) }
{
    match line {
        PortLine::In { port } => Ok(read(machine, *port)),
        PortLine::Out { port, value } => {
            machine.outb(*port, *value);
            Ok(LineAnswer::Nothing)
        }
        PortLine::Wait { steps } => {
            machine.wait(u32::from(*steps));
            Ok(LineAnswer::Nothing)
        }
        PortLine::Irq => {
            let set = machine.take_irq();
            Ok(LineAnswer::Latch { set })
        }
        PortLine::Insert { bay, name } => insert(alloc, machine, names, *bay, name, shelf),
        PortLine::Eject { bay } => eject(alloc, machine, names, *bay, shelf),
    }
}

/// Reads a port.
fn read<D: Drive>(machine: &mut MachineOf<D>, port: u16) -> LineAnswer
    ensures { ReadsPort port (board D.state machine.old) result (board D.state machine.new) }
{
    let value = machine.inb(port);
    LineAnswer::Byte { port, value }
}
