// The lines that exchange media, and the end of a run.
ghost use Rattle.std.specs.Prelude.{◌≡◌, ◌≤◌, false, true};
ghost use Rattle.floppy_jobs.specs.declared.ports.PortLine.TheVariants as line;
ghost use Rattle.text_commands.specs.Common.{loaded, with_bay, board, drive_in, Touches};
ghost use Rattle.text_commands.specs.Benches.{AreNamed, is_loaded};
ghost use Rattle.text_commands.specs.PortFaults.{Handled, faulty_bench_of};
ghost use Rattle.text_commands.specs.PortLines.{LineGoes, StoresOrDrops};
ghost use Rattle.text_commands.specs.PortCourses.{BayGoes, EndGoes};

use crate::ports::answer::LineAnswer;
use drive_model::Drive;
use flop_base::{Code, Name, Shelf, Two};
use floppy_session::{load_medium, store_medium};
use pc_bus::MachineOf;
use raw_image::Medium;
use sector_model::{Reason, Stop};
use std::alloc::Global;

/// The names under which the media in the two bays are stored.
pub(crate) type Names = Two<Option<Name>>;

fn is_loaded(names: &Names, bay: u8) -> bool
    ensures { result ≡ is_loaded names.now bay }
{
    names.get(bay).is_some()
}

/// Loads the image of this name and puts its medium in.
pub(crate) fn insert<S: Shelf, D: Drive>(
    alloc: Global,
    machine: &mut MachineOf<D>,
    names: &mut Names,
    bay: u8,
    name: &Name,
    shelf: &mut S,
) -> Result<LineAnswer, Stop>
    requires { AreNamed names.old (board D.state machine.old) }
    ensures { Handled (LineGoes (line.Insert bay name.now))
        (faulty_bench_of D.state S.told S.fault_count machine.old names.old shelf.old) result
        (faulty_bench_of D.state S.told S.fault_count machine.new names.new shelf.new) }
{
    if bay > 1 {
        return Ok(LineAnswer::Refused(Reason::Driver(Code::BadRequest)));
    }
    if is_loaded(names, bay) {
        return Ok(LineAnswer::Refused(Reason::Busy));
    }
    let medium = load_medium(alloc, shelf, name)?;
    let name = Name::copy(alloc, name.as_str())?;
    put_in(machine, names, bay, name, medium);
    Ok(LineAnswer::Done)
}

/// Puts a medium into an empty bay, to be stored under this name.
fn put_in<D: Drive>(
    machine: &mut MachineOf<D>,
    names: &mut Names,
    bay: u8,
    name: Name,
    medium: Medium,
)
    requires named { AreNamed names.old (board D.state machine.old) }
    requires bay { bay ≤ 1 }
    requires empty { is_loaded names.old bay ≡ false }
    ensures touches { Touches bay (board D.state machine.old) (board D.state machine.new) }
    ensures drive { drive_in (board D.state machine.new) bay ≡ loaded medium (drive_in (board D.state machine.old) bay) }
    ensures names { names.new ≡ with_bay names.old bay (Some name) }
    ensures named { AreNamed names.new (board D.state machine.new) }
{
    match machine.insert(bay, medium) {
        Ok(()) => {
            names.replace(bay, Some(name));
        }
        Err(_) => unreachable!(),
    }
}

/// Takes the medium out and stores its image under its name.
pub(crate) fn eject<S: Shelf, D: Drive>(
    alloc: Global,
    machine: &mut MachineOf<D>,
    names: &mut Names,
    bay: u8,
    shelf: &mut S,
) -> Result<LineAnswer, Stop>
    requires { AreNamed names.old (board D.state machine.old) }
    ensures { Handled (LineGoes (line.Eject bay))
        (faulty_bench_of D.state S.told S.fault_count machine.old names.old shelf.old) result
        (faulty_bench_of D.state S.told S.fault_count machine.new names.new shelf.new) }
{
    if bay > 1 {
        return Ok(LineAnswer::Refused(Reason::Driver(Code::BadRequest)));
    }
    if !is_loaded(names, bay) {
        return Ok(LineAnswer::Refused(Reason::Empty));
    }
    take_out(alloc, machine, names, bay, shelf)?;
    Ok(LineAnswer::Done)
}

/// Takes the medium out of a loaded bay and stores its image under its name. After a stop the medium is dropped.
fn take_out<S: Shelf, D: Drive>(
    alloc: Global,
    machine: &mut MachineOf<D>,
    names: &mut Names,
    bay: u8,
    shelf: &mut S,
) -> Result<(), Stop>
    requires named { AreNamed names.old (board D.state machine.old) }
    requires bay { bay ≤ 1 }
    requires loaded { is_loaded names.old bay ≡ true }
    ensures { Handled (StoresOrDrops bay)
        (faulty_bench_of D.state S.told S.fault_count machine.old names.old shelf.old) result
        (faulty_bench_of D.state S.told S.fault_count machine.new names.new shelf.new) }
{
    let name = names.replace(bay, None).unwrap();
    let medium = machine.eject(bay).unwrap();
    store_medium(alloc, shelf, &name, &medium)?;
    Ok(())
}

/// Takes the medium out of a bay, if one is in, and stores its image under its name.
fn end_bay<S: Shelf, D: Drive>(
    alloc: Global,
    machine: &mut MachineOf<D>,
    names: &mut Names,
    bay: u8,
    shelf: &mut S,
) -> Result<(), Stop>
    requires named { AreNamed names.old (board D.state machine.old) }
    requires bay { bay ≤ 1 }
    ensures { Handled (BayGoes bay)
        (faulty_bench_of D.state S.told S.fault_count machine.old names.old shelf.old) result
        (faulty_bench_of D.state S.told S.fault_count machine.new names.new shelf.new) }
{
    if is_loaded(names, bay) {
        take_out(alloc, machine, names, bay, shelf)
    } else {
        Ok(())
    }
}

/// Stores the media that are left in: bay 0, then bay 1.
pub(crate) fn end<S: Shelf, D: Drive>(
    alloc: Global,
    machine: &mut MachineOf<D>,
    names: &mut Names,
    shelf: &mut S,
) -> Result<(), Stop>
    requires { AreNamed names.old (board D.state machine.old) }
    ensures { Handled EndGoes
        (faulty_bench_of D.state S.told S.fault_count machine.old names.old shelf.old) result
        (faulty_bench_of D.state S.told S.fault_count machine.new names.new shelf.new) }
{
    end_bay(alloc, machine, names, 0, shelf)?;
    end_bay(alloc, machine, names, 1, shelf)
}
