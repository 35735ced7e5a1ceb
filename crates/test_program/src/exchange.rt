// Drives, media and memory of a machine, past its controller. A machine is large, so it is used in functions where
// nothing can fail.
ghost use Rattle.pc_bus.specs.Boards.{IsEmpty};

use crate::machines::{machine, machine_with};
use drive_model::{Drive, PlainDrive};
use flop_base::Rate;
use pc_bus::MachineOf;
use raw_image::Medium;
use std::alloc::Global;
use std::test::Fail;

/// What is seen of a machine while media and a drive of bay 1 are exchanged.
#[derive(Clone, Copy)]
struct SeenExchange {
    /// Whether the machine is fresh, before and after an access to a port.
    fresh: [bool; 2],
    inserted: bool,
    rate: Rate,
    /// Whether a medium comes out of bay 1, and of bay 0.
    ejected: [bool; 2],
    changed: bool,
    /// The accesses past the controller.
    direct: u64,
    faults: u64,
}

/// Uses a new machine, bay 1 of which gets this medium and then this drive.
fn see<D: Drive>(machine: &mut MachineOf<D>, medium: Medium, next: D) -> SeenExchange
    requires { IsEmpty (D.state next) }
{
    let fresh = machine.is_fresh();
    machine.outb(0x3F2, 0x24);
    SeenExchange {
        fresh: [fresh, machine.is_fresh()],
        inserted: machine.insert(1, medium).is_ok(),
        rate: machine.rate(1),
        ejected: [machine.eject(1).is_some(), machine.eject(0).is_some()],
        changed: machine.exchange(1, next).changed(),
        direct: machine.direct(),
        faults: machine.faults(1),
    }
}

/// What is seen of a new machine with these drives in its bays.
fn see_new<D: Drive>(
    alloc: Global,
    first: D,
    second: D,
    next: D,
    medium: Medium,
) -> Result<SeenExchange, Fail>
    requires first { IsEmpty (D.state first) }
    requires second { IsEmpty (D.state second) }
    requires next { IsEmpty (D.state next) }
{
    let mut machine = machine_with(alloc, first, second)?;
    Ok(see(&mut machine, medium, next))
}

#[test]
fn drives_and_media_are_exchanged(rt: HostRuntime) -> Result<(), Fail> {
    let alloc = rt.alloc();
    let medium = Medium::blank_at(alloc, 40, 1, 64, Rate::R250)?;
    let first: Box<dyn Drive> = Box::new(alloc, PlainDrive::new())?;
    let second: Box<dyn Drive> = Box::new(alloc, PlainDrive::new())?;
    let next: Box<dyn Drive> = Box::new(alloc, PlainDrive::new())?;
    let seen = see_new(alloc, first, second, next, medium)?;
    assert!(rt; seen.fresh == [true, false]);
    assert!(rt; seen.inserted && seen.rate == Rate::R250);
    assert!(rt; seen.ejected == [true, false]);
    assert!(rt; seen.changed);
    assert!(rt; seen.direct == 4 && seen.faults == 0);
    Ok(())
}

/// What is set at the last byte of the user's memory and at the first one above it.
fn set_both(machine: &mut MachineOf<PlainDrive>) -> ([u8; 2], u64) {
    machine.ram_set(0xEFFFF, 1);
    machine.ram_set(0xF0000, 2);
    (
        [machine.ram(0xEFFFF), machine.ram(0xF0000)],
        machine.direct(),
    )
}

/// What is set there on a new machine.
fn set_new(alloc: Global) -> Result<([u8; 2], u64), Fail> {
    let mut machine = machine(alloc)?;
    Ok(set_both(&mut machine))
}

#[test]
fn memory_is_the_users_below_f0000(rt: HostRuntime) -> Result<(), Fail> {
    let (bytes, direct) = set_new(rt.alloc())?;
    assert!(rt; bytes == [1, 2]);
    assert!(rt; direct == 1);
    Ok(())
}
