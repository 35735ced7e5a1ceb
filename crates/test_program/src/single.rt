// The commands of a machine one by one.
ghost use Rattle.std.specs.Prelude.{IfOk};
ghost use Rattle.drive_model.specs.PlainDrive.{plain_state};
ghost use Rattle.machine_commands.specs.Shown.{is_idle};

use crate::machines::machine;
use drive_model::PlainDrive;
use flop_base::Rate;
use floppy_driver::Commands;
use machine_commands::CommandedMachine;
use raw_image::Medium;
use std::alloc::Global;
use std::test::Fail;

/// A machine with two empty drives, after a reset.
fn idle(alloc: Global) -> Result<CommandedMachine<PlainDrive>, Fail>
    ensures { IfOk result (λ machine. is_idle plain_state machine) }
{
    let mut machine = CommandedMachine::new(machine(alloc)?);
    machine.reset();
    Ok(machine)
}

/// Puts a medium into bay 0, in which there is none.
fn puts_in(machine: &mut CommandedMachine<PlainDrive>, medium: Medium) -> bool
    requires { is_idle plain_state machine.old }
    ensures { is_idle plain_state machine.new }
{
    machine.insert(0, medium).is_ok()
}

/// Takes the medium out of bay 0.
fn takes_out(machine: &mut CommandedMachine<PlainDrive>) -> bool
    requires { is_idle plain_state machine.old }
    ensures { is_idle plain_state machine.new }
{
    machine.eject(0).is_some()
}

/// Steps outward to track 0.
fn recalibrate<C: Commands>(machine: &mut C) -> bool
    requires { C.is_idle machine.old }
    ensures { C.is_idle machine.new }
{
    machine.recalibrate(0)
}

/// The change line after a seek to cylinder 1.
fn is_changed<C: Commands>(machine: &mut C) -> bool
    requires { C.is_idle machine.old }
    ensures { C.is_idle machine.new }
{
    machine.seek(0, 1);
    machine.is_changed(0)
}

/// A reset.
fn reset<C: Commands>(machine: &mut C)
    ensures { C.is_idle machine.new }
{
    machine.reset();
}

/// The change line after three seeks to cylinder 1. The first seek is with a first diskette. The second seek is with a
/// second diskette, while the heads stand at cylinder 1 already. The third seek is after a reset as well, since which
/// the controller takes the heads' cylinder for 0. The answer is nothing if a diskette isn't taken.
fn watch(
    machine: &mut CommandedMachine<PlainDrive>,
    first: Medium,
    second: Medium,
) -> Option<[bool; 3]>
    requires { is_idle plain_state machine.old }
{
    let begun = puts_in(machine, first) & recalibrate(machine);
    let stepped = is_changed(machine);
    let exchanged = takes_out(machine) & puts_in(machine, second);
    let stayed = is_changed(machine);
    reset(machine);
    let changed = [stepped, stayed, is_changed(machine)];
    if begun && exchanged {
        Some(changed)
    } else {
        None
    }
}

/// A diskette with nothing recorded.
fn blank(alloc: Global) -> Result<Medium, Fail> {
    Ok(Medium::blank_at(alloc, 2, 1, 64, Rate::R250)?)
}

/// The same on a new machine. The machine is large, so it is used in functions where nothing can fail.
fn watch_new(alloc: Global) -> Result<Option<[bool; 3]>, Fail> {
    let first = blank(alloc)?;
    let second = blank(alloc)?;
    let mut machine = idle(alloc)?;
    Ok(watch(&mut machine, first, second))
}

#[test]
fn a_reset_forgets_the_cylinder(rt: HostRuntime) -> Result<(), Fail> {
    let changed = watch_new(rt.alloc())?.ok_or("diskettes are taken")?;
    assert!(rt; changed == [false, true, false]);
    Ok(())
}
