// The bays of the machine.
ghost use Rattle.std.specs.Prelude.{◌≡◌, ◌≤◌, ◌==◌, MatchBool};
ghost use Rattle.telwyddus_c.specs.Common.{drive_in, Touches};
ghost use Rattle.telwyddus_c.specs.Machines.{board_of, InsertsAt, EjectsAt};
ghost use Rattle.telwyddus_c.specs.Media.{PutsIn};
ghost use Rattle.telwyddus_c.specs.Slots.{Serves, InBay};

use crate::code::{DONE, EMPTY, FULL, HAS_MEDIUM, NO_MEDIUM, NO_MEMORY, OUT_OF_RANGE};
use c_slots::{BenchMachine, MachineSlot, MediumTray, TraySlot};
use std::alloc::Global;

/// Puts the medium of a tray into a bay. If a medium is in already, the new one stays in the tray.
#[unsafe(no_mangle)]
pub extern "C" fn telwyddus_machine_insert(
    alloc: Global,
    slot: &mut MachineSlot,
    bay: u32,
    tray: &mut TraySlot,
) -> u32
    ensures { Serves (λ code old new. InBay bay code ((new ≡ old) × (tray.new.held.tray ≡ tray.old.held.tray))
        (InsertsAt bay code tray.old.held.tray tray.new.held.tray old new)) (tray.new.held.tray ≡ tray.old.held.tray)
        result slot.old.held.machine slot.new.held.machine }
{
    let Some(mut machine) = slot.take(alloc) else {
        return EMPTY;
    };
    let code = insert_from(alloc, &mut machine, bay, tray);
    slot.put(machine);
    code
}

/// Puts the medium of a tray into a bay of a machine.
fn insert_from(alloc: Global, machine: &mut BenchMachine, bay: u32, tray: &mut TraySlot) -> u32
    ensures { InBay bay result ((machine.new ≡ machine.old) × (tray.new.held.tray ≡ tray.old.held.tray))
        (InsertsAt bay result tray.old.held.tray tray.new.held.tray machine.old machine.new) }
{
    if bay > 1 {
        return OUT_OF_RANGE;
    }
    let Some(mut inside) = tray.take(alloc) else {
        return NO_MEDIUM;
    };
    let code = insert(machine, bay as u8, &mut inside);
    tray.put(inside);
    code
}

/// Puts the medium that a tray holds into a bay of a machine.
fn insert(machine: &mut BenchMachine, bay: u8, tray: &mut MediumTray) -> u32
    requires { bay ≤ 1 }
    ensures drive { PutsIn result tray.old tray.new (drive_in (board_of machine.old) bay) (drive_in (board_of machine.new) bay) }
    ensures beside { MatchBool (result == 7) (machine.new ≡ machine.old) (Touches bay (board_of machine.old) (board_of machine.new)) }
{
    match tray.medium.take() {
        None => NO_MEDIUM,
        Some(medium) => match machine.insert(bay, medium) {
            Ok(()) => DONE,
            Err(back) => {
                tray.medium = Some(back);
                HAS_MEDIUM
            }
        },
    }
}

/// Takes the medium out of a bay, into a new tray.
#[unsafe(no_mangle)]
pub extern "C" fn telwyddus_machine_eject(
    alloc: Global,
    slot: &mut MachineSlot,
    bay: u32,
    tray: &mut TraySlot,
) -> u32
    ensures { Serves (λ code old new. InBay bay code ((new ≡ old) × (tray.new.held.tray ≡ tray.old.held.tray))
        (EjectsAt bay code tray.old.held.tray tray.new.held.tray old new)) (tray.new.held.tray ≡ tray.old.held.tray)
        result slot.old.held.machine slot.new.held.machine }
{
    let Some(mut machine) = slot.take(alloc) else {
        return EMPTY;
    };
    let code = eject_into(alloc, &mut machine, bay, tray);
    slot.put(machine);
    code
}

/// Takes the medium out of a bay of a machine, into a new tray.
fn eject_into(alloc: Global, machine: &mut BenchMachine, bay: u32, tray: &mut TraySlot) -> u32
    ensures { InBay bay result ((machine.new ≡ machine.old) × (tray.new.held.tray ≡ tray.old.held.tray))
        (EjectsAt bay result tray.old.held.tray tray.new.held.tray machine.old machine.new) }
{
    if bay > 1 {
        return OUT_OF_RANGE;
    }
    if tray.is_full() {
        return FULL;
    }
    let Ok(mut inside) = Box::new(alloc, MediumTray { medium: None }) else {
        return NO_MEMORY;
    };
    let Some(medium) = machine.eject(bay as u8) else {
        return NO_MEDIUM;
    };
    inside.medium = Some(medium);
    tray.put(inside);
    DONE
}
