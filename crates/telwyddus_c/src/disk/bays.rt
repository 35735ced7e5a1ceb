// The bays of a desk: media in and out, and what is set before sectors are read.
ghost use Rattle.std.specs.Prelude.{◌≡◌, ◌≤◌, ⊤};
ghost use Rattle.telwyddus_c.specs.Disks.{Acknowledges, EjectsInto, InsertsFrom, PutsInto, SetsRate};
ghost use Rattle.telwyddus_c.specs.Slots.{InBay, Serves};

use crate::code::{DONE, EMPTY, FULL, HAS_MEDIUM, NO_MEDIUM, NO_MEMORY, OUT_OF_RANGE};
use crate::disk::answers::answer_code;
use crate::rate::rate_named;
use c_slots::{DiskSlot, MediumTray, TraySlot};
use sector_desk::SectorDesk;
use std::alloc::Global;

/// Puts the medium of a tray into a bay. If a medium is in already, the new one stays in the tray.
#[unsafe(no_mangle)]
pub extern "C" fn telwyddus_disk_insert(
    alloc: Global,
    slot: &mut DiskSlot,
    bay: u32,
    tray: &mut TraySlot,
) -> u32
    ensures { Serves (λ code old new. InBay bay code ((new ≡ old) × (tray.new.held.tray ≡ tray.old.held.tray))
        (InsertsFrom bay code tray.old.held.tray tray.new.held.tray old new)) (tray.new.held.tray ≡ tray.old.held.tray)
        result slot.old.held.desk slot.new.held.desk }
{
    let Some(mut desk) = slot.take(alloc) else {
        return EMPTY;
    };
    let code = insert_from(alloc, &mut desk, bay, tray);
    slot.put(desk);
    code
}

/// Puts the medium of a tray into a bay of a desk.
fn insert_from(alloc: Global, desk: &mut SectorDesk, bay: u32, tray: &mut TraySlot) -> u32
    ensures { InBay bay result ((desk.new ≡ desk.old) × (tray.new.held.tray ≡ tray.old.held.tray))
        (InsertsFrom bay result tray.old.held.tray tray.new.held.tray desk.old desk.new) }
{
    if bay > 1 {
        return OUT_OF_RANGE;
    }
    let Some(mut inside) = tray.take(alloc) else {
        return NO_MEDIUM;
    };
    let code = insert(desk, bay as u8, &mut inside);
    tray.put(inside);
    code
}

/// Puts the medium that a tray holds into a bay of a desk.
fn insert(desk: &mut SectorDesk, bay: u8, tray: &mut MediumTray) -> u32
    requires { bay ≤ 1 }
    ensures { PutsInto bay result tray.old tray.new desk.old desk.new }
{
    match tray.medium.take() {
        None => NO_MEDIUM,
        Some(medium) => match desk.insert(bay, medium) {
            Ok(()) => DONE,
            Err(back) => {
                tray.medium = Some(back);
                HAS_MEDIUM
            }
        },
    }
}

/// Takes the medium out of a bay, into a new tray.
#[unsafe(no_mangle)]
pub extern "C" fn telwyddus_disk_eject(
    alloc: Global,
    slot: &mut DiskSlot,
    bay: u32,
    tray: &mut TraySlot,
) -> u32
    ensures { Serves (λ code old new. InBay bay code ((new ≡ old) × (tray.new.held.tray ≡ tray.old.held.tray))
        (EjectsInto bay code tray.old.held.tray tray.new.held.tray old new)) (tray.new.held.tray ≡ tray.old.held.tray)
        result slot.old.held.desk slot.new.held.desk }
{
    let Some(mut desk) = slot.take(alloc) else {
        return EMPTY;
    };
    let code = eject_into(alloc, &mut desk, bay, tray);
    slot.put(desk);
    code
}

/// Takes the medium out of a bay of a desk, into a new tray.
fn eject_into(alloc: Global, desk: &mut SectorDesk, bay: u32, tray: &mut TraySlot) -> u32
    ensures { InBay bay result ((desk.new ≡ desk.old) × (tray.new.held.tray ≡ tray.old.held.tray))
        (EjectsInto bay result tray.old.held.tray tray.new.held.tray desk.old desk.new) }
{
    if bay > 1 {
        return OUT_OF_RANGE;
    }
    if tray.is_full() {
        return FULL;
    }
    let Ok(mut inside) = Box::new(alloc, MediumTray { medium: None }) else {
        return NO_MEMORY;
    };
    let Some(medium) = desk.eject(bay as u8) else {
        return NO_MEDIUM;
    };
    inside.medium = Some(medium);
    tray.put(inside);
    DONE
}

/// Acknowledges the medium in a bay, and finds its rate.
#[unsafe(no_mangle)]
pub extern "C" fn telwyddus_disk_acknowledge(alloc: Global, slot: &mut DiskSlot, bay: u32) -> u32
    ensures { Serves (λ code old new. InBay bay code (new ≡ old) (Acknowledges bay code old new)) ⊤
        result slot.old.held.desk slot.new.held.desk }
{
    let Some(mut desk) = slot.take(alloc) else {
        return EMPTY;
    };
    let code = acknowledge(&mut desk, bay);
    slot.put(desk);
    code
}

/// Acknowledges the medium in a bay of a desk.
fn acknowledge(desk: &mut SectorDesk, bay: u32) -> u32
    ensures { InBay bay result (desk.new ≡ desk.old) (Acknowledges bay result desk.old desk.new) }
{
    if bay > 1 {
        return OUT_OF_RANGE;
    }
    answer_code(desk.acknowledge(bay as u8))
}

/// Sets the rate of an acknowledged bay, 500 or 250 kbit/s.
#[unsafe(no_mangle)]
pub extern "C" fn telwyddus_disk_set_rate(
    alloc: Global,
    slot: &mut DiskSlot,
    bay: u32,
    kilobits: u16,
) -> u32
    ensures { Serves (λ code old new. InBay bay code (new ≡ old) (SetsRate bay kilobits code old new)) ⊤
        result slot.old.held.desk slot.new.held.desk }
{
    let Some(mut desk) = slot.take(alloc) else {
        return EMPTY;
    };
    let code = set_rate(&mut desk, bay, kilobits);
    slot.put(desk);
    code
}

/// Sets the rate of an acknowledged bay of a desk.
fn set_rate(desk: &mut SectorDesk, bay: u32, kilobits: u16) -> u32
    ensures { InBay bay result (desk.new ≡ desk.old) (SetsRate bay kilobits result desk.old desk.new) }
{
    if bay > 1 {
        return OUT_OF_RANGE;
    }
    match rate_named(kilobits) {
        None => OUT_OF_RANGE,
        Some(rate) => answer_code(desk.set_rate(bay as u8, rate)),
    }
}
