// The desk's making.
ghost use Rattle.telwyddus_c.specs.Disks.{IsBareDesk};
ghost use Rattle.telwyddus_c.specs.Slots.{Fills, Frees, Moves};

use crate::code::{DONE, EMPTY, FULL, NO_MEMORY};
use c_slots::DiskSlot;
use sector_desk::SectorDesk;
use std::alloc::Global;

/// Makes a desk with two empty bays.
#[unsafe(no_mangle)]
pub extern "C" fn telwyddus_disk_new(alloc: Global, slot: &mut DiskSlot) -> u32
    ensures { Fills IsBareDesk result slot.old.held.desk slot.new.held.desk }
{
    if slot.is_full() {
        return FULL;
    }
    let Ok(desk) = SectorDesk::new(alloc) else {
        return NO_MEMORY;
    };
    let Ok(desk) = Box::new(alloc, desk) else {
        return NO_MEMORY;
    };
    slot.put(desk);
    DONE
}

/// Frees the desk with its media.
#[unsafe(no_mangle)]
pub extern "C" fn telwyddus_disk_free(alloc: Global, slot: &mut DiskSlot) -> u32
    ensures { Frees result slot.old.held.desk slot.new.held.desk }
{
    match slot.take(alloc) {
        None => EMPTY,
        Some(_desk) => DONE,
    }
}

/// Moves the desk, with its media, into a slot that is empty.
#[unsafe(no_mangle)]
pub extern "C" fn telwyddus_disk_move(alloc: Global, to: &mut DiskSlot, from: &mut DiskSlot) -> u32
    ensures { Moves result from.old.held.desk from.new.held.desk to.old.held.desk to.new.held.desk }
{
    if to.is_full() {
        return FULL;
    }
    let Some(desk) = from.take(alloc) else {
        return EMPTY;
    };
    to.put(desk);
    DONE
}
