// Written by tools/slots. Change src/controller/slot.rt, of which this is a copy.
// What C keeps: a desk or nothing.
ghost use Rattle.std.specs.Prelude.{◌≡◌, ◌==◌, None, Some, Option};
ghost use Rattle.std.specs.Option.{is_some};
ghost use Rattle.c_slots.specs.Holders.{boxed};

use crate::SectorDesk;
use crate::disk::held::Held;
use std::alloc::Global;
use std::mem;

/// The tag of a slot that holds a desk: the bytes `TELD` in the order of a PC.
const FULL: u32 = 0x444C_4554;

/// A desk or nothing.
#[repr(C)]
pub struct DiskSlot {
    pub held: Held,
    pub tag: u32,
    ghost same: { (tag == 1145849172) ≡ is_some held.desk },
}

impl DiskSlot {
    /// Whether the slot holds a desk.
    pub fn is_full(&self) -> bool
        ensures { result ≡ is_some self.now.held.desk }
    {
        self.tag == FULL
    }

    fn empty(alloc: Global) -> DiskSlot
        ensures { result.held.desk ≡ None }
    {
        DiskSlot {
            held: Held::empty(alloc),
            tag: 0,
        }
    }

    fn of(desk: Box<SectorDesk>) -> DiskSlot
        ensures { result.held.desk ≡ Some desk.value }
    {
        DiskSlot {
            held: Held::of(desk),
            tag: FULL,
        }
    }

    fn into_box(self) -> Option<Box<SectorDesk>>
        ensures { boxed result ≡ self.held.desk }
    {
        let DiskSlot { held, tag } = self;
        if tag == FULL {
            Some(held.into_box())
        } else {
            None
        }
    }

    /// Takes the desk out.
    pub fn take(&mut self, alloc: Global) -> Option<Box<SectorDesk>>
        ensures taken { boxed result ≡ self.old.held.desk }
        ensures left { self.new.held.desk ≡ None }
    {
        mem::replace(self, DiskSlot::empty(alloc)).into_box()
    }

    /// Puts a desk in. What was in the slot is freed.
    pub fn put(&mut self, desk: Box<SectorDesk>)
        ensures { self.new.held.desk ≡ Some desk.value }
    {
        *self = DiskSlot::of(desk);
    }
}

impl Drop for DiskSlot {
    fn drop(self) {
        drop(self.into_box());
    }
}
