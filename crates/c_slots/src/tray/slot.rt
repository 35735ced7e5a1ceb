// Written by tools/slots. Change src/controller/slot.rt, of which this is a copy.
// What C keeps: a tray or nothing.
ghost use Rattle.std.specs.Prelude.{◌≡◌, ◌==◌, None, Some, Option};
ghost use Rattle.std.specs.Option.{is_some};
ghost use Rattle.c_slots.specs.Holders.{boxed};

use crate::MediumTray;
use crate::tray::held::Held;
use std::alloc::Global;
use std::mem;

/// The tag of a slot that holds a tray: the bytes `TELT` in the order of a PC.
const FULL: u32 = 0x544C_4554;

/// A tray or nothing.
#[repr(C)]
pub struct TraySlot {
    pub held: Held,
    pub tag: u32,
    ghost same: { (tag == 1414284628) ≡ is_some held.tray },
}

impl TraySlot {
    /// Whether the slot holds a tray.
    pub fn is_full(&self) -> bool
        ensures { result ≡ is_some self.now.held.tray }
    {
        self.tag == FULL
    }

    fn empty(alloc: Global) -> TraySlot
        ensures { result.held.tray ≡ None }
    {
        TraySlot {
            held: Held::empty(alloc),
            tag: 0,
        }
    }

    fn of(tray: Box<MediumTray>) -> TraySlot
        ensures { result.held.tray ≡ Some tray.value }
    {
        TraySlot {
            held: Held::of(tray),
            tag: FULL,
        }
    }

    fn into_box(self) -> Option<Box<MediumTray>>
        ensures { boxed result ≡ self.held.tray }
    {
        let TraySlot { held, tag } = self;
        if tag == FULL {
            Some(held.into_box())
        } else {
            None
        }
    }

    /// Takes the tray out.
    pub fn take(&mut self, alloc: Global) -> Option<Box<MediumTray>>
        ensures taken { boxed result ≡ self.old.held.tray }
        ensures left { self.new.held.tray ≡ None }
    {
        mem::replace(self, TraySlot::empty(alloc)).into_box()
    }

    /// Puts a tray in. What was in the slot is freed.
    pub fn put(&mut self, tray: Box<MediumTray>)
        ensures { self.new.held.tray ≡ Some tray.value }
    {
        *self = TraySlot::of(tray);
    }
}

impl Drop for TraySlot {
    fn drop(self) {
        drop(self.into_box());
    }
}
