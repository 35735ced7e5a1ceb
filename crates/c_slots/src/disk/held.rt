// Written by tools/slots. Change src/controller/held.rt, of which this is a copy.
// A pointer that owns a desk, or nothing.
ghost use Rattle.std.specs.Prelude.{◌≡◌, None, Some, Option};
ghost use Rattle.c_slots.specs.Disks.{DeskValue, desk_row};
ghost use Rattle.c_slots.specs.Holders.{held_owns, held_coded};

use crate::SectorDesk;
use crate::loose::Loose;
use std::alloc::Global;
use std::marker::Model;
use std::ptr::null_mut;

/// A pointer, with the desk that it owns, if any.
#[repr(C)]
#[derive(Drop)]
pub struct Held {
    at: *mut (),
    pub alloc: Global,
    pub ghost desk: { Option DeskValue } by { held_coded desk_row },
}

impl Model for Held {
    ghost also_owns = { λ h. held_owns desk_row h.alloc h.at h.desk };
}

impl Held {
    pub fn empty(alloc: Global) -> Held
        ensures { result.desk ≡ None }
    {
        Held {
            at: null_mut(),
            alloc,
        }
    }

    pub fn of(desk: Box<SectorDesk>) -> Held
        ensures { result.desk ≡ Some desk.value }
    {
        Held::of_loose(Loose::of(desk))
    }

    pub fn into_box(self) -> Box<SectorDesk>
        requires { (desk : DeskValue) × (self.desk ≡ Some desk) }
        ensures { self.desk ≡ Some result.value }
    {
        self.into_loose().into_box()
    }

    fn of_loose(loose: Loose<SectorDesk, Global>) -> Held
        ensures { result.desk ≡ Some loose.value }
    {
        let Loose { at, alloc } = loose;
        Held {
            at: at as *mut (),
            alloc,
        }
    }

    fn into_loose(self) -> Loose<SectorDesk, Global>
        requires { (desk : DeskValue) × (self.desk ≡ Some desk) }
        ensures { self.desk ≡ Some result.value }
    {
        let Held { at, alloc } = self;
        Loose {
            at: at as *mut SectorDesk,
            alloc,
        }
    }
}

// The holder may go to another thread, as what it owns may.
unsafe impl Send for Held {}
