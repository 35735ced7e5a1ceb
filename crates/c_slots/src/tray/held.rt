// Written by tools/slots. Change src/controller/held.rt, of which this is a copy.
// A pointer that owns a tray, or nothing.
ghost use Rattle.std.specs.Prelude.{◌≡◌, None, Some, Option};
ghost use Rattle.c_slots.specs.Trays.{TrayValue, tray_row};
ghost use Rattle.c_slots.specs.Holders.{held_owns, held_coded};

use crate::MediumTray;
use crate::loose::Loose;
use std::alloc::Global;
use std::marker::Model;
use std::ptr::null_mut;

/// A pointer, with the tray that it owns, if any.
#[repr(C)]
#[derive(Drop)]
pub struct Held {
    at: *mut (),
    pub alloc: Global,
    pub ghost tray: { Option TrayValue } by { held_coded tray_row },
}

impl Model for Held {
    ghost also_owns = { λ h. held_owns tray_row h.alloc h.at h.tray };
}

impl Held {
    pub fn empty(alloc: Global) -> Held
        ensures { result.tray ≡ None }
    {
        Held {
            at: null_mut(),
            alloc,
        }
    }

    pub fn of(tray: Box<MediumTray>) -> Held
        ensures { result.tray ≡ Some tray.value }
    {
        Held::of_loose(Loose::of(tray))
    }

    pub fn into_box(self) -> Box<MediumTray>
        requires { (tray : TrayValue) × (self.tray ≡ Some tray) }
        ensures { self.tray ≡ Some result.value }
    {
        self.into_loose().into_box()
    }

    fn of_loose(loose: Loose<MediumTray, Global>) -> Held
        ensures { result.tray ≡ Some loose.value }
    {
        let Loose { at, alloc } = loose;
        Held {
            at: at as *mut (),
            alloc,
        }
    }

    fn into_loose(self) -> Loose<MediumTray, Global>
        requires { (tray : TrayValue) × (self.tray ≡ Some tray) }
        ensures { self.tray ≡ Some result.value }
    {
        let Held { at, alloc } = self;
        Loose {
            at: at as *mut MediumTray,
            alloc,
        }
    }
}

// The holder may go to another thread, as what it owns may.
unsafe impl Send for Held {}
