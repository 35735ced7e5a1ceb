// Written by tools/slots. Change src/controller/held.rt, of which this is a copy.
// A pointer that owns a shelf, or nothing.
ghost use Rattle.std.specs.Prelude.{◌≡◌, None, Some, Option};
ghost use Rattle.c_slots.specs.Shelves.{ShelfValue, shelf_row};
ghost use Rattle.c_slots.specs.Holders.{held_owns, held_coded};

use crate::RunShelf;
use crate::loose::Loose;
use std::alloc::Global;
use std::marker::Model;
use std::ptr::null_mut;

/// A pointer, with the shelf that it owns, if any.
#[repr(C)]
#[derive(Drop)]
pub struct Held {
    at: *mut (),
    pub alloc: Global,
    pub ghost shelf: { Option ShelfValue } by { held_coded shelf_row },
}

impl Model for Held {
    ghost also_owns = { λ h. held_owns shelf_row h.alloc h.at h.shelf };
}

impl Held {
    pub fn empty(alloc: Global) -> Held
        ensures { result.shelf ≡ None }
    {
        Held {
            at: null_mut(),
            alloc,
        }
    }

    pub fn of(shelf: Box<RunShelf>) -> Held
        ensures { result.shelf ≡ Some shelf.value }
    {
        Held::of_loose(Loose::of(shelf))
    }

    pub fn into_box(self) -> Box<RunShelf>
        requires { (shelf : ShelfValue) × (self.shelf ≡ Some shelf) }
        ensures { self.shelf ≡ Some result.value }
    {
        self.into_loose().into_box()
    }

    fn of_loose(loose: Loose<RunShelf, Global>) -> Held
        ensures { result.shelf ≡ Some loose.value }
    {
        let Loose { at, alloc } = loose;
        Held {
            at: at as *mut (),
            alloc,
        }
    }

    fn into_loose(self) -> Loose<RunShelf, Global>
        requires { (shelf : ShelfValue) × (self.shelf ≡ Some shelf) }
        ensures { self.shelf ≡ Some result.value }
    {
        let Held { at, alloc } = self;
        Loose {
            at: at as *mut RunShelf,
            alloc,
        }
    }
}

// The holder may go to another thread, as what it owns may.
unsafe impl Send for Held {}
