// Written by tools/slots. Change src/controller/slot.rt, of which this is a copy.
// What C keeps: a shelf or nothing.
ghost use Rattle.std.specs.Prelude.{◌≡◌, ◌==◌, None, Some, Option};
ghost use Rattle.std.specs.Option.{is_some};
ghost use Rattle.c_slots.specs.Holders.{boxed};

use crate::RunShelf;
use crate::shelf::held::Held;
use std::alloc::Global;
use std::mem;

/// The tag of a slot that holds a shelf: the bytes `TELS` in the order of a PC.
const FULL: u32 = 0x534C_4554;

/// A shelf or nothing.
#[repr(C)]
pub struct ShelfSlot {
    pub held: Held,
    pub tag: u32,
    ghost same: { (tag == 1397507412) ≡ is_some held.shelf },
}

impl ShelfSlot {
    /// Whether the slot holds a shelf.
    pub fn is_full(&self) -> bool
        ensures { result ≡ is_some self.now.held.shelf }
    {
        self.tag == FULL
    }

    fn empty(alloc: Global) -> ShelfSlot
        ensures { result.held.shelf ≡ None }
    {
        ShelfSlot {
            held: Held::empty(alloc),
            tag: 0,
        }
    }

    fn of(shelf: Box<RunShelf>) -> ShelfSlot
        ensures { result.held.shelf ≡ Some shelf.value }
    {
        ShelfSlot {
            held: Held::of(shelf),
            tag: FULL,
        }
    }

    fn into_box(self) -> Option<Box<RunShelf>>
        ensures { boxed result ≡ self.held.shelf }
    {
        let ShelfSlot { held, tag } = self;
        if tag == FULL {
            Some(held.into_box())
        } else {
            None
        }
    }

    /// Takes the shelf out.
    pub fn take(&mut self, alloc: Global) -> Option<Box<RunShelf>>
        ensures taken { boxed result ≡ self.old.held.shelf }
        ensures left { self.new.held.shelf ≡ None }
    {
        mem::replace(self, ShelfSlot::empty(alloc)).into_box()
    }

    /// Puts a shelf in. What was in the slot is freed.
    pub fn put(&mut self, shelf: Box<RunShelf>)
        ensures { self.new.held.shelf ≡ Some shelf.value }
    {
        *self = ShelfSlot::of(shelf);
    }
}

impl Drop for ShelfSlot {
    fn drop(self) {
        drop(self.into_box());
    }
}
