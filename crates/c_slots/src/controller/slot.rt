// What C keeps: a controller or nothing.
ghost use Rattle.std.specs.Prelude.{◌≡◌, ◌==◌, None, Some, Option};
ghost use Rattle.std.specs.Option.{is_some};
ghost use Rattle.c_slots.specs.Holders.{boxed};

use crate::WholeController;
use crate::controller::held::Held;
use std::alloc::Global;
use std::mem;

/// The tag of a slot that holds a controller: the bytes `TELC` in the order of a PC.
const FULL: u32 = 0x434C_4554;

/// A controller or nothing.
#[repr(C)]
pub struct ControllerSlot {
    pub held: Held,
    pub tag: u32,
    ghost same: { (tag == 1129071956) ≡ is_some held.controller },
}

impl ControllerSlot {
    /// Whether the slot holds a controller.
    pub fn is_full(&self) -> bool
        ensures { result ≡ is_some self.now.held.controller }
    {
        self.tag == FULL
    }

    fn empty(alloc: Global) -> ControllerSlot
        ensures { result.held.controller ≡ None }
    {
        ControllerSlot {
            held: Held::empty(alloc),
            tag: 0,
        }
    }

    fn of(controller: Box<WholeController>) -> ControllerSlot
        ensures { result.held.controller ≡ Some controller.value }
    {
        ControllerSlot {
            held: Held::of(controller),
            tag: FULL,
        }
    }

    fn into_box(self) -> Option<Box<WholeController>>
        ensures { boxed result ≡ self.held.controller }
    {
        let ControllerSlot { held, tag } = self;
        if tag == FULL {
            Some(held.into_box())
        } else {
            None
        }
    }

    /// Takes the controller out.
    pub fn take(&mut self, alloc: Global) -> Option<Box<WholeController>>
        ensures taken { boxed result ≡ self.old.held.controller }
        ensures left { self.new.held.controller ≡ None }
    {
        mem::replace(self, ControllerSlot::empty(alloc)).into_box()
    }

    /// Puts a controller in. What was in the slot is freed.
    pub fn put(&mut self, controller: Box<WholeController>)
        ensures { self.new.held.controller ≡ Some controller.value }
    {
        *self = ControllerSlot::of(controller);
    }
}

impl Drop for ControllerSlot {
    fn drop(self) {
        drop(self.into_box());
    }
}
