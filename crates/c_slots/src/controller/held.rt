// A pointer that owns a controller, or nothing.
ghost use Rattle.std.specs.Prelude.{◌≡◌, None, Some, Option};
ghost use Rattle.c_slots.specs.Controllers.{ControllerValue, controller_row};
ghost use Rattle.c_slots.specs.Holders.{held_owns, held_coded};

use crate::WholeController;
use crate::loose::Loose;
use std::alloc::Global;
use std::marker::Model;
use std::ptr::null_mut;

/// A pointer, with the controller that it owns, if any.
#[repr(C)]
#[derive(Drop)]
pub struct Held {
    at: *mut (),
    pub alloc: Global,
    pub ghost controller: { Option ControllerValue } by { held_coded controller_row },
}

impl Model for Held {
    ghost also_owns = { λ h. held_owns controller_row h.alloc h.at h.controller };
}

impl Held {
    pub fn empty(alloc: Global) -> Held
        ensures { result.controller ≡ None }
    {
        Held {
            at: null_mut(),
            alloc,
        }
    }

    pub fn of(controller: Box<WholeController>) -> Held
        ensures { result.controller ≡ Some controller.value }
    {
        Held::of_loose(Loose::of(controller))
    }

    pub fn into_box(self) -> Box<WholeController>
        requires { (controller : ControllerValue) × (self.controller ≡ Some controller) }
        ensures { self.controller ≡ Some result.value }
    {
        self.into_loose().into_box()
    }

    fn of_loose(loose: Loose<WholeController, Global>) -> Held
        ensures { result.controller ≡ Some loose.value }
    {
        let Loose { at, alloc } = loose;
        Held {
            at: at as *mut (),
            alloc,
        }
    }

    fn into_loose(self) -> Loose<WholeController, Global>
        requires { (controller : ControllerValue) × (self.controller ≡ Some controller) }
        ensures { self.controller ≡ Some result.value }
    {
        let Held { at, alloc } = self;
        Loose {
            at: at as *mut WholeController,
            alloc,
        }
    }
}

// The holder may go to another thread, as what it owns may.
unsafe impl Send for Held {}
