// Written by tools/slots. Change src/controller/held.rt, of which this is a copy.
// A pointer that owns a machine, or nothing.
ghost use Rattle.std.specs.Prelude.{◌≡◌, None, Some, Option};
ghost use Rattle.c_slots.specs.Machines.{MachineValue, machine_row};
ghost use Rattle.c_slots.specs.Holders.{held_owns, held_coded};

use crate::BenchMachine;
use crate::loose::Loose;
use std::alloc::Global;
use std::marker::Model;
use std::ptr::null_mut;

/// A pointer, with the machine that it owns, if any.
#[repr(C)]
#[derive(Drop)]
pub struct Held {
    at: *mut (),
    pub alloc: Global,
    pub ghost machine: { Option MachineValue } by { held_coded machine_row },
}

impl Model for Held {
    ghost also_owns = { λ h. held_owns machine_row h.alloc h.at h.machine };
}

impl Held {
    pub fn empty(alloc: Global) -> Held
        ensures { result.machine ≡ None }
    {
        Held {
            at: null_mut(),
            alloc,
        }
    }

    pub fn of(machine: Box<BenchMachine>) -> Held
        ensures { result.machine ≡ Some machine.value }
    {
        Held::of_loose(Loose::of(machine))
    }

    pub fn into_box(self) -> Box<BenchMachine>
        requires { (machine : MachineValue) × (self.machine ≡ Some machine) }
        ensures { self.machine ≡ Some result.value }
    {
        self.into_loose().into_box()
    }

    fn of_loose(loose: Loose<BenchMachine, Global>) -> Held
        ensures { result.machine ≡ Some loose.value }
    {
        let Loose { at, alloc } = loose;
        Held {
            at: at as *mut (),
            alloc,
        }
    }

    fn into_loose(self) -> Loose<BenchMachine, Global>
        requires { (machine : MachineValue) × (self.machine ≡ Some machine) }
        ensures { self.machine ≡ Some result.value }
    {
        let Held { at, alloc } = self;
        Loose {
            at: at as *mut BenchMachine,
            alloc,
        }
    }
}

// The holder may go to another thread, as what it owns may.
unsafe impl Send for Held {}
