// Written by tools/slots. Change src/controller/slot.rt, of which this is a copy.
// What C keeps: a machine or nothing.
ghost use Rattle.std.specs.Prelude.{◌≡◌, ◌==◌, None, Some, Option};
ghost use Rattle.std.specs.Option.{is_some};
ghost use Rattle.c_slots.specs.Holders.{boxed};

use crate::BenchMachine;
use crate::machine::held::Held;
use std::alloc::Global;
use std::mem;

/// The tag of a slot that holds a machine: the bytes `TELM` in the order of a PC.
const FULL: u32 = 0x4D4C_4554;

/// A machine or nothing.
#[repr(C)]
pub struct MachineSlot {
    pub held: Held,
    pub tag: u32,
    ghost same: { (tag == 1296844116) ≡ is_some held.machine },
}

impl MachineSlot {
    /// Whether the slot holds a machine.
    pub fn is_full(&self) -> bool
        ensures { result ≡ is_some self.now.held.machine }
    {
        self.tag == FULL
    }

    fn empty(alloc: Global) -> MachineSlot
        ensures { result.held.machine ≡ None }
    {
        MachineSlot {
            held: Held::empty(alloc),
            tag: 0,
        }
    }

    fn of(machine: Box<BenchMachine>) -> MachineSlot
        ensures { result.held.machine ≡ Some machine.value }
    {
        MachineSlot {
            held: Held::of(machine),
            tag: FULL,
        }
    }

    fn into_box(self) -> Option<Box<BenchMachine>>
        ensures { boxed result ≡ self.held.machine }
    {
        let MachineSlot { held, tag } = self;
        if tag == FULL {
            Some(held.into_box())
        } else {
            None
        }
    }

    /// Takes the machine out.
    pub fn take(&mut self, alloc: Global) -> Option<Box<BenchMachine>>
        ensures taken { boxed result ≡ self.old.held.machine }
        ensures left { self.new.held.machine ≡ None }
    {
        mem::replace(self, MachineSlot::empty(alloc)).into_box()
    }

    /// Puts a machine in. What was in the slot is freed.
    pub fn put(&mut self, machine: Box<BenchMachine>)
        ensures { self.new.held.machine ≡ Some machine.value }
    {
        *self = MachineSlot::of(machine);
    }
}

impl Drop for MachineSlot {
    fn drop(self) {
        drop(self.into_box());
    }
}
