// The machine's memory.
ghost use Rattle.std.specs.Prelude.{◌≡◌, ⊤};
ghost use Rattle.telwyddus_c.specs.Common.{memory_of};
ghost use Rattle.telwyddus_c.specs.Machines.{board_of, CopiesOut, CopiesIn};
ghost use Rattle.telwyddus_c.specs.Slots.{Serves};

use crate::code::{DONE, EMPTY, OUT_OF_RANGE};
use c_slots::{BenchMachine, MachineSlot};
use std::alloc::Global;

/// How many bytes of memory the machine has.
const MEMORY: usize = 1048576;

/// Copies bytes of memory out, from an address on.
#[unsafe(no_mangle)]
pub extern "C" fn telwyddus_machine_memory_get(
    alloc: Global,
    slot: &mut MachineSlot,
    address: usize,
    out: &mut [u8],
) -> u32
    ensures { Serves (λ code old new. (new ≡ old) × CopiesOut address (memory_of (board_of old)) code out.old out.new) (out.new ≡ out.old)
        result slot.old.held.machine slot.new.held.machine }
{
    let Some(machine) = slot.take(alloc) else {
        return EMPTY;
    };
    let code = get(&machine, address, out);
    slot.put(machine);
    code
}

/// Copies bytes of a machine's memory out.
fn get(machine: &BenchMachine, address: usize, out: &mut [u8]) -> u32
    ensures { CopiesOut address (memory_of (board_of machine.now)) result out.old out.new }
{
    if address > MEMORY || out.len() > MEMORY - address {
        return OUT_OF_RANGE;
    }
    for i in 0..out.len() {
        out[i] = machine.ram((address + i) as u32);
    }
    DONE
}

/// Copies bytes into memory, from an address on.
#[unsafe(no_mangle)]
pub extern "C" fn telwyddus_machine_memory_set(
    alloc: Global,
    slot: &mut MachineSlot,
    address: usize,
    bytes: &[u8],
) -> u32
    ensures { Serves (λ code old new. CopiesIn address bytes.now code old new) ⊤
        result slot.old.held.machine slot.new.held.machine }
{
    let Some(mut machine) = slot.take(alloc) else {
        return EMPTY;
    };
    let code = set(&mut machine, address, bytes);
    slot.put(machine);
    code
}

/// Copies bytes into a machine's memory.
fn set(machine: &mut BenchMachine, address: usize, bytes: &[u8]) -> u32
    ensures { CopiesIn address bytes.now result machine.old machine.new }
{
    if address > MEMORY || bytes.len() > MEMORY - address {
        return OUT_OF_RANGE;
    }
    for i in 0..bytes.len() {
        let at = (address + i) as u32;
        // This read is only for what it says of memory: its length.
        let _before = machine.ram(at);
        machine.ram_set(at, bytes[i]);
    }
    DONE
}
