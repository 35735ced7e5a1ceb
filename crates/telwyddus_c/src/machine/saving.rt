// The machine's state as bytes, and back.
ghost use Rattle.std.specs.Prelude.{◌≡◌};
ghost use Rattle.telwyddus_c.specs.Slots.{Serves};
ghost use Rattle.telwyddus_c.specs.States.{spelled_bench, BenchFits, WritesState, RestoresState};

use crate::code::{BAD_STATE, DONE, EMPTY, NO_MEMORY};
use crate::state::{read_state, write_state};
use c_slots::{BenchMachine, MachineSlot};
use saved_state::RestoreError;
use std::alloc::Global;

/// Writes the machine's state, with its memory, its drives and their media, to the beginning of a buffer, and reports
/// its length. The machine goes on.
#[unsafe(no_mangle)]
pub extern "C" fn telwyddus_machine_save(
    alloc: Global,
    slot: &mut MachineSlot,
    out: &mut [u8],
    length: &mut usize,
) -> u32
    ensures { Serves (λ code old new. (new ≡ old) × WritesState BenchFits spelled_bench old code out.old out.new length.old length.new)
        ((out.new ≡ out.old) × (length.new ≡ length.old)) result slot.old.held.machine slot.new.held.machine }
{
    let Some(machine) = slot.take(alloc) else {
        return EMPTY;
    };
    let code = save(alloc, &machine, out, length);
    slot.put(machine);
    code
}

/// Writes the state of a machine.
fn save(alloc: Global, machine: &BenchMachine, out: &mut [u8], length: &mut usize) -> u32
    ensures { WritesState BenchFits spelled_bench machine.now result out.old out.new length.old length.new }
{
    write_state(alloc, machine, out, length)
}

/// Makes the slot hold the machine whose state the bytes are, in place of what it holds.
#[unsafe(no_mangle)]
pub extern "C" fn telwyddus_machine_restore(
    alloc: Global,
    slot: &mut MachineSlot,
    bytes: &[u8],
) -> u32
    ensures { RestoresState BenchFits spelled_bench bytes.now result slot.old.held.machine slot.new.held.machine }
{
    match read_state(alloc, bytes) {
        Ok(machine) => {
            slot.put(machine);
            DONE
        }
        Err(RestoreError::NoState) => BAD_STATE,
        Err(RestoreError::NoMemory) => NO_MEMORY,
    }
}
