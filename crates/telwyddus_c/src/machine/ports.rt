// The machine's ports, its device steps and its interrupt latch.
ghost use Rattle.std.specs.Prelude.{◌≡◌, ◌≤◌, ◌==◌, ⊤};
ghost use Rattle.telwyddus_c.specs.Common.{latch_of, irq_taken, Runs, stirred};
ghost use Rattle.pc_bus.specs.Ports.{Inputs, Outputs};
ghost use Rattle.telwyddus_c.specs.Machines.{board_of, WaitsTelling};
ghost use Rattle.telwyddus_c.specs.Slots.{Serves};

use crate::code::{DONE, EMPTY};
use c_slots::{BenchMachine, MachineSlot};
use std::alloc::Global;

/// Reads a port.
#[unsafe(no_mangle)]
pub extern "C" fn telwyddus_machine_inb(
    alloc: Global,
    slot: &mut MachineSlot,
    port: u16,
    value: &mut u8,
) -> u32
    ensures { Serves (λ code old new. (code ≡ 0) × Inputs port (board_of old) value.new (board_of new)) (value.new ≡ value.old)
        result slot.old.held.machine slot.new.held.machine }
{
    let Some(mut machine) = slot.take(alloc) else {
        return EMPTY;
    };
    *value = machine.inb(port);
    slot.put(machine);
    DONE
}

/// Writes a port.
#[unsafe(no_mangle)]
pub extern "C" fn telwyddus_machine_outb(
    alloc: Global,
    slot: &mut MachineSlot,
    port: u16,
    value: u8,
) -> u32
    ensures { Serves (λ code old new. (code ≡ 0) × Outputs port value (board_of old) (board_of new)) ⊤
        result slot.old.held.machine slot.new.held.machine }
{
    let Some(mut machine) = slot.take(alloc) else {
        return EMPTY;
    };
    machine.outb(port, value);
    slot.put(machine);
    DONE
}

/// Runs device steps.
#[unsafe(no_mangle)]
pub extern "C" fn telwyddus_machine_wait(alloc: Global, slot: &mut MachineSlot, steps: u32) -> u32
    ensures { Serves (λ code old new. (code ≡ 0) × Runs steps (stirred (board_of old)) (board_of new)) ⊤
        result slot.old.held.machine slot.new.held.machine }
{
    let Some(mut machine) = slot.take(alloc) else {
        return EMPTY;
    };
    machine.wait(steps);
    slot.put(machine);
    DONE
}

/// Runs device steps until the latch is set, at most `most`, and reports how many were made, and whether it is set.
#[unsafe(no_mangle)]
pub extern "C" fn telwyddus_machine_wait_irq(
    alloc: Global,
    slot: &mut MachineSlot,
    most: u32,
    made: &mut u32,
    is_set: &mut u8,
) -> u32
    ensures { Serves (λ code old new. (code ≡ 0) × WaitsTelling most made.new is_set.new (board_of old) (board_of new))
        ((made.new ≡ made.old) × (is_set.new ≡ is_set.old)) result slot.old.held.machine slot.new.held.machine }
{
    let Some(mut machine) = slot.take(alloc) else {
        return EMPTY;
    };
    wait_irq(&mut machine, most, made, is_set);
    slot.put(machine);
    DONE
}

/// Runs device steps of a machine until the latch is set.
fn wait_irq(machine: &mut BenchMachine, most: u32, made: &mut u32, is_set: &mut u8)
    ensures { WaitsTelling most made.new is_set.new (board_of machine.old) (board_of machine.new) }
{
    *made = machine.run_to_irq(most);
    *is_set = byte_of(machine.is_irq_set());
}

/// Takes the interrupt latch, and reports whether it was set.
#[unsafe(no_mangle)]
pub extern "C" fn telwyddus_machine_take_irq(
    alloc: Global,
    slot: &mut MachineSlot,
    was_set: &mut u8,
) -> u32
    ensures { Serves (λ code old new. (code ≡ 0) × ((was_set.new == 1) ≡ (latch_of (board_of old)).is_set) × (was_set.new ≤ 1)
        × (board_of new ≡ record (board_of old) { bus = irq_taken (board_of old).bus })) (was_set.new ≡ was_set.old)
        result slot.old.held.machine slot.new.held.machine }
{
    let Some(mut machine) = slot.take(alloc) else {
        return EMPTY;
    };
    *was_set = byte_of(machine.take_irq());
    slot.put(machine);
    DONE
}

/// 1 for yes, 0 for no.
fn byte_of(yes: bool) -> u8
    ensures one { (result == 1) ≡ yes }
    ensures bit { result ≤ 1 }
{
    if yes { 1 } else { 0 }
}
