// Calls past the controller: to memory, media and drives, and to the latch.
ghost use Rattle.std.specs.Prelude.{◌≡◌, ◌≤◌, ◌<◌, ◌^◌, ◌↔◌, ℕ, IsErr, IsSome, OnOk, IfErr, length, slice_index, true};
ghost use Rattle.pc_bus.specs.Common.{loaded, unloaded, FollowsMotor};
ghost use Rattle.pc_bus.specs.Boards.{board, drive_in, controller_of, memory_of, latch_of, IsEmpty};
ghost use Rattle.pc_bus.specs.Handling.{Touches, byte_set, irq_taken};

use crate::machine::MachineOf;
use drive_model::Drive;
use fdc_core::drives::follow_motor;
use raw_image::Medium;
use std::mem;

impl<D: Drive> MachineOf<D> {
    /// Takes the interrupt latch, and tells whether it was set.
    pub fn take_irq(&mut self) -> bool
        ensures was { result ≡ (latch_of (board D.state self.old)).is_set }
        ensures after { board D.state self.new ≡ record (board D.state self.old) { bus = irq_taken (board D.state self.old).bus } }
    {
        self.bus.take_irq()
    }

    /// A byte of memory, at an address from 00000 to FFFFF. Reading it isn't counted as an access.
    pub fn ram(&self, address: u32) -> u8
        requires { address < 1048576 }
        ensures byte { result ≡ slice_index (memory_of (board D.state self.now)) address }
        ensures length { length (memory_of (board D.state self.now)) ≡ 1048576 }
        ensures bytes { (k : ℕ) → slice_index (memory_of (board D.state self.now)) k < 2 ^ 8 }
    {
        self.bus.chips.memory.byte(address)
    }

    /// Sets a byte of memory, at an address from 00000 to FFFFF. Below F0000 this is counted as an access past the
    /// controller.
    pub fn ram_set(&mut self, address: u32, value: u8)
        requires { address < 1048576 }
        ensures { board D.state self.new ≡ record (board D.state self.old) { bus = byte_set address value (board D.state self.old).bus } }
    {
        self.bus.set_byte(address, value);
    }

    /// Puts a medium into a bay. If one is in already, the new one is given back.
    pub fn insert(&mut self, bay: u8, medium: Medium) -> Result<(), Medium>
        requires { bay ≤ 1 }
        ensures touches { Touches bay (board D.state self.old) (board D.state self.new) }
        ensures refused { IsErr result ↔ IsSome (drive_in (board D.state self.old) bay).medium }
        ensures ok { OnOk result
            (drive_in (board D.state self.new) bay ≡ loaded medium (drive_in (board D.state self.old) bay)) }
        ensures err { IfErr result (λ back. (back ≡ medium)
            × (drive_in (board D.state self.new) bay ≡ drive_in (board D.state self.old) bay)) }
    {
        self.bus.touch();
        if bay == 0 {
            self.first.insert(medium)
        } else {
            self.second.insert(medium)
        }
    }

    /// Takes the medium out of a bay.
    pub fn eject(&mut self, bay: u8) -> Option<Medium>
        requires { bay ≤ 1 }
        ensures touches { Touches bay (board D.state self.old) (board D.state self.new) }
        ensures medium { result ≡ (drive_in (board D.state self.old) bay).medium }
        ensures becomes { drive_in (board D.state self.new) bay ≡ unloaded (drive_in (board D.state self.old) bay) }
    {
        self.bus.touch();
        if bay == 0 {
            self.first.eject()
        } else {
            self.second.eject()
        }
    }

    /// Puts another drive into a bay, sets the motor line of the new drive, and hands out the old one.
    pub fn exchange(&mut self, bay: u8, drive: D) -> D
        requires bay { bay ≤ 1 }
        requires empty { IsEmpty (D.state drive) }
        ensures touches { Touches bay (board D.state self.old) (board D.state self.new) }
        ensures old { D.state result ≡ drive_in (board D.state self.old) bay }
        ensures new { FollowsMotor bay (controller_of (board D.state self.old)) (D.state drive) (drive_in (board D.state self.new) bay) }
    {
        self.bus.touch();
        let mut next = drive;
        follow_motor(&self.bus.chips.controller, bay, &mut next);
        if bay == 0 {
            mem::replace(&mut self.first, next)
        } else {
            mem::replace(&mut self.second, next)
        }
    }
}
