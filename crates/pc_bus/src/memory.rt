// The memory of the machine.
ghost use Rattle.std.specs.Prelude.{◌≡◌, ◌==◌, ◌<◌, ◌^◌, ℕ, IfOk, IsTrue, length, slice_index, slice_set};
ghost use Rattle.pc_bus.specs.Common.{zeroes, grants, after_transfer};
ghost use Rattle.pc_bus.specs.Transfers.{byte_read, memory_after};

mod saving;

use dma_8237::{Dma, MEMORY_SIZE};
use flop_base::NoMemory;
use std::alloc::Global;
use std::marker::Model;

/// 1,048,576 bytes, at addresses 00000 to FFFFF.
#[derive(Drop)]
pub struct Memory {
    bytes: Vec<u8>,
}

impl Model for Memory {
    ghost use Rattle.std.specs.Prelude.{◌≡◌, ℕ, List, length};

    ghost Value = { List ℕ };

    ghost view = { λ memory. memory.bytes.items };

    ghost invariant = { λ memory. length memory.bytes.items ≡ 1048576 };
}

impl Memory {
    /// Memory whose bytes are all 00.
    pub fn new(alloc: Global) -> Result<Memory, NoMemory>
        ensures { IfOk result (λ memory. memory ≡ zeroes 1048576) }
    {
        Ok(Memory {
            bytes: blank(alloc, MEMORY_SIZE)?,
        })
    }

    /// The byte at an address.
    pub fn byte(&self, address: u32) -> u8
        requires { address < MEMORY_SIZE }
        ensures byte { result ≡ slice_index self.now address }
        ensures length { length self.now ≡ 1048576 }
        ensures bytes { (k : ℕ) → slice_index self.now k < 2 ^ 8 }
    {
        keep_bytes(&self.bytes);
        self.bytes[address as usize]
    }

    /// Replaces the byte at an address. This isn't counted as an access here.
    pub fn set(&mut self, address: u32, value: u8)
        requires { address < MEMORY_SIZE }
        ensures { self.new ≡ slice_set self.old address value }
    {
        self.bytes[address as usize] = value;
    }

    /// Takes a byte through the channel, and tells whether it is the last one (TC).
    pub fn receive(&mut self, channel: &mut Dma, byte: u8) -> bool
        requires { IsTrue (grants channel.old) }
        ensures terminal { result ≡ (channel.old.count == 0) }
        ensures channel { channel.new ≡ after_transfer channel.old }
        ensures memory { self.new ≡ memory_after channel.old byte self.old }
    {
        channel.move_in(&mut self.bytes, byte)
    }

    /// Gives a byte through the channel, and tells whether it is the last one (TC).
    pub fn deliver(&self, channel: &mut Dma) -> (u8, bool)
        requires { IsTrue (grants channel.old) }
        ensures byte { result.0 ≡ byte_read channel.old self.now }
        ensures terminal { result.1 ≡ (channel.old.count == 0) }
        ensures channel { channel.new ≡ after_transfer channel.old }
    {
        channel.move_out(&self.bytes)
    }
}

/// Makes the range of bytes known. It does nothing.
fn keep_bytes(_bytes: &[u8])
    ensures { (k : ℕ) → slice_index _bytes.now k < 2 ^ 8 }
{}

/// This many bytes 00.
#[tactic(auto, unfolding(flop_base::specs::Memory::zeroes))]
fn blank(alloc: Global, count: usize) -> Result<Vec<u8>, NoMemory>
    ensures bytes { IfOk result (λ bytes. bytes.items ≡ zeroes count) }
    ensures len { IfOk result (λ bytes. length bytes.items ≡ count) }
{
    Ok(vec![in alloc; 0u8; count]?)
}
