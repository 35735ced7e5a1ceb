// The bytes between a diskette controller and its DMA channel, in the order that they came.
ghost use Rattle.std.specs.Prelude.{◌≡◌, ◌==◌, ◌≤◌, ◌↔◌, ◌+◌, ℕ, List, true, false, [], ◌∷◌, ◌++◌, length, drop, IsNone, IfOk, IfErr, IfSome, OnOk, OnErr};
ghost use Rattle.fdc_registers.specs.Fifo.{emptied, room_of, IsFull, wants, worth_fetching, low_level};

mod saving;

use circular_buffer::HeapCircularBuffer;
use flop_base::NoMemory;
use std::alloc::Global;
use std::marker::Model;

/// The number of bytes that a FIFO holds while it is on.
pub const DEPTH: usize = 16;

/// A first-in first-out list of bytes (82077AA, FIFO). While it is off it has room for one byte.
#[derive(Drop)]
pub struct Fifo {
    bytes: HeapCircularBuffer<u8>,
    on: bool,
    threshold: u8,
}

impl Model for Fifo {
    ghost use Rattle.std.specs.Prelude.{◌≡◌, ◌≤◌, length};
    ghost use Rattle.fdc_registers.specs.Fifo.{Fifo, room_of};

    ghost Value = { Fifo };

    ghost view = { λ f. record { bytes = f.bytes.items; on = f.on; threshold = f.threshold } };

    ghost invariant = { λ f. (f.bytes.capacity ≡ 16)
        × (length f.bytes.items ≤ room_of f.on)
        × (1 ≤ f.threshold) × (f.threshold ≤ 16) };
}

impl Fifo {
    /// An empty FIFO that is off. Its threshold is one byte, which is what the controller has after a reset.
    pub fn new(alloc: Global) -> Result<Fifo, NoMemory>
        ensures { IfOk result (λ fifo. fifo ≡ emptied false 1) }
    {
        Ok(Fifo {
            bytes: HeapCircularBuffer::with_capacity(alloc, DEPTH)?,
            on: false,
            threshold: 1,
        })
    }

    /// Empties the FIFO and sets its mode. The threshold is a number of bytes; CONFIGURE sends this number less one.
    pub fn set(&mut self, on: bool, threshold: u8)
        requires at_least { 1 ≤ threshold }
        requires at_most { threshold ≤ DEPTH }
        ensures { self.new ≡ emptied on threshold }
    {
        self.clear();
        self.on = on;
        self.threshold = threshold;
    }

    /// Empties the FIFO, and keeps its mode and its threshold.
    pub fn clear(&mut self)
        ensures { self.new ≡ emptied self.old.on self.old.threshold }
    {
        self.bytes.clear();
    }

    /// Appends a byte, or hands it back if the FIFO is full.
    pub fn push(&mut self, byte: u8) -> Result<(), u8>
        ensures full { (result ≡ Err byte) ↔ IsFull self.old }
        ensures ok { OnOk result
            (self.new ≡ record self.old { bytes = self.old.bytes ++ byte ∷ [] }) }
        ensures returned { IfErr result (λ back. back ≡ byte) }
        ensures err { OnErr result (self.new ≡ self.old) }
    {
        if self.bytes.len() == self.room() {
            return Err(byte);
        }
        self.bytes.try_push_back(byte)
    }

    /// Takes the oldest byte.
    pub fn pop(&mut self) -> Option<u8>
        ensures empty { IsNone result ↔ (self.old.bytes ≡ []) }
        ensures oldest { IfSome result (λ byte. self.old.bytes ≡ byte ∷ self.new.bytes) }
        ensures rest { self.new ≡ record self.old { bytes = drop 1 self.old.bytes } }
    {
        self.bytes.pop_front()
    }

    /// How many bytes the FIFO holds: at most 16 while it is on, at most 1 while it is off.
    pub fn len(&self) -> usize
        ensures len { result ≡ length self.now.bytes }
        ensures within { result ≤ room_of self.now.on }
    {
        self.bytes.len()
    }

    /// Whether the FIFO holds no byte.
    pub fn is_empty(&self) -> bool
        ensures { result ≡ (length self.now.bytes == 0) }
    {
        self.bytes.is_empty()
    }

    /// Whether DRQ is up now, if it was `asking` before. For bytes to memory, `last` says that the field has ended. For
    /// bytes from memory, `last` says that TC came.
    pub fn wants(&self, to_memory: bool, asking: bool, last: bool) -> bool
        ensures { result ≡ wants to_memory asking last self.now }
    {
        let len = self.bytes.len();
        if to_memory {
            len > 0 && (asking || last || len >= self.worth_fetching())
        } else {
            len < self.room() && !last && (asking || len <= self.low_level())
        }
    }

    /// How many bytes for memory can come while DRQ stays down. The byte after these raises DRQ.
    pub fn quiet_room(&self) -> usize
        ensures quiet { wants true false false self.now ≡ false → (more : List ℕ) → length more ≤ result
            → wants true false false (record self.now { bytes = self.now.bytes ++ more }) ≡ false }
        ensures rises { wants true false false self.now ≡ false → (more : List ℕ) → length more ≡ result + 1
            → wants true false false (record self.now { bytes = self.now.bytes ++ more }) ≡ true }
        ensures fits { length self.now.bytes + result ≤ room_of self.now.on }
    {
        (self.worth_fetching() - 1).saturating_sub(self.bytes.len())
    }

    /// How many bytes from memory can be taken while DRQ stays down. The byte after these raises DRQ.
    pub fn quiet_supply(&self) -> usize
        ensures quiet { wants false false false self.now ≡ false → (taken : ℕ) → taken ≤ result
            → wants false false false (record self.now { bytes = drop taken self.now.bytes }) ≡ false }
        ensures rises { wants false false false self.now ≡ false
            → wants false false false (record self.now { bytes = drop (result + 1) self.now.bytes }) ≡ true }
    {
        self.bytes.len().saturating_sub(self.low_level() + 1)
    }

    fn room(&self) -> usize
        ensures { result ≡ room_of self.now.on }
    {
        if self.on { DEPTH } else { 1 }
    }

    fn worth_fetching(&self) -> usize
        ensures { result ≡ worth_fetching self.now }
    {
        if self.on {
            (DEPTH - usize::from(self.threshold)).max(1)
        } else {
            1
        }
    }

    fn low_level(&self) -> usize
        ensures { result ≡ low_level self.now }
    {
        if self.on {
            usize::from(self.threshold)
        } else {
            0
        }
    }
}
