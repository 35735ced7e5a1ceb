// The machine without its drives.
ghost use Rattle.std.specs.Prelude.{◌≡◌, ◌<◌, ◌≤◌, IfOk, List, false, true};
ghost use Rattle.pc_bus.specs.Common.{interrupts, next_entry, rest_of, AreQuiet};
ghost use Rattle.pc_bus.specs.Boards.{new_bus};
ghost use Rattle.pc_bus.specs.Handling.{byte_set, irq_taken, touched};
ghost use Rattle.pc_bus.specs.Leaps.{IsCalm, skipped};
ghost use Rattle.pc_bus.specs.Ports.{port_value, port_read, WritesChips};
ghost use Rattle.pc_bus.specs.Steps.{step_begun, step_ended};

use crate::chips::Chips;
use fdc_core::Lines;
use flop_base::NoMemory;
use irq_events::{Gaps, IrqLatch, Pace, Strays};
use std::alloc::Global;

/// Memory below this address is the user's. The page from this address on is the driver's.
const USER_BYTES: u32 = 0xF_0000;

/// The chips, what is left of the timing (pace), and the counts. Each count stays at its last value.
#[derive(Drop)]
pub struct Bus {
    pub chips: Chips,
    /// The latch of interrupt line 6.
    pub latch: IrqLatch,
    pub gaps: Gaps,
    pub strays: Strays,
    /// The number of device steps.
    pub steps: u64,
    /// The number of accesses to user memory, media and drives past the controller.
    pub direct: u64,
    /// The number of interrupts that were taken.
    pub taken: u64,
    /// Whether no call that may change the machine came yet.
    pub fresh: bool,
}

impl Bus {
    /// The bus of a new machine. The controller is in reset, memory is all 00, nothing is counted, and the whole timing
    /// (pace) is still to come.
    pub fn new(alloc: Global, pace: Pace) -> Result<Bus, NoMemory>
        ensures { IfOk result (λ bus. bus ≡ new_bus pace) }
    {
        Ok(Bus {
            chips: Chips::new(alloc, pace.holds)?,
            latch: IrqLatch::new(),
            gaps: Gaps::new(pace.gaps),
            strays: Strays::new(pace.strays),
            steps: 0,
            direct: 0,
            taken: 0,
            fresh: true,
        })
    }

    /// Part 1 of a device step. The step is counted, and a spurious interrupt sets the latch if one is due.
    pub fn begin_step(&mut self)
        ensures { self.new ≡ step_begun self.old }
    {
        self.steps = self.steps.saturating_add(1);
        self.fresh = false;
        if self.strays.pass() {
            self.latch.stray();
        }
    }

    /// Parts 3 and 4 of a device step. DMA requests are served, and then the interrupt line goes to the latch.
    pub fn end_step(&mut self)
        ensures { self.new ≡ step_ended self.old }
    {
        self.chips.step_dma();
        self.latch.line(self.chips.controller.int());
    }

    /// Whether the bus is calm: no DMA is requested, the latch has seen the interrupt line as it is, and a call came.
    fn is_calm(&self) -> bool
        ensures { result ≡ true → IsCalm self.now }
    {
        !self.fresh && !self.chips.controller.drq() && self.chips.holding.is_low() && self.is_seen()
    }

    /// Whether the latch has seen the interrupt line as it is.
    fn is_seen(&self) -> bool
        ensures { result ≡ true → self.now.latch.level ≡ interrupts self.now.chips.controller }
    {
        self.latch.level() == self.chips.controller.int()
    }

    /// For how many device steps, `most` at most, nothing but word times comes.
    #[tactic(auto, unfolding(irq_events::specs::Entries::AreQuiet))]
    pub fn quiet_for(&self, most: u32) -> u32
        ensures few { result ≤ most }
        ensures quiet { AreQuiet result self.now.strays }
        ensures calm { 1 ≤ result → IsCalm self.now }
    {
        if self.is_calm() {
            self.strays.quiet_for(most)
        } else {
            0
        }
    }

    /// Counts this many device steps in which no spurious interrupt comes.
    pub fn skip(&mut self, count: u32)
        requires { AreQuiet count self.old.strays }
        ensures { self.new ≡ skipped count self.old }
    {
        self.steps = self.steps.saturating_add(u64::from(count));
        self.strays.pass_many(count);
    }

    /// Reads a port, when the selected drive has these lines.
    pub fn read_port(&mut self, port: u16, lines: Lines) -> u8
        ensures value { result ≡ port_value port lines self.old.chips }
        ensures after { self.new ≡ record self.old { chips = port_read port self.old.chips; fresh = false } }
    {
        self.fresh = false;
        self.chips.read_port(port, lines)
    }

    /// Writes a port, when the selected drive has these lines.
    pub fn write_port(&mut self, port: u16, value: u8, lines: Lines)
        ensures writes { WritesChips port value lines self.old.chips self.new.chips }
        ensures others { self.new ≡ record self.old { chips = self.new.chips; fresh = false } }
    {
        self.fresh = false;
        self.chips.write_port(port, value, lines);
    }

    /// Takes the next gap, a number of device steps.
    pub fn next_gap(&mut self) -> u8
        ensures gap { result ≡ next_entry self.old.gaps }
        ensures after { self.new ≡ record self.old { gaps = rest_of self.old.gaps } }
    {
        self.gaps.take()
    }

    /// Counts an access past the controller.
    pub fn touch(&mut self)
        ensures { self.new ≡ touched self.old }
    {
        self.fresh = false;
        self.direct = self.direct.saturating_add(1);
    }

    /// Sets a byte of memory, at an address from 00000 to FFFFF. Below F0000 the byte is user memory, and setting it is
    /// counted as an access past the controller.
    pub fn set_byte(&mut self, address: u32, value: u8)
        requires { address < 1048576 }
        ensures { self.new ≡ byte_set address value self.old }
    {
        self.fresh = false;
        if address < USER_BYTES {
            self.direct = self.direct.saturating_add(1);
        }
        self.chips.memory.set(address, value);
    }

    /// Takes the latch, and tells whether it was set. If it was set, this is counted as an interrupt that was taken.
    pub fn take_irq(&mut self) -> bool
        ensures was { result ≡ self.old.latch.is_set }
        ensures after { self.new ≡ irq_taken self.old }
    {
        self.fresh = false;
        let was_set = self.latch.take();
        if was_set {
            self.taken = self.taken.saturating_add(1);
        }
        was_set
    }
}
