// The controller, DMA channel 2 and memory, and the DMA request between them.
ghost use Rattle.std.specs.Prelude.{◌≡◌, IsTrue, IsFalse, IfOk, List};
ghost use Rattle.pc_bus.specs.Common.{zeroes, grants, power_up, to_memory_of, at_power_up, is_due, Low};
ghost use Rattle.pc_bus.specs.Ports.{port_value, port_read, is_controllers, WritesChips};
ghost use Rattle.pc_bus.specs.Transfers.{can_move, moved, moved_to_memory, moved_from_memory, moved_up_to, looked_at, shown_again, granted, dma_stepped};

use crate::memory::Memory;
use dma_8237::Dma;
use fdc_core::{Fdc, Lines};
use fdc_registers::DEPTH;
use flop_base::NoMemory;
use irq_events::Holding;
use std::alloc::Global;

/// The chips that a byte passes.
#[derive(Drop)]
pub struct Chips {
    pub controller: Fdc,
    pub channel: Dma,
    pub memory: Memory,
    pub holding: Holding,
}

impl Chips {
    /// The chips of a new machine. The controller is in reset, and memory is all 00.
    pub fn new(alloc: Global, holds: Vec<u8>) -> Result<Chips, NoMemory>
        ensures { IfOk result (λ chips. chips ≡ record {
          controller = at_power_up;
          channel = power_up;
          memory = zeroes 1048576;
          holding = record { entries = holds.items; request = Low; stalls = 0 };
        }) }
    {
        Ok(Chips {
            controller: Fdc::new(alloc)?,
            channel: Dma::new(),
            memory: Memory::new(alloc)?,
            holding: Holding::new(holds),
        })
    }

    /// Part 3 of a device step. A request that is granted moves bytes until it falls.
    #[tactic(auto, unfolding(crate::specs::Transfers::dma_stepped))]
    pub fn step_dma(&mut self)
        ensures { self.new ≡ dma_stepped self.old }
    {
        if self.look() {
            self.grant();
        }
    }

    /// Looks at the request, and tells whether it is due.
    fn look(&mut self) -> bool
        ensures after { self.new ≡ looked_at self.old }
        ensures due { result ≡ is_due self.new.holding.request }
    {
        self.holding.look(self.controller.drq())
    }

    /// Shows the request as it is after an access or a transfer.
    fn show(&mut self)
        ensures { self.new ≡ shown_again self.old }
    {
        self.holding.show(self.controller.drq());
    }

    /// Grants a request that is due, if the channel does.
    #[inline(never)]
    #[tactic(auto, unfolding(crate::specs::Transfers::granted))]
    fn grant(&mut self)
        ensures { self.new ≡ granted self.old }
    {
        if self.channel.grants() {
            self.serve();
            self.show();
        }
    }

    /// Moves bytes while the controller requests them and the channel grants. It moves at most as many as a FIFO holds.
    fn serve(&mut self)
        ensures { self.new ≡ moved_up_to 16 self.old }
    {
        for _i in 0..DEPTH {
            if !self.can_move() {
                return;
            }
            self.move_byte();
        }
    }

    /// Whether the controller requests a byte, and the channel grants the request.
    fn can_move(&self) -> bool
        ensures { result ≡ can_move self.now }
    {
        self.controller.drq() && self.channel.grants()
    }

    /// Moves one byte.
    #[tactic(auto, unfolding(crate::specs::Transfers::moved))]
    fn move_byte(&mut self)
        requires { IsTrue (can_move self.old) }
        ensures { self.new ≡ moved self.old }
    {
        if self.controller.to_memory() {
            self.move_to_memory();
        } else {
            self.move_from_memory();
        }
    }

    /// Moves one byte to memory. The controller is told TC with the last one.
    fn move_to_memory(&mut self)
        requires can_move { IsTrue (can_move self.old) }
        requires to_memory { IsTrue (to_memory_of self.old.controller) }
        ensures { self.new ≡ moved_to_memory self.old }
    {
        let byte = self.controller.dma_out();
        if self.memory.receive(&mut self.channel, byte) {
            self.controller.tc();
        }
    }

    /// Moves one byte from memory. The controller is told TC with the last one.
    fn move_from_memory(&mut self)
        requires can_move { IsTrue (can_move self.old) }
        requires from_memory { IsFalse (to_memory_of self.old.controller) }
        ensures { self.new ≡ moved_from_memory self.old }
    {
        let (byte, is_last) = self.memory.deliver(&mut self.channel);
        self.controller.dma_in(byte);
        if is_last {
            self.controller.tc();
        }
    }

    /// Reads a port, when the selected drive has these lines.
    pub fn read_port(&mut self, port: u16, lines: Lines) -> u8
        ensures value { result ≡ port_value port lines self.old }
        ensures after { self.new ≡ port_read port self.old }
    {
        if !is_controllers(port) {
            return self.channel.port_read(port);
        }
        let value = self.controller.read(port, lines);
        self.show();
        value
    }

    /// Writes a port, when the selected drive has these lines.
    pub fn write_port(&mut self, port: u16, value: u8, lines: Lines)
        ensures { WritesChips port value lines self.old self.new }
    {
        if is_controllers(port) {
            self.controller.write(port, value, lines);
            self.show();
        } else {
            self.channel.port_write(port, value);
        }
    }
}

/// The ports 3F0 to 3F7 belong to the controller (PC/AT). All others go to the DMA channel, which knows its own ports.
fn is_controllers(port: u16) -> bool
    ensures { result ≡ is_controllers port }
{
    0x3F0 <= port && port <= 0x3F7
}
