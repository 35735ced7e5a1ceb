// A machine as bytes.
use crate::bus::Bus;
use crate::chips::Chips;
use crate::machine::MachineOf;
use crate::memory::Memory;
use dma_8237::Dma;
use fdc_core::Fdc;
use flop_base::NoMemory;
use irq_events::{Gaps, Holding, IrqLatch, Strays};
use saved_state::{Saved, SavedBytes, SavedWhole, Source};
use std::alloc::Global;

/// This byte stands before the bytes of a machine.
const MACHINE: u8 = b'M';

impl SavedWhole for Chips {
    ghost use Rattle.pc_bus.specs.Saving.{spelled_chips, ChipsFit};

    ghost spelled = { spelled_chips };

    ghost Fits = { ChipsFit };

    fn save(&self, alloc: Global, to: &mut SavedBytes) {
        self.controller.save(alloc, to);
        self.channel.save(to);
        self.memory.save(alloc, to);
        self.holding.save(alloc, to);
    }

    fn load(alloc: Global, from: &mut Source<'_>) -> Result<Chips, NoMemory> {
        let controller = Fdc::load(alloc, from)?;
        let channel = Dma::load(from);
        let memory = Memory::load(alloc, from)?;
        let holding = Holding::load(alloc, from)?;
        Ok(Chips {
            controller,
            channel,
            memory,
            holding,
        })
    }
}

impl SavedWhole for Bus {
    ghost use Rattle.pc_bus.specs.Saving.{spelled_bus, BusFits};

    ghost spelled = { spelled_bus };

    ghost Fits = { BusFits };

    fn save(&self, alloc: Global, to: &mut SavedBytes) {
        self.chips.save(alloc, to);
        self.latch.save(to);
        self.gaps.save(alloc, to);
        self.strays.save(alloc, to);
        self.steps.save(to);
        self.direct.save(to);
        self.taken.save(to);
        self.fresh.save(to);
    }

    fn load(alloc: Global, from: &mut Source<'_>) -> Result<Bus, NoMemory> {
        let chips = Chips::load(alloc, from)?;
        let latch = IrqLatch::load(from);
        let gaps = Gaps::load(alloc, from)?;
        let strays = Strays::load(alloc, from)?;
        let steps = u64::load(from);
        let direct = u64::load(from);
        let taken = u64::load(from);
        let fresh = bool::load(from);
        Ok(Bus {
            chips,
            latch,
            gaps,
            strays,
            steps,
            direct,
            taken,
            fresh,
        })
    }
}

impl<D: SavedWhole + Drop> SavedWhole for MachineOf<D> {
    ghost use Rattle.pc_bus.specs.Saving.{spelled_machine, MachineFits};

    ghost spelled = { spelled_machine D.spelled };

    ghost Fits = { MachineFits D.Fits };

    fn save(&self, alloc: Global, to: &mut SavedBytes) {
        to.byte(MACHINE);
        self.bus.save(alloc, to);
        self.first.save(alloc, to);
        self.second.save(alloc, to);
    }

    fn load(alloc: Global, from: &mut Source<'_>) -> Result<MachineOf<D>, NoMemory> {
        let _mark = from.byte();
        let bus = Bus::load(alloc, from)?;
        let first = D::load(alloc, from)?;
        let second = D::load(alloc, from)?;
        Ok(MachineOf { bus, first, second })
    }
}
