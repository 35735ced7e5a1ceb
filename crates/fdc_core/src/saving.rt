// A controller as bytes.

use crate::controller::Fdc;
use fdc_commands::{CommandBytes, Seeks};
use fdc_phases::{DataRate, Phase};
use fdc_registers::{Dor, Fifo};
use flop_base::NoMemory;
use saved_state::{Saved, SavedBytes, SavedWhole, Source};
use std::alloc::Global;

impl SavedWhole for Fdc {
    ghost use Rattle.fdc_core.specs.Saving.{FdcFits, spelled_fdc};

    ghost spelled = { spelled_fdc };

    ghost Fits = { FdcFits };

    #[tactic(auto, unfolding(crate::specs::Saving::spelled_fdc, crate::specs::Saving::spelled_flags))]
    fn save(&self, alloc: Global, to: &mut SavedBytes) {
        self.dor.save(to);
        self.rate.save(to);
        self.non_dma.save(to);
        self.polling.save(to);
        self.poll_due.save(to);
        self.interrupt.save(to);
        self.asking.save(to);
        self.phase.save(to);
        self.seeks.save(to);
        self.command.save(to);
        self.fifo.save(alloc, to);
        self.data_commands.save(to);
    }

    #[tactic(auto, unfolding(crate::specs::Saving::spelled_fdc, crate::specs::Saving::spelled_flags))]
    fn load(alloc: Global, from: &mut Source<'_>) -> Result<Fdc, NoMemory> {
        let dor = Dor::load(from);
        let rate = DataRate::load(from);
        let non_dma = bool::load(from);
        let polling = bool::load(from);
        let poll_due = bool::load(from);
        let interrupt = bool::load(from);
        let asking = bool::load(from);
        let phase = Phase::load(from);
        let seeks = Seeks::load(from);
        let command = CommandBytes::load(from);
        let fifo = Fifo::load(alloc, from)?;
        let data_commands = u64::load(from);
        Ok(Fdc {
            dor,
            rate,
            non_dma,
            polling,
            poll_due,
            interrupt,
            asking,
            phase,
            seeks,
            command,
            fifo,
            data_commands,
        })
    }
}
