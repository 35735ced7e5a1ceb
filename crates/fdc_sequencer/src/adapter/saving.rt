// An adapter as bytes.
use super::DisketteAdapter;
use crate::adapter::rates::word_time_of;
use fdc_core::Fdc;
use flop_base::NoMemory;
use saved_state::{SavedBytes, SavedWhole, Source};
use std::alloc::Global;

impl<D: SavedWhole + Drop> SavedWhole for DisketteAdapter<D> {
    ghost use Rattle.fdc_sequencer.specs.AdapterSaving.{AdapterFits, spelled_adapter};

    ghost spelled = { spelled_adapter D.spelled };

    ghost Fits = { AdapterFits D.Fits };

    #[tactic(auto, unfolding(crate::specs::AdapterSaving::spelled_adapter))]
    fn save(&self, alloc: Global, to: &mut SavedBytes) {
        self.controller.save(alloc, to);
        self.first.save(alloc, to);
        self.second.save(alloc, to);
    }

    #[tactic(auto, unfolding(crate::specs::AdapterSaving::spelled_adapter))]
    fn load(alloc: Global, from: &mut Source<'_>) -> Result<DisketteAdapter<D>, NoMemory> {
        let controller = Fdc::load(alloc, from)?;
        let first = D::load(alloc, from)?;
        let second = D::load(alloc, from)?;
        let word_time = word_time_of(controller.data_rate());
        Ok(DisketteAdapter {
            controller,
            first,
            second,
            word_time,
        })
    }
}
