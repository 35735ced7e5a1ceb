// Gaps as bytes.
use super::Gaps;
use crate::queues::save_bytes_left;
use flop_base::NoMemory;
use saved_state::{SavedBytes, SavedWhole, Source, load_bytes};
use std::alloc::Global;

impl SavedWhole for Gaps {
    ghost use Rattle.std.specs.Prelude.{⊤};
    ghost use Rattle.irq_events.specs.PaceSaving.{spelled_gaps};

    ghost spelled = { spelled_gaps };

    ghost Fits = { λ _. ⊤ };

    fn save(&self, _alloc: Global, to: &mut SavedBytes) {
        save_bytes_left(&self.entries, to);
    }

    fn load(alloc: Global, from: &mut Source<'_>) -> Result<Gaps, NoMemory> {
        Ok(Gaps::new(Vec::from_slice(alloc, load_bytes(from))?))
    }
}
