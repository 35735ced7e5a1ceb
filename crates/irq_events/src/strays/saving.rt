// Spurious interrupts as bytes.
use super::Strays;
use crate::queues::save_words_left;
use flop_base::NoMemory;
use saved_state::{Saved, SavedBytes, SavedWhole, Source, load_list};
use std::alloc::Global;

impl SavedWhole for Strays {
    ghost use Rattle.std.specs.Prelude.{⊤};
    ghost use Rattle.irq_events.specs.PaceSaving.{spelled_strays};

    ghost spelled = { spelled_strays };

    ghost Fits = { λ _. ⊤ };

    #[tactic(auto, unfolding(saved_state::specs::Saved::spelled_list))]
    fn save(&self, _alloc: Global, to: &mut SavedBytes) {
        match self.next {
            None => to.byte(0),
            Some(steps) => {
                to.byte(1);
                steps.save(to);
                save_words_left(&self.entries, to);
            }
        }
    }

    fn load(alloc: Global, from: &mut Source<'_>) -> Result<Strays, NoMemory> {
        Ok(Strays::new(load_list(alloc, from)?))
    }
}
