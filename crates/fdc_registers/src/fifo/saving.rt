// A FIFO as bytes.
ghost use Rattle.std.specs.Prelude.{◌≡◌, ◌≤◌, ◌++◌, ℕ, List, [], length, ⊤};
ghost use Rattle.saved_state.specs.Saved.{Adds, spelled_bytes};
ghost use Rattle.fdc_registers.specs.Fifo.{room_of};

use super::{DEPTH, Fifo};
use flop_base::NoMemory;
use saved_state::{Saved, SavedBytes, SavedWhole, Source, load_bytes};
use std::alloc::Global;

/// The threshold, if it is from 1 to 16, or else 1.
fn limited(threshold: u8) -> u8
    ensures at_least { 1 ≤ result }
    ensures at_most { result ≤ 16 }
    ensures same { 1 ≤ threshold → threshold ≤ 16 → result ≡ threshold }
{
    if 1 <= threshold && threshold <= 16 {
        threshold
    } else {
        1
    }
}

impl Fifo {
    /// Writes the bytes that the FIFO holds: first their number, then the bytes.
    #[tactic(auto, unfolding(saved_state::specs::Saved::spelled_bytes))]
    fn save_content(&self, to: &mut SavedBytes)
        ensures { Adds (spelled_bytes self.now.bytes) to.old to.new }
    {
        self.bytes.len().save(to);
        let (front, back) = self.bytes.as_slices();
        to.part(front);
        to.part(back);
    }

    /// Fills an empty FIFO with these bytes, as many as there is room for.
    fn fill(&mut self, bytes: &[u8])
        requires { self.old.bytes ≡ [] }
        ensures { length bytes.now ≤ room_of self.old.on → self.new ≡ record self.old { bytes = bytes.now } }
    {
        let count = bytes.len().min(self.room());
        self.bytes.fill_from_slice(&bytes[..count]);
    }
}

impl SavedWhole for Fifo {
    ghost use Rattle.fdc_registers.specs.Saving.{IsFifo, spelled_fifo};

    ghost spelled = { spelled_fifo };

    ghost Fits = { IsFifo };

    #[tactic(auto, unfolding(crate::specs::Saving::spelled_fifo))]
    fn save(&self, _alloc: Global, to: &mut SavedBytes) {
        self.on.save(to);
        self.threshold.save(to);
        self.save_content(to);
    }

    #[tactic(auto, unfolding(crate::specs::Saving::spelled_fifo))]
    fn load(alloc: Global, from: &mut Source<'_>) -> Result<Fifo, NoMemory> {
        let on = bool::load(from);
        let threshold = limited(u8::load(from));
        let bytes = load_bytes(from);
        let mut fifo = Fifo::new(alloc)?;
        fifo.set(on, threshold);
        fifo.fill(bytes);
        Ok(fifo)
    }
}
