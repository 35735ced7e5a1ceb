// A latch as bytes.
use super::IrqLatch;
use saved_state::{Saved, SavedBytes, Source};

impl Saved for IrqLatch {
    ghost use Rattle.std.specs.Prelude.{⊤};
    ghost use Rattle.irq_events.specs.Saving.{spelled_latch};

    ghost spelled = { spelled_latch };

    ghost Fits = { λ _. ⊤ };

    fn save(&self, to: &mut SavedBytes) {
        self.set.save(to);
        self.level.save(to);
    }

    fn load(from: &mut Source<'_>) -> IrqLatch {
        let set = bool::load(from);
        let level = bool::load(from);
        IrqLatch { set, level }
    }
}
