// A drive without faults as bytes.
use super::PlainDrive;
use crate::mechanics::Mechanics;
use flop_base::NoMemory;
use saved_state::{SavedBytes, SavedWhole, Source};
use std::alloc::Global;

impl SavedWhole for PlainDrive {
    ghost use Rattle.std.specs.Prelude.{⊤};
    ghost use Rattle.drive_model.specs.Saving.{spelled_plain_drive};

    ghost spelled = { spelled_plain_drive };

    ghost Fits = { λ _. ⊤ };

    fn save(&self, alloc: Global, to: &mut SavedBytes) {
        self.mechanics.save(alloc, to);
    }

    fn load(alloc: Global, from: &mut Source<'_>) -> Result<PlainDrive, NoMemory> {
        let mechanics = Mechanics::load(alloc, from)?;
        Ok(PlainDrive { mechanics })
    }
}
