// Planned faults as bytes.
use super::Plan;
use crate::Fault;
use flop_base::NoMemory;
use saved_state::{SavedBytes, SavedWhole, Source, load_list, save_list};
use std::alloc::Global;

impl SavedWhole for Plan {
    ghost use Rattle.std.specs.Prelude.{⊤};
    ghost use Rattle.drive_model.specs.Saving.{spelled_plan};

    ghost spelled = { spelled_plan };

    ghost Fits = { λ _. ⊤ };

    fn save(&self, alloc: Global, to: &mut SavedBytes) {
        save_list(&self.faults, to);
    }

    fn load(alloc: Global, from: &mut Source<'_>) -> Result<Plan, NoMemory> {
        let faults = load_list::<Fault>(alloc, from)?;
        Ok(Plan { faults })
    }
}
