// A drive whose faults are planned as bytes.
use super::ScriptDrive;
use crate::mechanics::Mechanics;
use crate::plan::Plan;
use flop_base::NoMemory;
use saved_state::{Saved, SavedBytes, SavedWhole, Source};
use std::alloc::Global;

impl SavedWhole for ScriptDrive {
    ghost use Rattle.std.specs.Prelude.{⊤};
    ghost use Rattle.drive_model.specs.Saving.{spelled_script_drive};

    ghost spelled = { spelled_script_drive };

    ghost Fits = { λ _. ⊤ };

    fn save(&self, alloc: Global, to: &mut SavedBytes) {
        self.mechanics.save(alloc, to);
        self.plan.save(alloc, to);
        self.faults.save(to);
    }

    fn load(alloc: Global, from: &mut Source<'_>) -> Result<ScriptDrive, NoMemory> {
        let mechanics = Mechanics::load(alloc, from)?;
        let plan = Plan::load(alloc, from)?;
        let faults = u64::load(from);
        Ok(ScriptDrive {
            mechanics,
            plan,
            faults,
        })
    }
}
