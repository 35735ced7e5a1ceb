// The state of a pulled cable as bytes.
ghost use Rattle.c_bay_drive.specs.Saving.{GivesCable};

use super::Pulled;
use saved_state::{Saved, SavedBytes, Source};

impl Saved for Pulled {
    ghost use Rattle.std.specs.Prelude.{⊤};
    ghost use Rattle.c_bay_drive.specs.Saving.{spelled_pulled};

    ghost spelled = { spelled_pulled };

    ghost Fits = { λ _. ⊤ };

    fn save(&self, to: &mut SavedBytes) {
        self.change.save(to);
        self.lost.save(to);
    }

    fn load(from: &mut Source<'_>) -> Pulled {
        let change = bool::load(from);
        let lost = u64::load(from);
        Pulled { change, lost }
    }
}

/// Reads the state of the cable if it is pulled.
pub fn load_cable(attached: bool, from: &mut Source<'_>) -> Option<Pulled>
    ensures { GivesCable attached from.old result from.new }
{
    if attached {
        None
    } else {
        Some(Pulled::load(from))
    }
}
