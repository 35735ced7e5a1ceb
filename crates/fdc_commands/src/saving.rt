// Results as bytes.
use crate::Results;
use fdc_registers::{St0, St1, St2};
use flop_base::Chrn;
use saved_state::{Saved, SavedBytes, Source};

impl Saved for Results {
    ghost use Rattle.std.specs.Prelude.{⊤};
    ghost use Rattle.fdc_commands.specs.Saving.{spelled_results};

    ghost spelled = { spelled_results };

    ghost Fits = { λ _. ⊤ };

    #[tactic(auto, unfolding(crate::specs::Saving::spelled_results))]
    fn save(&self, to: &mut SavedBytes) {
        self.st0.save(to);
        self.st1.save(to);
        self.st2.save(to);
        self.key.save(to);
    }

    #[tactic(auto, unfolding(crate::specs::Saving::spelled_results))]
    fn load(from: &mut Source<'_>) -> Results {
        let st0 = St0::load(from);
        let st1 = St1::load(from);
        let st2 = St2::load(from);
        let key = Chrn::load(from);
        Results { st0, st1, st2, key }
    }
}
