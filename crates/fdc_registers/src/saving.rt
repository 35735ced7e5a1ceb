// Registers as bytes.
use crate::{Dor, St0, St1, St2};
use saved_state::{Saved, SavedBytes, Source};

impl Saved for Dor {
    ghost use Rattle.std.specs.Prelude.{⊤};
    ghost use Rattle.saved_state.specs.Saved.{spelled_byte};

    ghost spelled = { λ set. spelled_byte set.0 };

    ghost Fits = { λ _. ⊤ };

    fn save(&self, to: &mut SavedBytes) {
        self.0.save(to);
    }

    fn load(from: &mut Source<'_>) -> Dor {
        Dor(u8::load(from))
    }
}

impl Saved for St0 {
    ghost use Rattle.std.specs.Prelude.{⊤};
    ghost use Rattle.saved_state.specs.Saved.{spelled_byte};

    ghost spelled = { λ set. spelled_byte set.0 };

    ghost Fits = { λ _. ⊤ };

    fn save(&self, to: &mut SavedBytes) {
        self.0.save(to);
    }

    fn load(from: &mut Source<'_>) -> St0 {
        St0(u8::load(from))
    }
}

impl Saved for St1 {
    ghost use Rattle.std.specs.Prelude.{⊤};
    ghost use Rattle.saved_state.specs.Saved.{spelled_byte};

    ghost spelled = { λ set. spelled_byte set.0 };

    ghost Fits = { λ _. ⊤ };

    fn save(&self, to: &mut SavedBytes) {
        self.0.save(to);
    }

    fn load(from: &mut Source<'_>) -> St1 {
        St1(u8::load(from))
    }
}

impl Saved for St2 {
    ghost use Rattle.std.specs.Prelude.{⊤};
    ghost use Rattle.saved_state.specs.Saved.{spelled_byte};

    ghost spelled = { λ set. spelled_byte set.0 };

    ghost Fits = { λ _. ⊤ };

    fn save(&self, to: &mut SavedBytes) {
        self.0.save(to);
    }

    fn load(from: &mut Source<'_>) -> St2 {
        St2(u8::load(from))
    }
}
