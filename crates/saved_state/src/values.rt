// A value that may be missing, and the key of a sector.
use crate::saved::Saved;
use crate::saved_bytes::SavedBytes;
use crate::source::Source;
use flop_base::Chrn;

impl<T: Saved> Saved for Option<T> {
    ghost use Rattle.std.specs.Prelude.{⊤};
    ghost use Rattle.std.specs.Option.{ForSome};
    ghost use Rattle.saved_state.specs.Saved.{spelled_option};

    ghost spelled = { spelled_option T.spelled };

    ghost Fits = { λ value. ForSome value T.Fits };

    #[tactic(auto, unfolding(crate::specs::Saved::spelled_option))]
    fn save(&self, to: &mut SavedBytes) {
        match self {
            None => to.byte(0),
            Some(value) => {
                to.byte(1);
                value.save(to);
            }
        }
    }

    #[tactic(auto, unfolding(crate::specs::Saved::spelled_option))]
    fn load(from: &mut Source<'_>) -> Option<T> {
        if from.byte() == 1 {
            Some(T::load(from))
        } else {
            None
        }
    }
}

impl Saved for Chrn {
    ghost use Rattle.std.specs.Prelude.{⊤};
    ghost use Rattle.saved_state.specs.Saved.{spelled_key};

    ghost spelled = { spelled_key };

    ghost Fits = { λ _. ⊤ };

    #[tactic(auto, unfolding(crate::specs::Saved::spelled_key))]
    fn save(&self, to: &mut SavedBytes) {
        self.c.save(to);
        self.h.save(to);
        self.r.save(to);
        self.n.save(to);
    }

    #[tactic(auto, unfolding(crate::specs::Saved::spelled_key))]
    fn load(from: &mut Source<'_>) -> Chrn {
        let c = u8::load(from);
        let h = u8::load(from);
        let r = u8::load(from);
        let n = u8::load(from);
        Chrn { c, h, r, n }
    }
}
