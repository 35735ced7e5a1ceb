// The seeks of the four drives as bytes.
ghost use Rattle.std.specs.Prelude.{◌≡◌, ◌<◌};
ghost use Rattle.std.specs.Option.{ForSome};
ghost use Rattle.fdc_commands.specs.Seeking.{IsMotion};

use super::Seeks;
use crate::Seek;
use saved_state::{Saved, SavedBytes, Source, load_four, save_four};

/// The seek, if its drive is one of four and its number of pulses is one that a seek may give; or else none.
fn limited(seek: Option<Seek>) -> Option<Seek>
    ensures drive { ForSome result (λ seek. seek.drive < 4) }
    ensures motion { ForSome result (λ seek. IsMotion seek.motion) }
    ensures same { ForSome seek (λ seek. seek.drive < 4) → ForSome seek (λ seek. IsMotion seek.motion) → result ≡ seek }
{
    let seek = seek?;
    if seek.drive >= 4 || !seek.motion.is_limited() {
        return None;
    }
    Some(seek)
}

impl Saved for Seeks {
    ghost use Rattle.fdc_commands.specs.Seeking.{InRange};
    ghost use Rattle.fdc_commands.specs.Saving.{spelled_seeking};

    ghost spelled = { spelled_seeking };

    ghost Fits = { InRange };

    #[tactic(auto, unfolding(crate::specs::Saving::spelled_seeking))]
    fn save(&self, to: &mut SavedBytes) {
        save_four(&self.cylinders, to);
        self.seek.save(to);
        save_four(&self.pending, to);
    }

    #[tactic(auto, unfolding(crate::specs::Saving::spelled_seeking))]
    fn load(from: &mut Source<'_>) -> Seeks {
        let cylinders = load_four(from);
        let seek = limited(Option::<Seek>::load(from));
        let pending = load_four(from);
        Seeks {
            cylinders,
            seek,
            pending,
        }
    }
}
