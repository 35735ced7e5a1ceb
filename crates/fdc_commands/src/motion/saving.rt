// Seeks as bytes.
use crate::{Motion, Seek};
use saved_state::{Saved, SavedBytes, Source};

impl Saved for Motion {
    ghost use Rattle.std.specs.Prelude.{⊤};
    ghost use Rattle.fdc_commands.specs.Saving.{spelled_motion};

    ghost spelled = { spelled_motion };

    ghost Fits = { λ _. ⊤ };

    #[tactic(auto, unfolding(crate::specs::Saving::spelled_motion))]
    fn save(&self, to: &mut SavedBytes) {
        match *self {
            Motion::Outward { pulses } => {
                to.byte(0);
                pulses.save(to);
            }
            Motion::Toward { cylinder, target } => {
                to.byte(1);
                cylinder.save(to);
                target.save(to);
            }
            Motion::Ended => to.byte(2),
        }
    }

    #[tactic(auto, unfolding(crate::specs::Saving::spelled_motion))]
    fn load(from: &mut Source<'_>) -> Motion {
        match from.byte() {
            1 => {
                let cylinder = u8::load(from);
                let target = u8::load(from);
                Motion::Toward { cylinder, target }
            }
            2 => Motion::Ended,
            _ => {
                let pulses = u8::load(from);
                Motion::Outward { pulses }
            }
        }
    }
}

impl Saved for Seek {
    ghost use Rattle.std.specs.Prelude.{⊤};
    ghost use Rattle.fdc_commands.specs.Saving.{spelled_seek};

    ghost spelled = { spelled_seek };

    ghost Fits = { λ _. ⊤ };

    #[tactic(auto, unfolding(crate::specs::Saving::spelled_seek))]
    fn save(&self, to: &mut SavedBytes) {
        self.drive.save(to);
        self.motion.save(to);
    }

    #[tactic(auto, unfolding(crate::specs::Saving::spelled_seek))]
    fn load(from: &mut Source<'_>) -> Seek {
        let drive = u8::load(from);
        let motion = Motion::load(from);
        Seek { drive, motion }
    }
}
