// A layout as bytes.
use super::{FormatStream, TrackPart};
use saved_state::{Saved, SavedBytes, Source};

impl Saved for TrackPart {
    ghost use Rattle.std.specs.Prelude.{⊤};
    ghost use Rattle.track_format.specs.Saving.{spelled_part};

    ghost spelled = { spelled_part };

    ghost Fits = { λ _. ⊤ };

    #[tactic(auto, unfolding(crate::specs::Saving::spelled_part))]
    fn save(&self, to: &mut SavedBytes) {
        match *self {
            TrackPart::Start => to.byte(0),
            TrackPart::Address => to.byte(1),
            TrackPart::Data => to.byte(2),
            TrackPart::End => to.byte(3),
        }
    }

    #[tactic(auto, unfolding(crate::specs::Saving::spelled_part))]
    fn load(from: &mut Source<'_>) -> TrackPart {
        match from.byte() {
            1 => TrackPart::Address,
            2 => TrackPart::Data,
            3 => TrackPart::End,
            _ => TrackPart::Start,
        }
    }
}

impl Saved for FormatStream {
    ghost use Rattle.std.specs.Prelude.{⊤};
    ghost use Rattle.track_format.specs.Saving.{spelled_stream};

    ghost spelled = { spelled_stream };

    ghost Fits = { λ _. ⊤ };

    #[tactic(auto, unfolding(crate::specs::Saving::spelled_stream))]
    fn save(&self, to: &mut SavedBytes) {
        self.size.save(to);
        self.gap3.save(to);
        self.fill.save(to);
        self.sectors.save(to);
        self.part.save(to);
        self.place.save(to);
        self.check.save(to);
        self.last.save(to);
    }

    #[tactic(auto, unfolding(crate::specs::Saving::spelled_stream))]
    fn load(from: &mut Source<'_>) -> FormatStream {
        let size = u16::load(from);
        let gap3 = u8::load(from);
        let fill = u8::load(from);
        let sectors = usize::load(from);
        let part = TrackPart::load(from);
        let place = usize::load(from);
        let check = u16::load(from);
        let last = bool::load(from);
        FormatStream {
            size,
            gap3,
            fill,
            sectors,
            part,
            place,
            check,
            last,
        }
    }
}
