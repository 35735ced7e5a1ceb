// Stages that write as bytes.
use crate::Search;
use crate::formatting::{FormatPart, FormatStage};
use crate::window::{Part, Window};
use crate::writing::WriteStage;
use flop_base::Chrn;
use saved_state::{Saved, SavedBytes, Source};
use track_format::FormatStream;

impl Saved for Part {
    ghost use Rattle.std.specs.Prelude.{⊤};
    ghost use Rattle.fdc_stages.specs.WritingSaving.{spelled_part};

    ghost spelled = { spelled_part };

    ghost Fits = { λ _. ⊤ };

    #[tactic(auto, unfolding(crate::specs::WritingSaving::spelled_part))]
    fn save(&self, to: &mut SavedBytes) {
        match *self {
            Part::Sync { more } => {
                to.byte(0);
                more.save(to);
            }
            Part::Marks { more } => {
                to.byte(1);
                more.save(to);
            }
            Part::Mark => to.byte(2),
            Part::Content { more } => {
                to.byte(3);
                more.save(to);
            }
            Part::High => to.byte(4),
            Part::Low => to.byte(5),
        }
    }

    #[tactic(auto, unfolding(crate::specs::WritingSaving::spelled_part))]
    fn load(from: &mut Source<'_>) -> Part {
        match from.byte() {
            1 => {
                let more = u8::load(from);
                Part::Marks { more }
            }
            2 => Part::Mark,
            3 => {
                let more = u16::load(from);
                Part::Content { more }
            }
            4 => Part::High,
            5 => Part::Low,
            _ => {
                let more = u8::load(from);
                Part::Sync { more }
            }
        }
    }
}

impl Saved for Window {
    ghost use Rattle.std.specs.Prelude.{⊤};
    ghost use Rattle.fdc_stages.specs.WritingSaving.{spelled_window};

    ghost spelled = { spelled_window };

    ghost Fits = { λ _. ⊤ };

    #[tactic(auto, unfolding(crate::specs::WritingSaving::spelled_window))]
    fn save(&self, to: &mut SavedBytes) {
        self.deleted.save(to);
        self.more.save(to);
        self.part.save(to);
        self.check.save(to);
        self.last.save(to);
    }

    #[tactic(auto, unfolding(crate::specs::WritingSaving::spelled_window))]
    fn load(from: &mut Source<'_>) -> Window {
        let deleted = bool::load(from);
        let more = u16::load(from);
        let part = Part::load(from);
        let check = u16::load(from);
        let last = bool::load(from);
        Window {
            deleted,
            more,
            part,
            check,
            last,
        }
    }
}

impl Saved for WriteStage {
    ghost use Rattle.std.specs.Prelude.{⊤};
    ghost use Rattle.fdc_stages.specs.WritingSaving.{spelled_write};

    ghost spelled = { spelled_write };

    ghost Fits = { λ _. ⊤ };

    #[tactic(auto, unfolding(crate::specs::WritingSaving::spelled_write))]
    fn save(&self, to: &mut SavedBytes) {
        match *self {
            WriteStage::Search(search) => {
                to.byte(0);
                search.save(to);
            }
            WriteStage::Gap { left } => {
                to.byte(1);
                left.save(to);
            }
            WriteStage::Window(window) => {
                to.byte(2);
                window.save(to);
            }
        }
    }

    #[tactic(auto, unfolding(crate::specs::WritingSaving::spelled_write))]
    fn load(from: &mut Source<'_>) -> WriteStage {
        match from.byte() {
            1 => {
                let left = u8::load(from);
                WriteStage::Gap { left }
            }
            2 => WriteStage::Window(Window::load(from)),
            _ => WriteStage::Search(Search::load(from)),
        }
    }
}

impl Saved for FormatPart {
    ghost use Rattle.std.specs.Prelude.{⊤};
    ghost use Rattle.fdc_stages.specs.WritingSaving.{spelled_format_part};

    ghost spelled = { spelled_format_part };

    ghost Fits = { λ _. ⊤ };

    #[tactic(auto, unfolding(crate::specs::WritingSaving::spelled_format_part))]
    fn save(&self, to: &mut SavedBytes) {
        match *self {
            FormatPart::Await => to.byte(0),
            FormatPart::Due => to.byte(1),
            FormatPart::Lay => to.byte(2),
            FormatPart::Barred => to.byte(3),
        }
    }

    #[tactic(auto, unfolding(crate::specs::WritingSaving::spelled_format_part))]
    fn load(from: &mut Source<'_>) -> FormatPart {
        match from.byte() {
            1 => FormatPart::Due,
            2 => FormatPart::Lay,
            3 => FormatPart::Barred,
            _ => FormatPart::Await,
        }
    }
}

impl Saved for FormatStage {
    ghost use Rattle.std.specs.Prelude.{⊤};
    ghost use Rattle.fdc_stages.specs.WritingSaving.{spelled_format};

    ghost spelled = { spelled_format };

    ghost Fits = { λ _. ⊤ };

    #[tactic(auto, unfolding(crate::specs::WritingSaving::spelled_format))]
    fn save(&self, to: &mut SavedBytes) {
        self.part.save(to);
        self.stream.save(to);
        self.key.save(to);
    }

    #[tactic(auto, unfolding(crate::specs::WritingSaving::spelled_format))]
    fn load(from: &mut Source<'_>) -> FormatStage {
        let part = FormatPart::load(from);
        let stream = FormatStream::load(from);
        let key = Chrn::load(from);
        FormatStage { part, stream, key }
    }
}
