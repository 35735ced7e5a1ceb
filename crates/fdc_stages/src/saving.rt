// Stages as bytes.
use crate::ending::Ending;
use crate::reading::ReadStage;
use crate::searching::Search;
use saved_state::{Saved, SavedBytes, Source};
use track_separator::Separator;

impl Saved for Ending {
    ghost use Rattle.std.specs.Prelude.{⊤};
    ghost use Rattle.fdc_stages.specs.Saving.{spelled_ending};

    ghost spelled = { spelled_ending };

    ghost Fits = { λ _. ⊤ };

    #[tactic(auto, unfolding(crate::specs::Saving::spelled_ending))]
    fn save(&self, to: &mut SavedBytes) {
        match *self {
            Ending::Done { deleted } => {
                to.byte(0);
                deleted.save(to);
            }
            Ending::NoMark => to.byte(1),
            Ending::NoSector => to.byte(2),
            Ending::NoField => to.byte(3),
            Ending::BadCheck => to.byte(4),
            Ending::Overrun => to.byte(5),
            Ending::NoCount => to.byte(6),
            Ending::Protected => to.byte(7),
            Ending::Late => to.byte(8),
        }
    }

    #[tactic(auto, unfolding(crate::specs::Saving::spelled_ending))]
    fn load(from: &mut Source<'_>) -> Ending {
        match from.byte() {
            1 => Ending::NoMark,
            2 => Ending::NoSector,
            3 => Ending::NoField,
            4 => Ending::BadCheck,
            5 => Ending::Overrun,
            6 => Ending::NoCount,
            7 => Ending::Protected,
            8 => Ending::Late,
            _ => {
                let deleted = bool::load(from);
                Ending::Done { deleted }
            }
        }
    }
}

impl Saved for Search {
    ghost use Rattle.std.specs.Prelude.{⊤};
    ghost use Rattle.fdc_stages.specs.Saving.{spelled_search};

    ghost spelled = { spelled_search };

    ghost Fits = { λ _. ⊤ };

    #[tactic(auto, unfolding(crate::specs::Saving::spelled_search))]
    fn save(&self, to: &mut SavedBytes) {
        self.separator.save(to);
        self.turned.save(to);
        self.marked.save(to);
    }

    #[tactic(auto, unfolding(crate::specs::Saving::spelled_search))]
    fn load(from: &mut Source<'_>) -> Search {
        let separator = Separator::load(from);
        let turned = bool::load(from);
        let marked = bool::load(from);
        Search {
            separator,
            turned,
            marked,
        }
    }
}

impl Saved for ReadStage {
    ghost use Rattle.std.specs.Prelude.{⊤};
    ghost use Rattle.fdc_stages.specs.Saving.{spelled_read};

    ghost spelled = { spelled_read };

    ghost Fits = { λ _. ⊤ };

    #[tactic(auto, unfolding(crate::specs::Saving::spelled_read))]
    fn save(&self, to: &mut SavedBytes) {
        match *self {
            ReadStage::Search(search) => {
                to.byte(0);
                search.save(to);
            }
            ReadStage::Wait(separator) => {
                to.byte(1);
                separator.save(to);
            }
            ReadStage::Content { separator, deleted } => {
                to.byte(2);
                separator.save(to);
                deleted.save(to);
            }
            ReadStage::Over { deleted, good } => {
                to.byte(3);
                deleted.save(to);
                good.save(to);
            }
        }
    }

    #[tactic(auto, unfolding(crate::specs::Saving::spelled_read))]
    fn load(from: &mut Source<'_>) -> ReadStage {
        match from.byte() {
            1 => ReadStage::Wait(Separator::load(from)),
            2 => {
                let separator = Separator::load(from);
                let deleted = bool::load(from);
                ReadStage::Content { separator, deleted }
            }
            3 => {
                let deleted = bool::load(from);
                let good = bool::load(from);
                ReadStage::Over { deleted, good }
            }
            _ => ReadStage::Search(Search::load(from)),
        }
    }
}
