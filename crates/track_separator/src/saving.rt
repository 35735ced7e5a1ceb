// A separator as bytes.
ghost use Rattle.std.specs.Prelude.{◌≡◌, ◌≤◌, ◌<◌};
ghost use Rattle.track_separator.specs.Stages.{size_in, since_in};

use crate::state::{Separator, Stage};
use saved_state::{Saved, SavedBytes, Source};

impl Saved for Stage {
    ghost use Rattle.std.specs.Prelude.{⊤};
    ghost use Rattle.track_separator.specs.Saving.{spelled_stage};

    ghost spelled = { spelled_stage };

    ghost Fits = { λ _. ⊤ };

    #[tactic(auto, unfolding(crate::specs::Saving::spelled_stage))]
    fn save(&self, to: &mut SavedBytes) {
        match *self {
            Stage::Hunting => to.byte(0),
            Stage::Reading { bytes } => {
                to.byte(1);
                bytes.save(to);
            }
            Stage::Addressed => to.byte(2),
            Stage::TurnEnded => to.byte(3),
            Stage::Waiting {
                size,
                since,
                marked,
            } => {
                to.byte(4);
                size.save(to);
                since.save(to);
                marked.save(to);
            }
            Stage::Content {
                size,
                taken,
                check,
                touched,
            } => {
                to.byte(5);
                size.save(to);
                taken.save(to);
                check.save(to);
                touched.save(to);
            }
        }
    }

    #[tactic(auto, unfolding(crate::specs::Saving::spelled_stage))]
    fn load(from: &mut Source<'_>) -> Stage {
        match from.byte() {
            1 => Stage::Reading {
                bytes: u8::load(from),
            },
            2 => Stage::Addressed,
            3 => Stage::TurnEnded,
            4 => {
                let size = u16::load(from);
                let since = u16::load(from);
                let marked = bool::load(from);
                Stage::Waiting {
                    size,
                    since,
                    marked,
                }
            }
            5 => {
                let size = u16::load(from);
                let taken = u16::load(from);
                let check = u16::load(from);
                let touched = bool::load(from);
                Stage::Content {
                    size,
                    taken,
                    check,
                    touched,
                }
            }
            _ => Stage::Hunting,
        }
    }
}

/// The number `back` if it is below 16; 0 for any other number.
fn limited_place(back: u16) -> u16
    ensures few { result < 16 }
    ensures same { back < 16 → result ≡ back }
{
    if back < 16 { back } else { 0 }
}

/// The stage if it is within its limits; for any other stage, the one that begins anew.
fn limited(stage: Stage) -> Stage
    ensures size { size_in result ≤ 8192 }
    ensures since { since_in result < 1023 }
    ensures same { size_in stage ≤ 8192 → since_in stage < 1023 → result ≡ stage }
{
    match stage {
        Stage::Waiting { size, since, .. } if size > 8192 || since >= 1023 => Stage::Hunting,
        Stage::Content { size, .. } if size > 8192 => Stage::Hunting,
        _ => stage,
    }
}

impl Saved for Separator {
    ghost use Rattle.std.specs.Prelude.{⊤};
    ghost use Rattle.track_separator.specs.Saving.{spelled_separator};

    ghost spelled = { spelled_separator };

    ghost Fits = { λ _. ⊤ };

    #[tactic(auto, unfolding(crate::specs::Saving::spelled_separator))]
    fn save(&self, to: &mut SavedBytes) {
        self.cells.save(to);
        self.back.save(to);
        self.stage.save(to);
    }

    #[tactic(auto, unfolding(crate::specs::Saving::spelled_separator))]
    fn load(from: &mut Source<'_>) -> Separator {
        let cells = u128::load(from);
        let back = limited_place(u16::load(from));
        let stage = limited(Stage::load(from));
        Separator { cells, back, stage }
    }
}
