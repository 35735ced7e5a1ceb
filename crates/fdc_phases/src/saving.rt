// A phase as bytes.
ghost use Rattle.std.specs.Prelude.{◌≡◌};
ghost use Rattle.fdc_phases.specs.Common.{IsSizeCode};

use crate::answers::Answer;
use crate::phases::{Execution, Phase, Task};
use crate::rates::DataRate;
use crate::sized_key::SizedKey;
use crate::transfers::{Formatting, Reading, Writing};
use fdc_commands::Results;
use fdc_stages::{Ending, FormatStage, ReadStage, Search, WriteStage};
use flop_base::Chrn;
use saved_state::{Saved, SavedBytes, Source};

/// A key as one whose size code is that of a sector; any other size code becomes that of 256 bytes.
fn sized(key: Chrn) -> SizedKey
    ensures { IsSizeCode key.n → result.key ≡ key }
{
    let Chrn { c, h, r, n } = key;
    if 1 <= n && n <= 6 {
        SizedKey { key }
    } else {
        SizedKey {
            key: Chrn { c, h, r, n: 1 },
        }
    }
}

impl Saved for SizedKey {
    ghost use Rattle.std.specs.Prelude.{⊤};
    ghost use Rattle.fdc_phases.specs.Saving.{spelled_sized_key};

    ghost spelled = { spelled_sized_key };

    ghost Fits = { λ _. ⊤ };

    #[tactic(auto, unfolding(crate::specs::Saving::spelled_sized_key))]
    fn save(&self, to: &mut SavedBytes) {
        self.key.save(to);
    }

    #[tactic(auto, unfolding(crate::specs::Saving::spelled_sized_key))]
    fn load(from: &mut Source<'_>) -> SizedKey {
        sized(Chrn::load(from))
    }
}

impl Saved for DataRate {
    ghost use Rattle.std.specs.Prelude.{⊤};
    ghost use Rattle.fdc_phases.specs.Saving.{spelled_rate};

    ghost spelled = { spelled_rate };

    ghost Fits = { λ _. ⊤ };

    #[tactic(auto, unfolding(crate::specs::Saving::spelled_rate))]
    fn save(&self, to: &mut SavedBytes) {
        match *self {
            DataRate::Kbit500 => to.byte(0),
            DataRate::Kbit300 => to.byte(1),
            DataRate::Kbit250 => to.byte(2),
            DataRate::Mbit1 => to.byte(3),
        }
    }

    #[tactic(auto, unfolding(crate::specs::Saving::spelled_rate))]
    fn load(from: &mut Source<'_>) -> DataRate {
        match from.byte() {
            1 => DataRate::Kbit300,
            2 => DataRate::Kbit250,
            3 => DataRate::Mbit1,
            _ => DataRate::Kbit500,
        }
    }
}

impl Saved for Answer {
    ghost use Rattle.std.specs.Prelude.{⊤};
    ghost use Rattle.fdc_phases.specs.Saving.{spelled_answer};

    ghost spelled = { spelled_answer };

    ghost Fits = { λ _. ⊤ };

    #[tactic(auto, unfolding(crate::specs::Saving::spelled_answer))]
    fn save(&self, to: &mut SavedBytes) {
        match *self {
            Answer::Short { next, last } => {
                to.byte(0);
                next.save(to);
                last.save(to);
            }
            Answer::Long {
                ending,
                results,
                read,
            } => {
                to.byte(1);
                ending.save(to);
                results.save(to);
                read.save(to);
            }
        }
    }

    #[tactic(auto, unfolding(crate::specs::Saving::spelled_answer))]
    fn load(from: &mut Source<'_>) -> Answer {
        match from.byte() {
            1 => {
                let ending = Ending::load(from);
                let results = Results::load(from);
                let read = u8::load(from);
                Answer::Long {
                    ending,
                    results,
                    read,
                }
            }
            _ => {
                let next = u8::load(from);
                let last = Option::<u8>::load(from);
                Answer::Short { next, last }
            }
        }
    }
}

impl Saved for Reading {
    ghost use Rattle.std.specs.Prelude.{⊤};
    ghost use Rattle.fdc_phases.specs.Saving.{spelled_reading};

    ghost spelled = { spelled_reading };

    ghost Fits = { λ _. ⊤ };

    #[tactic(auto, unfolding(crate::specs::Saving::spelled_reading))]
    fn save(&self, to: &mut SavedBytes) {
        self.wanted.save(to);
        self.last_sector.save(to);
        self.counted.save(to);
        self.stage.save(to);
    }

    #[tactic(auto, unfolding(crate::specs::Saving::spelled_reading))]
    fn load(from: &mut Source<'_>) -> Reading {
        let wanted = SizedKey::load(from);
        let last_sector = u8::load(from);
        let counted = bool::load(from);
        let stage = ReadStage::load(from);
        Reading {
            wanted,
            last_sector,
            counted,
            stage,
        }
    }
}

impl Saved for Writing {
    ghost use Rattle.std.specs.Prelude.{⊤};
    ghost use Rattle.fdc_phases.specs.Saving.{spelled_writing};

    ghost spelled = { spelled_writing };

    ghost Fits = { λ _. ⊤ };

    #[tactic(auto, unfolding(crate::specs::Saving::spelled_writing))]
    fn save(&self, to: &mut SavedBytes) {
        self.wanted.save(to);
        self.deleted.save(to);
        self.last_sector.save(to);
        self.counted.save(to);
        self.stage.save(to);
    }

    #[tactic(auto, unfolding(crate::specs::Saving::spelled_writing))]
    fn load(from: &mut Source<'_>) -> Writing {
        let wanted = SizedKey::load(from);
        let deleted = bool::load(from);
        let last_sector = u8::load(from);
        let counted = bool::load(from);
        let stage = WriteStage::load(from);
        Writing {
            wanted,
            deleted,
            last_sector,
            counted,
            stage,
        }
    }
}

impl Saved for Formatting {
    ghost use Rattle.std.specs.Prelude.{⊤};
    ghost use Rattle.fdc_phases.specs.Saving.{spelled_formatting};

    ghost spelled = { spelled_formatting };

    ghost Fits = { λ _. ⊤ };

    #[tactic(auto, unfolding(crate::specs::Saving::spelled_formatting))]
    fn save(&self, to: &mut SavedBytes) {
        self.counted.save(to);
        self.stage.save(to);
    }

    #[tactic(auto, unfolding(crate::specs::Saving::spelled_formatting))]
    fn load(from: &mut Source<'_>) -> Formatting {
        let counted = bool::load(from);
        let stage = FormatStage::load(from);
        Formatting { counted, stage }
    }
}

impl Saved for Task {
    ghost use Rattle.std.specs.Prelude.{⊤};
    ghost use Rattle.fdc_phases.specs.Saving.{spelled_task};

    ghost spelled = { spelled_task };

    ghost Fits = { λ _. ⊤ };

    #[tactic(auto, unfolding(crate::specs::Saving::spelled_task))]
    fn save(&self, to: &mut SavedBytes) {
        match *self {
            Task::ReadId { search } => {
                to.byte(0);
                search.save(to);
            }
            Task::Read { reading } => {
                to.byte(1);
                reading.save(to);
            }
            Task::Write { writing } => {
                to.byte(2);
                writing.save(to);
            }
            Task::Format { formatting } => {
                to.byte(3);
                formatting.save(to);
            }
        }
    }

    #[tactic(auto, unfolding(crate::specs::Saving::spelled_task))]
    fn load(from: &mut Source<'_>) -> Task {
        match from.byte() {
            1 => {
                let reading = Reading::load(from);
                Task::Read { reading }
            }
            2 => {
                let writing = Writing::load(from);
                Task::Write { writing }
            }
            3 => {
                let formatting = Formatting::load(from);
                Task::Format { formatting }
            }
            _ => {
                let search = Search::load(from);
                Task::ReadId { search }
            }
        }
    }
}

impl Saved for Execution {
    ghost use Rattle.std.specs.Prelude.{⊤};
    ghost use Rattle.fdc_phases.specs.Saving.{spelled_execution};

    ghost spelled = { spelled_execution };

    ghost Fits = { λ _. ⊤ };

    #[tactic(auto, unfolding(crate::specs::Saving::spelled_execution))]
    fn save(&self, to: &mut SavedBytes) {
        self.head_drive.save(to);
        self.steps.save(to);
        self.task.save(to);
    }

    #[tactic(auto, unfolding(crate::specs::Saving::spelled_execution))]
    fn load(from: &mut Source<'_>) -> Execution {
        let head_drive = u8::load(from);
        let steps = u16::load(from);
        let task = Task::load(from);
        Execution {
            head_drive,
            steps,
            task,
        }
    }
}

impl Saved for Phase {
    ghost use Rattle.std.specs.Prelude.{⊤};
    ghost use Rattle.fdc_phases.specs.Saving.{spelled_phase};

    ghost spelled = { spelled_phase };

    ghost Fits = { λ _. ⊤ };

    #[tactic(auto, unfolding(crate::specs::Saving::spelled_phase))]
    fn save(&self, to: &mut SavedBytes) {
        match *self {
            Phase::Command => to.byte(0),
            Phase::Execute { execution } => {
                to.byte(1);
                execution.save(to);
            }
            Phase::Result { answer } => {
                to.byte(2);
                answer.save(to);
            }
        }
    }

    #[tactic(auto, unfolding(crate::specs::Saving::spelled_phase))]
    fn load(from: &mut Source<'_>) -> Phase {
        match from.byte() {
            1 => {
                let execution = Execution::load(from);
                Phase::Execute { execution }
            }
            2 => {
                let answer = Answer::load(from);
                Phase::Result { answer }
            }
            _ => Phase::Command,
        }
    }
}
