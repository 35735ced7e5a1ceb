// A sequencer as bytes.
use crate::adapter::DisketteAdapter;
use crate::opcode::{Opcode, Operation};
use crate::sequencer::Sequencer;
use crate::stage::{FrontStage, Moving};
use crate::transfer::Transfer;
use fdc_commands::Results;
use flop_base::{Chrn, NoMemory};
use saved_state::{Saved, SavedBytes, SavedWhole, Source};
use std::alloc::Global;

/// What the bytes of a sequencer begin with.
const KIND: u8 = b'D';

impl Saved for Operation {
    ghost use Rattle.std.specs.Prelude.{⊤};
    ghost use Rattle.fdc_sequencer.specs.Saving.{spelled_operation};

    ghost spelled = { spelled_operation };

    ghost Fits = { λ _. ⊤ };

    #[tactic(auto, unfolding(crate::specs::Saving::spelled_operation))]
    fn save(&self, to: &mut SavedBytes) {
        match *self {
            Operation::Read { deleted, skip } => {
                to.byte(0);
                deleted.save(to);
                skip.save(to);
            }
            Operation::Write { deleted } => {
                to.byte(1);
                deleted.save(to);
            }
        }
    }

    #[tactic(auto, unfolding(crate::specs::Saving::spelled_operation))]
    fn load(from: &mut Source<'_>) -> Operation {
        match from.byte() {
            1 => {
                let deleted = bool::load(from);
                Operation::Write { deleted }
            }
            _ => {
                let deleted = bool::load(from);
                let skip = bool::load(from);
                Operation::Read { deleted, skip }
            }
        }
    }
}

impl Saved for Opcode {
    ghost use Rattle.std.specs.Prelude.{⊤};
    ghost use Rattle.fdc_sequencer.specs.Saving.{spelled_opcode};

    ghost spelled = { spelled_opcode };

    ghost Fits = { λ _. ⊤ };

    #[tactic(auto, unfolding(crate::specs::Saving::spelled_opcode))]
    fn save(&self, to: &mut SavedBytes) {
        self.operation.save(to);
        self.multitrack.save(to);
    }

    #[tactic(auto, unfolding(crate::specs::Saving::spelled_opcode))]
    fn load(from: &mut Source<'_>) -> Opcode {
        let operation = Operation::load(from);
        let multitrack = bool::load(from);
        Opcode {
            operation,
            multitrack,
        }
    }
}

impl Saved for Transfer {
    ghost use Rattle.std.specs.Prelude.{⊤};
    ghost use Rattle.fdc_sequencer.specs.Saving.{spelled_transfer};

    ghost spelled = { spelled_transfer };

    ghost Fits = { λ _. ⊤ };

    #[tactic(auto, unfolding(crate::specs::Saving::spelled_transfer))]
    fn save(&self, to: &mut SavedBytes) {
        self.opcode.save(to);
        self.head_drive.save(to);
        self.key.save(to);
        self.last_sector.save(to);
        self.gap.save(to);
        self.length.save(to);
        self.seeks.save(to);
    }

    #[tactic(auto, unfolding(crate::specs::Saving::spelled_transfer))]
    fn load(from: &mut Source<'_>) -> Transfer {
        let opcode = Opcode::load(from);
        let head_drive = u8::load(from);
        let key = Chrn::load(from);
        let last_sector = u8::load(from);
        let gap = u8::load(from);
        let length = u8::load(from);
        let seeks = bool::load(from);
        Transfer {
            opcode,
            head_drive,
            key,
            last_sector,
            gap,
            length,
            seeks,
        }
    }
}

impl Saved for Moving {
    ghost use Rattle.std.specs.Prelude.{⊤};
    ghost use Rattle.fdc_sequencer.specs.Saving.{spelled_moving};

    ghost spelled = { spelled_moving };

    ghost Fits = { λ _. ⊤ };

    #[tactic(auto, unfolding(crate::specs::Saving::spelled_moving))]
    fn save(&self, to: &mut SavedBytes) {
        self.transfer.save(to);
        self.left.save(to);
        self.counted.save(to);
        self.passed_over.save(to);
        self.skipped.save(to);
    }

    #[tactic(auto, unfolding(crate::specs::Saving::spelled_moving))]
    fn load(from: &mut Source<'_>) -> Moving {
        let transfer = Transfer::load(from);
        let left = u16::load(from);
        let counted = bool::load(from);
        let passed_over = bool::load(from);
        let skipped = bool::load(from);
        Moving {
            transfer,
            left,
            counted,
            passed_over,
            skipped,
        }
    }
}

impl Saved for FrontStage {
    ghost use Rattle.std.specs.Prelude.{⊤};
    ghost use Rattle.fdc_sequencer.specs.Saving.{spelled_stage};

    ghost spelled = { spelled_stage };

    ghost Fits = { λ _. ⊤ };

    #[tactic(auto, unfolding(crate::specs::Saving::spelled_stage))]
    fn save(&self, to: &mut SavedBytes) {
        match *self {
            FrontStage::Through => to.byte(0),
            FrontStage::Seeking { transfer, counted } => {
                to.byte(1);
                transfer.save(to);
                counted.save(to);
            }
            FrontStage::Moving { moving } => {
                to.byte(2);
                moving.save(to);
            }
            FrontStage::Telling { results } => {
                to.byte(3);
                results.save(to);
            }
        }
    }

    #[tactic(auto, unfolding(crate::specs::Saving::spelled_stage))]
    fn load(from: &mut Source<'_>) -> FrontStage {
        match from.byte() {
            1 => {
                let transfer = Transfer::load(from);
                let counted = bool::load(from);
                FrontStage::Seeking { transfer, counted }
            }
            2 => {
                let moving = Moving::load(from);
                FrontStage::Moving { moving }
            }
            3 => {
                let results = Results::load(from);
                FrontStage::Telling { results }
            }
            _ => FrontStage::Through,
        }
    }
}

impl<D: SavedWhole + Drop> SavedWhole for Sequencer<D> {
    ghost use Rattle.fdc_sequencer.specs.Saving.{SequencerFits, spelled_sequencer};

    ghost spelled = { spelled_sequencer D.spelled };

    ghost Fits = { SequencerFits D.Fits };

    #[tactic(auto, unfolding(crate::specs::Saving::spelled_sequencer))]
    fn save(&self, alloc: Global, to: &mut SavedBytes) {
        to.byte(KIND);
        self.adapter.save(alloc, to);
        self.stage.save(to);
    }

    #[tactic(auto, unfolding(crate::specs::Saving::spelled_sequencer))]
    fn load(alloc: Global, from: &mut Source<'_>) -> Result<Sequencer<D>, NoMemory> {
        let _kind = from.byte();
        let adapter = DisketteAdapter::load(alloc, from)?;
        let stage = FrontStage::load(from);
        Ok(Sequencer { adapter, stage })
    }
}
