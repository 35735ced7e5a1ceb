// A chip as bytes.
use crate::answer::{ChipAnswer, Registers};
use crate::chip::Chip;
use crate::interrupts::Interrupts;
use crate::order::Order;
use crate::pace::PacedSeek;
use crate::settings::Settings;
use crate::stage::{ChipStage, ChipTask, Place, Track};
use fdc_commands::Results;
use fdc_registers::{St1, St2};
use fdc_sequencer::Sequencer;
use flop_base::{Chrn, NoMemory};
use saved_state::{Saved, SavedBytes, SavedWhole, Source};
use std::alloc::Global;

/// What the bytes of a chip begin with.
const KIND: u8 = b'H';

impl Saved for Order {
    ghost use Rattle.std.specs.Prelude.{⊤};
    ghost use Rattle.fdc_chip.specs.Saving.{spelled_order};

    ghost spelled = { spelled_order };

    ghost Fits = { λ _. ⊤ };

    #[tactic(auto, unfolding(crate::specs::Saving::spelled_order))]
    fn save(&self, to: &mut SavedBytes) {
        self.code.save(to);
        self.unit.save(to);
        self.key.save(to);
        self.last_sector.save(to);
        self.gap.save(to);
        self.length.save(to);
    }

    #[tactic(auto, unfolding(crate::specs::Saving::spelled_order))]
    fn load(from: &mut Source<'_>) -> Order {
        let code = u8::load(from);
        let unit = u8::load(from);
        let key = Chrn::load(from);
        let last_sector = u8::load(from);
        let gap = u8::load(from);
        let length = u8::load(from);
        Order {
            code,
            unit,
            key,
            last_sector,
            gap,
            length,
        }
    }
}

impl Saved for Settings {
    ghost use Rattle.std.specs.Prelude.{⊤};
    ghost use Rattle.fdc_chip.specs.Saving.{spelled_settings};

    ghost spelled = { spelled_settings };

    ghost Fits = { λ _. ⊤ };

    #[tactic(auto, unfolding(crate::specs::Saving::spelled_settings))]
    fn save(&self, to: &mut SavedBytes) {
        self.step_rate.save(to);
        self.head_load.save(to);
        self.last_sector.save(to);
        self.locked.save(to);
        self.perpendicular.save(to);
        self.options.save(to);
        self.precompensation.save(to);
        self.forgotten.save(to);
    }

    #[tactic(auto, unfolding(crate::specs::Saving::spelled_settings))]
    fn load(from: &mut Source<'_>) -> Settings {
        let step_rate = u8::load(from);
        let head_load = u8::load(from);
        let last_sector = u8::load(from);
        let locked = bool::load(from);
        let perpendicular = u8::load(from);
        let options = u8::load(from);
        let precompensation = u8::load(from);
        let forgotten = bool::load(from);
        Settings {
            step_rate,
            head_load,
            last_sector,
            locked,
            perpendicular,
            options,
            precompensation,
            forgotten,
        }
    }
}

impl Saved for Registers {
    ghost use Rattle.std.specs.Prelude.{⊤};
    ghost use Rattle.fdc_chip.specs.Saving.{spelled_registers};

    ghost spelled = { spelled_registers };

    ghost Fits = { λ _. ⊤ };

    #[tactic(auto, unfolding(crate::specs::Saving::spelled_registers))]
    fn save(&self, to: &mut SavedBytes) {
        self.first.save(to);
        self.second.save(to);
        self.third.save(to);
        self.fourth.save(to);
        self.settings.save(to);
    }

    #[tactic(auto, unfolding(crate::specs::Saving::spelled_registers))]
    fn load(from: &mut Source<'_>) -> Registers {
        let first = u8::load(from);
        let second = u8::load(from);
        let third = u8::load(from);
        let fourth = u8::load(from);
        let settings = Settings::load(from);
        Registers {
            first,
            second,
            third,
            fourth,
            settings,
        }
    }
}

impl Saved for ChipAnswer {
    ghost use Rattle.std.specs.Prelude.{⊤};
    ghost use Rattle.fdc_chip.specs.Saving.{spelled_answer};

    ghost spelled = { spelled_answer };

    ghost Fits = { λ _. ⊤ };

    #[tactic(auto, unfolding(crate::specs::Saving::spelled_answer))]
    fn save(&self, to: &mut SavedBytes) {
        match *self {
            ChipAnswer::Byte { byte } => {
                to.byte(0);
                byte.save(to);
            }
            ChipAnswer::Sensed { status, cylinder } => {
                to.byte(1);
                status.save(to);
                cylinder.save(to);
            }
            ChipAnswer::Results { results } => {
                to.byte(2);
                results.save(to);
            }
            ChipAnswer::Registers { registers } => {
                to.byte(3);
                registers.save(to);
            }
        }
    }

    #[tactic(auto, unfolding(crate::specs::Saving::spelled_answer))]
    fn load(from: &mut Source<'_>) -> ChipAnswer {
        match from.byte() {
            1 => {
                let status = u8::load(from);
                let cylinder = u8::load(from);
                ChipAnswer::Sensed { status, cylinder }
            }
            2 => {
                let results = Results::load(from);
                ChipAnswer::Results { results }
            }
            3 => {
                let registers = Registers::load(from);
                ChipAnswer::Registers { registers }
            }
            _ => {
                let byte = u8::load(from);
                ChipAnswer::Byte { byte }
            }
        }
    }
}

impl Saved for Place {
    ghost use Rattle.std.specs.Prelude.{⊤};
    ghost use Rattle.fdc_chip.specs.Saving.{spelled_place};

    ghost spelled = { spelled_place };

    ghost Fits = { λ _. ⊤ };

    #[tactic(auto, unfolding(crate::specs::Saving::spelled_place))]
    fn save(&self, to: &mut SavedBytes) {
        match *self {
            Place::Index => to.byte(0),
            Place::Address => to.byte(1),
            Place::Data => to.byte(2),
        }
    }

    #[tactic(auto, unfolding(crate::specs::Saving::spelled_place))]
    fn load(from: &mut Source<'_>) -> Place {
        match from.byte() {
            1 => Place::Address,
            2 => Place::Data,
            _ => Place::Index,
        }
    }
}

impl Saved for Track {
    ghost use Rattle.std.specs.Prelude.{⊤};
    ghost use Rattle.fdc_chip.specs.Saving.{spelled_track};

    ghost spelled = { spelled_track };

    ghost Fits = { λ _. ⊤ };

    #[tactic(auto, unfolding(crate::specs::Saving::spelled_track))]
    fn save(&self, to: &mut SavedBytes) {
        self.unit.save(to);
        self.key.save(to);
        self.left.save(to);
        self.place.save(to);
        self.counted.save(to);
        self.met.save(to);
        self.seeks.save(to);
        self.st1.0.save(to);
        self.st2.0.save(to);
    }

    #[tactic(auto, unfolding(crate::specs::Saving::spelled_track))]
    fn load(from: &mut Source<'_>) -> Track {
        let unit = u8::load(from);
        let key = Chrn::load(from);
        let left = u16::load(from);
        let place = Place::load(from);
        let counted = bool::load(from);
        let met = bool::load(from);
        let seeks = bool::load(from);
        let st1 = St1(u8::load(from));
        let st2 = St2(u8::load(from));
        Track {
            unit,
            key,
            left,
            place,
            counted,
            met,
            seeks,
            st1,
            st2,
        }
    }
}

impl Saved for ChipTask {
    ghost use Rattle.std.specs.Prelude.{⊤};
    ghost use Rattle.fdc_chip.specs.Saving.{spelled_task};

    ghost spelled = { spelled_task };

    ghost Fits = { λ _. ⊤ };

    #[tactic(auto, unfolding(crate::specs::Saving::spelled_task))]
    fn save(&self, to: &mut SavedBytes) {
        match *self {
            ChipTask::Sent => to.byte(0),
            ChipTask::Sought { results } => {
                to.byte(1);
                results.save(to);
            }
            ChipTask::Refused { unit, key, mfm } => {
                to.byte(2);
                unit.save(to);
                key.save(to);
                mfm.save(to);
            }
            ChipTask::Verify { left } => {
                to.byte(3);
                left.save(to);
            }
            ChipTask::Track { track } => {
                to.byte(4);
                track.save(to);
            }
        }
    }

    #[tactic(auto, unfolding(crate::specs::Saving::spelled_task))]
    fn load(from: &mut Source<'_>) -> ChipTask {
        match from.byte() {
            1 => {
                let results = Results::load(from);
                ChipTask::Sought { results }
            }
            2 => {
                let unit = u8::load(from);
                let key = Chrn::load(from);
                let mfm = bool::load(from);
                ChipTask::Refused { unit, key, mfm }
            }
            3 => {
                let left = u32::load(from);
                ChipTask::Verify { left }
            }
            4 => {
                let track = Track::load(from);
                ChipTask::Track { track }
            }
            _ => ChipTask::Sent,
        }
    }
}

impl Saved for PacedSeek {
    ghost use Rattle.std.specs.Prelude.{⊤};
    ghost use Rattle.fdc_chip.specs.Saving.{spelled_pace};

    ghost spelled = { spelled_pace };

    ghost Fits = { λ _. ⊤ };

    #[tactic(auto, unfolding(crate::specs::Saving::spelled_pace))]
    fn save(&self, to: &mut SavedBytes) {
        self.unit.save(to);
        self.cylinder.save(to);
        self.goal.save(to);
        self.left.save(to);
        self.wait.save(to);
    }

    #[tactic(auto, unfolding(crate::specs::Saving::spelled_pace))]
    fn load(from: &mut Source<'_>) -> PacedSeek {
        let unit = u8::load(from);
        let cylinder = u8::load(from);
        let goal = Option::<u8>::load(from);
        let left = u8::load(from);
        let wait = u16::load(from);
        PacedSeek {
            unit,
            cylinder,
            goal,
            left,
            wait,
        }
    }
}

impl Saved for ChipStage {
    ghost use Rattle.std.specs.Prelude.{⊤};
    ghost use Rattle.fdc_chip.specs.Saving.{spelled_stage};

    ghost spelled = { spelled_stage };

    ghost Fits = { λ _. ⊤ };

    #[tactic(auto, unfolding(crate::specs::Saving::spelled_stage))]
    fn save(&self, to: &mut SavedBytes) {
        match *self {
            ChipStage::Ready => to.byte(0),
            ChipStage::Held => to.byte(1),
            ChipStage::Busy { task } => {
                to.byte(2);
                task.save(to);
            }
            ChipStage::Telling { answer, read } => {
                to.byte(3);
                answer.save(to);
                read.save(to);
            }
        }
    }

    #[tactic(auto, unfolding(crate::specs::Saving::spelled_stage))]
    fn load(from: &mut Source<'_>) -> ChipStage {
        match from.byte() {
            1 => ChipStage::Held,
            2 => {
                let task = ChipTask::load(from);
                ChipStage::Busy { task }
            }
            3 => {
                let answer = ChipAnswer::load(from);
                let read = u8::load(from);
                ChipStage::Telling { answer, read }
            }
            _ => ChipStage::Ready,
        }
    }
}

impl<D: SavedWhole + Drop> SavedWhole for Chip<D> {
    ghost use Rattle.fdc_chip.specs.Saving.{ChipFits, spelled_chip};

    ghost spelled = { spelled_chip D.spelled };

    ghost Fits = { ChipFits D.Fits };

    #[tactic(auto, unfolding(crate::specs::Saving::spelled_chip))]
    fn save(&self, alloc: Global, to: &mut SavedBytes) {
        to.byte(KIND);
        self.behind.save(alloc, to);
        self.stage.save(to);
        self.order.save(to);
        self.count.save(to);
        self.interrupts.save(to);
        self.settings.save(to);
        self.strapped.save(to);
        self.keys.save(to);
        self.gated.save(to);
        self.pace.save(to);
        self.paced.save(to);
        self.tape.save(to);
    }

    #[tactic(auto, unfolding(crate::specs::Saving::spelled_chip))]
    fn load(alloc: Global, from: &mut Source<'_>) -> Result<Chip<D>, NoMemory> {
        let _kind = from.byte();
        let behind = Sequencer::load(alloc, from)?;
        let stage = ChipStage::load(from);
        let order = Order::load(from);
        let count = u8::load(from);
        let interrupts = Interrupts::load(from);
        let settings = Settings::load(from);
        let strapped = bool::load(from);
        let keys = u16::load(from);
        let gated = bool::load(from);
        let pace = Option::<PacedSeek>::load(from);
        let paced = bool::load(from);
        let tape = u8::load(from);
        Ok(Chip {
            behind,
            stage,
            order,
            count,
            interrupts,
            settings,
            strapped,
            keys,
            gated,
            pace,
            paced,
            tape,
        })
    }
}
