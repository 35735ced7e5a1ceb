// The state, and the lines that are seen outside.
ghost use Rattle.std.specs.Prelude.{◌≡◌, ◌≤◌, IfOk, IsTrue, IsFalse, true, false, not, if◌then◌else◌, None};
ghost use Rattle.fdc_sequencer.specs.Adapters.{controller_of, SameDrives};
ghost use Rattle.fdc_sequencer.specs.Common.{to_memory_of, is_executing, ending_told, mark_of};
ghost use Rattle.fdc_sequencer.specs.Fronts.{front_state, adapter_of, IsNewFront, interrupts_outside, asks_outside};
ghost use Rattle.fdc_sequencer.specs.Moves.{HasLinesOutside, IsUnderWay, LeapsFront, RunsFront, RunsFrontWith, is_unwanted};

use crate::adapter::DisketteAdapter;
use crate::stage::{FrontStage, Moving};
use drive_model::Inspect;
use flop_base::NoMemory;
use std::alloc::Global;

/// A controller with its drives, which takes commands of several sectors.
#[derive(Drop)]
pub struct Sequencer<D> {
    pub(crate) adapter: DisketteAdapter<D>,
    pub(crate) stage: FrontStage,
}

impl<D: Inspect> Sequencer<D> {
    /// The controller in reset, with two drives. The motors of the drives are turned off.
    pub fn new(alloc: Global, bay0: D, bay1: D) -> Result<Sequencer<D>, NoMemory>
        ensures { IfOk result (λ new. IsNewFront (D.state bay0) (D.state bay1) (front_state D.state new)) }
    {
        Ok(Sequencer {
            adapter: DisketteAdapter::new(alloc, bay0, bay1)?,
            stage: FrontStage::Through,
        })
    }

    /// The interrupt line. It falls when a command of several sectors begins, and rises with the command's results.
    pub fn int(&self) -> bool
        ensures { result ≡ interrupts_outside (front_state D.state self.now) }
    {
        match self.stage {
            FrontStage::Through => self.adapter.int(),
            FrontStage::Seeking { .. } | FrontStage::Moving { .. } => false,
            FrontStage::Telling { .. } => self.adapter.is_gated(),
        }
    }

    /// The DMA request line. It is down once all bytes of a sector have passed.
    pub fn drq(&self) -> bool
        ensures { result ≡ asks_outside (front_state D.state self.now) }
    {
        match self.stage {
            FrontStage::Through => self.adapter.drq(),
            FrontStage::Moving { moving } => moving.left > 0 && self.adapter.drq(),
            _ => false,
        }
    }

    /// Whether the lines have these values.
    fn has_lines(&self, int: bool, drq: bool) -> bool
        ensures yes { IsTrue result → HasLinesOutside int drq (front_state D.state self.now) }
        ensures no { IsFalse result → HasLinesOutside int drq (front_state D.state self.now) → ⊥ }
    {
        self.int() == int && self.drq() == drq
    }

    /// Whether the bytes of the command in execution go to memory.
    pub fn to_memory(&self) -> bool
        ensures { result ≡ to_memory_of (controller_of (adapter_of self.now)) }
    {
        self.adapter.to_memory()
    }

    /// Does device steps until the interrupt line or the request line changes, at most `most`, and gives their number.
    pub fn run(&mut self, most: u32) -> u32
        ensures { RunsFront most (front_state D.state self.old) result (front_state D.state self.new) }
    {
        match self.stage {
            FrontStage::Through => self.run_through(most),
            _ => self.run_on(most),
        }
    }

    /// Does what `run` does, if nothing is done after a step and the lines are the adapter's. The adapter makes many
    /// steps at once.
    fn run_through(&mut self, most: u32) -> u32
        requires { self.old.stage ≡ FrontStage.Through }
        ensures { RunsFront most (front_state D.state self.old) result (front_state D.state self.new) }
    {
        self.adapter.run(most)
    }

    /// Does what `run` does, while something may have to be done after a step.
    fn run_on(&mut self, most: u32) -> u32
        ensures { RunsFront most (front_state D.state self.old) result (front_state D.state self.new) }
    {
        let int = self.int();
        let drq = self.drq();
        let mut made = 0;
        while made < most {
            made += self.advance(most - made);
            if !self.has_lines(int, drq) {
                return made;
            }
        }
        most
    }

    /// Does at least one device step and at most `most`, and gives their number. No step comes after one in which a
    /// line changes.
    fn advance(&mut self, most: u32) -> u32
        requires { 1 ≤ most }
        ensures some { 1 ≤ result }
        ensures few { result ≤ most }
        ensures runs { RunsFrontWith (interrupts_outside (front_state D.state self.old)) (asks_outside (front_state D.state self.old)) result
            (front_state D.state self.old) (front_state D.state self.new) }
    {
        let made = self.leap(most);
        if made != 0 {
            return made;
        }
        self.step();
        1
    }

    /// Does device steps at once while a sector is moved, at most `most`, and gives their number. In them neither line
    /// changes, and nothing is done after the adapter's step. If the number is 0, the next step has to be done alone.
    pub fn leap(&mut self, most: u32) -> u32
        ensures few { result ≤ most }
        ensures leaps { LeapsFront result (front_state D.state self.old) (front_state D.state self.new) }
    {
        if self.is_under_way() {
            return self.adapter.leap(most);
        }
        0
    }

    /// Whether a sector is moved, its command hasn't ended, and no field with the mark that isn't wanted is met.
    fn is_under_way(&self) -> bool
        ensures { result ≡ true → IsUnderWay (front_state D.state self.now) }
    {
        match self.stage {
            FrontStage::Moving { moving } => self.goes_along(moving),
            _ => false,
        }
    }

    /// Whether the command for the sector hasn't ended, and no field with the mark that isn't wanted is met.
    pub(crate) fn goes_along(&self, moving: Moving) -> bool
        ensures goes { result ≡ true → ending_told (controller_of (adapter_of self.now)) ≡ None }
        ensures wanted { result ≡ true → is_unwanted moving (mark_of (controller_of (adapter_of self.now))) ≡ false }
        ensures value { result ≡ (if is_executing (controller_of (adapter_of self.now)).phase
            then not (is_unwanted moving (mark_of (controller_of (adapter_of self.now)))) else false) }
    {
        if self.adapter.is_executing() {
            return !moving.is_unwanted(self.adapter.mark());
        }
        false
    }
}
