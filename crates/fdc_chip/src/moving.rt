// Device steps.
ghost use Rattle.std.specs.Prelude.{◌≡◌, ◌≤◌, true, false, None, if◌then◌else◌};
ghost use Rattle.fdc_chip.specs.Common.{front_state, interrupts_outside};
ghost use Rattle.fdc_chip.specs.Chips.{chip_state, behind_of, interrupts_chip, asks_chip};
ghost use Rattle.fdc_chip.specs.Doing.{drained};
ghost use Rattle.fdc_chip.specs.Steps.{Swallows, SwallowsAll, Follows, FollowsTask, StepsChip, RunsChipWith, RunsChip};
ghost use Rattle.fdc_chip.specs.declared.stage.ChipStage.TheVariants.{Ready};

use crate::chip::Chip;
use crate::code::ChipOpcode;
use crate::stage::{ChipStage, ChipTask};
use drive_model::Inspect;

/// The most bytes that the FIFO has.
const DEPTH: u8 = 16;

impl<D: Inspect> Chip<D> {
    /// Does one device step of the inner controller. If something ended in it, does what comes of that.
    pub fn step(&mut self)
        ensures { StepsChip (chip_state D.state self.old) (chip_state D.state self.new) }
    {
        self.behind.step();
        self.follow();
    }

    /// Does what has to be done after a step.
    fn follow(&mut self)
        ensures { Follows self.old.stage (chip_state D.state self.old) (chip_state D.state self.new) }
    {
        match self.stage {
            ChipStage::Ready => {
                self.keep_pace();
                self.take_over();
            }
            ChipStage::Held => {
                self.keep_pace();
                self.attend_to(ChipOpcode::of(self.order.code));
            }
            ChipStage::Busy { task } => self.follow_task(task),
            ChipStage::Telling { .. } => self.keep_pace(),
        }
    }

    /// Takes over the results of seeks and polls, once INT of the inner controller rises.
    fn take_over(&mut self)
        ensures { chip_state D.state self.new ≡ (if interrupts_outside (chip_state D.state self.old).front then drained (chip_state D.state self.old) else chip_state D.state self.old) }
    {
        if self.behind.int() {
            self.drain();
        }
    }

    /// Does what has to be done after a step while the inner controller executes something.
    fn follow_task(&mut self, task: ChipTask)
        ensures { FollowsTask task (chip_state D.state self.old) (chip_state D.state self.new) }
    {
        if let ChipTask::Verify { left } = task {
            self.swallow_all(left);
        }
        self.may_end(task);
    }

    /// Takes the bytes of a VERIFY that are asked for. `left` is how many of its bytes are left.
    fn swallow_all(&mut self, left: u32)
        ensures { SwallowsAll left (chip_state D.state self.old) (chip_state D.state self.new) }
    {
        let mut now = left;
        for _place in 0..DEPTH {
            now = self.swallow(now);
        }
        self.stage = ChipStage::Busy {
            task: ChipTask::Verify { left: now },
        };
    }

    /// Takes one byte, if it is asked for. After the last byte the inner controller is given the terminal count.
    fn swallow(&mut self, left: u32) -> u32
        ensures swallows { Swallows left (chip_state D.state self.old).front result (chip_state D.state self.new).front }
        ensures rest { chip_state D.state self.new ≡ record (chip_state D.state self.old) { front = (chip_state D.state self.new).front } }
    {
        match self.behind.dack_read() {
            None => left,
            Some(_byte) => {
                if left == 1 {
                    self.behind.tc();
                }
                left.saturating_sub(1)
            }
        }
    }

    /// Does device steps until the interrupt line or the request line changes, at most `most`, and gives their number.
    pub fn run(&mut self, most: u32) -> u32
        ensures { RunsChip most (chip_state D.state self.old) result (chip_state D.state self.new) }
    {
        let int = self.int();
        let drq = self.drq();
        let mut made = 0;
        while made < most {
            made += self.advance(most - made);
            if !self.has_lines(int, drq) {
                return made;
            }
        }
        most
    }

    /// Does at least one device step and at most `most`, and gives their number. No step comes after one in which a
    /// line changes. While nothing runs, all of them are made at once.
    fn advance(&mut self, most: u32) -> u32
        requires { 1 ≤ most }
        ensures some { 1 ≤ result }
        ensures few { result ≤ most }
        ensures runs { RunsChipWith (interrupts_chip (chip_state D.state self.old)) (asks_chip (chip_state D.state self.old)) result
            (chip_state D.state self.old) (chip_state D.state self.new) }
    {
        match self.stage {
            ChipStage::Ready
                if self.pace.is_none() && !self.interrupts.is_up() && !self.behind.int() => {
                return self.advance_ready(most);
            }
            _ => {}
        }
        if self.is_still() {
            return self.behind.run(most);
        }
        let made = self.leap(most);
        if made != 0 {
            return made;
        }
        self.step();
        1
    }

    /// Does what `advance` does, while nothing is under way, no pulses are to come and INT is down. Many steps are then
    /// made at once.
    fn advance_ready(&mut self, most: u32) -> u32
        requires some { 1 ≤ most }
        requires ready { self.old.stage ≡ Ready }
        requires stands { self.old.pace ≡ None }
        requires down { self.old.interrupts.line ≡ false }
        requires quiet { interrupts_outside (chip_state D.state self.old).front ≡ false }
        ensures some { 1 ≤ result }
        ensures few { result ≤ most }
        ensures runs { RunsChipWith (interrupts_chip (chip_state D.state self.old)) (asks_chip (chip_state D.state self.old)) result
            (chip_state D.state self.old) (chip_state D.state self.new) }
    {
        let made = self.behind.run(most);
        self.follow();
        made
    }
}
