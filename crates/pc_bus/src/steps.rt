// Device steps.
ghost use Rattle.std.specs.Prelude.{◌≡◌, ◌≤◌, ◌+◌, min, false};
ghost use Rattle.pc_bus.specs.Common.{last_count};
ghost use Rattle.pc_bus.specs.Boards.{board, latch_of};
ghost use Rattle.pc_bus.specs.Steps.{Step, Runs, RunsUnset, RunsToIrq, Waits, stirred};

use crate::machine::MachineOf;
use drive_model::Drive;
use fdc_core::drives::{may_leap, pass_word_time, pass_word_times};

/// How many device steps are made alone after a try to make many at once found none. Such a try costs as much as one
/// step or two. A data mark passes in this many steps, and an address field in ten.
const STEPS_ALONE: u32 = 4;

impl<D: Drive> MachineOf<D> {
    /// One device step. Part 2 is the word time of the controller with both drives.
    fn step(&mut self)
        ensures { Step (board D.state self.old) (board D.state self.new) }
    {
        self.bus.begin_step();
        pass_word_time(
            &mut self.bus.chips.controller,
            &mut self.first,
            &mut self.second,
        );
        self.bus.end_step();
    }

    /// Makes several device steps at once, `most` at most, and tells how many. In these steps nothing of the timing
    /// (pace) comes, no line changes and no byte is moved. If the answer is 0, the next step has to be made alone.
    fn leap(&mut self, most: u32) -> u32
        ensures few { result ≤ most }
        ensures runs { Runs result (board D.state self.old) (board D.state self.new) }
        ensures latch { latch_of (board D.state self.new) ≡ latch_of (board D.state self.old) }
        ensures unset { (latch_of (board D.state self.old)).is_set ≡ false
            → RunsUnset result (board D.state self.old) (board D.state self.new) }
        ensures steps { self.new.bus.steps ≡ min (self.old.bus.steps + result) last_count }
    {
        let _from = self.bus.steps;
        let count = self.bus.quiet_for(most);
        if count == 0 {
            return 0;
        }
        let made = pass_word_times(
            &mut self.bus.chips.controller,
            &mut self.first,
            &mut self.second,
            count,
        );
        self.bus.skip(made);
        made
    }

    /// Makes at least one device step and at most `most`, and tells how many.
    fn advance(&mut self, most: u32) -> u32
        requires { 1 ≤ most }
        ensures some { 1 ≤ result }
        ensures few { result ≤ most }
        ensures runs { Runs result (board D.state self.old) (board D.state self.new) }
        ensures unset { (latch_of (board D.state self.old)).is_set ≡ false
            → RunsUnset result (board D.state self.old) (board D.state self.new) }
        ensures steps { self.new.bus.steps ≡ min (self.old.bus.steps + result) last_count }
    {
        let _from = self.bus.steps;
        if !may_leap(&self.bus.chips.controller, most) {
            self.step();
            return 1;
        }
        let made = self.leap(most);
        if made != 0 {
            return made;
        }
        self.step_alone(most.min(STEPS_ALONE))
    }

    /// Makes device steps alone: one, and then others until the latch is set, `most` at most. Tells how many.
    #[inline(never)]
    fn step_alone(&mut self, most: u32) -> u32
        requires { 1 ≤ most }
        ensures some { 1 ≤ result }
        ensures few { result ≤ most }
        ensures runs { Runs result (board D.state self.old) (board D.state self.new) }
        ensures unset { (latch_of (board D.state self.old)).is_set ≡ false
            → RunsUnset result (board D.state self.old) (board D.state self.new) }
        ensures steps { self.new.bus.steps ≡ min (self.old.bus.steps + result) last_count }
    {
        let _from = self.bus.steps;
        self.step();
        let mut made = 1;
        while made < most {
            if self.bus.latch.is_set() {
                return made;
            }
            self.step();
            made += 1;
        }
        made
    }

    /// Makes this many device steps.
    pub(crate) fn run(&mut self, steps: u32)
        ensures runs { Runs steps (board D.state self.old) (board D.state self.new) }
        ensures steps { self.new.bus.steps ≡ min (self.old.bus.steps + steps) last_count }
    {
        let _from = self.bus.steps;
        let mut made = 0;
        while made < steps {
            made += self.advance(steps - made);
        }
    }

    /// Runs exactly this many device steps. One is a word time: 16 microseconds at 500 kbit/s, 32 at 250 kbit/s.
    pub fn wait(&mut self, steps: u32)
        ensures runs { Runs steps (stirred (board D.state self.old)) (board D.state self.new) }
        ensures steps { (board D.state self.new).bus.steps ≡ min ((board D.state self.old).bus.steps + steps) last_count }
    {
        self.bus.fresh = false;
        self.run(steps);
    }

    /// Runs device steps until the latch is set, at most `most`, and tells how many were made.
    pub fn run_to_irq(&mut self, most: u32) -> u32
        ensures { RunsToIrq most (board D.state self.old) result (board D.state self.new) }
    {
        self.bus.fresh = false;
        let mut made = 0;
        while made < most {
            if self.bus.latch.is_set() {
                return made;
            }
            made += self.advance(most - made);
        }
        most
    }

    /// Runs device steps until the latch is set, at most `most`, and tells whether it is.
    pub fn wait_irq(&mut self, most: u32) -> bool
        ensures { Waits most (board D.state self.old) result (board D.state self.new) }
    {
        self.run_to_irq(most);
        self.is_irq_set()
    }

    /// Whether the latch of interrupt line 6 is set. The latch stays as it is.
    pub fn is_irq_set(&self) -> bool
        ensures { result ≡ (latch_of (board D.state self.now)).is_set }
    {
        self.bus.latch.is_set()
    }
}
