// The end of a data command.
ghost use Rattle.std.specs.Prelude.{◌≡◌};
ghost use Rattle.machine_commands.specs.Codes.{has_set};
ghost use Rattle.machine_commands.specs.Awaited.{outcome_of, AreCounts, AwaitsResults, Finishes, Watch, TakesKey, TakesResults, key_told, mark_told};
ghost use Rattle.machine_commands.specs.Shown.{board_of};

use crate::codes::refusal;
use crate::machine::CommandedMachine;
use crate::ports::{MSR, RESULTS_READY};
use drive_model::Drive;
use fdc_registers::{Flags, St0, St2};
use flop_base::{Chrn, Code};

/// A data command ends within so many device steps.
const LONGEST_COMMAND: u32 = 65_536;

/// How often the end of a data command is awaited: each time takes at least one device step.
const MOST_WATCHES: u32 = LONGEST_COMMAND + 1;

/// What is known of a data command that was done.
#[derive(Clone, Copy, Debug, PartialEq, Eq)]
pub(crate) struct Done {
    /// The data field is marked deleted.
    pub deleted: bool,
    pub key: Chrn,
}

/// The key of an outcome.
pub(crate) fn key_of(outcome: Result<Done, Code>) -> Result<Chrn, Code>
    ensures { result ≡ key_told outcome }
{
    match outcome {
        Ok(done) => Ok(done.key),
        Err(code) => Err(code),
    }
}

/// Whether an outcome is of a data field that is marked deleted.
pub(crate) fn mark_of(outcome: Result<Done, Code>) -> Result<bool, Code>
    ensures { result ≡ mark_told outcome }
{
    match outcome {
        Ok(done) => Ok(done.deleted),
        Err(code) => Err(code),
    }
}

impl<D: Drive> CommandedMachine<D> {
    /// Waits for the end of a data command, and takes its results.
    pub(crate) fn finish(&mut self) -> Result<Done, Code>
        ensures finishes { Finishes (board_of D.state self.old) result (board_of D.state self.new) }
        ensures motors { self.new.motors ≡ self.old.motors }
    {
        self.await_results();
        let outcome = self.take_results();
        self.settle();
        outcome
    }

    /// Waits for line 6. If the latch was set and no results are ready (a spurious interrupt), waits again.
    fn await_results(&mut self)
        ensures awaits { AwaitsResults (board_of D.state self.old) (board_of D.state self.new) }
        ensures motors { self.new.motors ≡ self.old.motors }
    {
        for _watch in 0..MOST_WATCHES {
            if self.await_line() {
                return;
            }
        }
    }

    /// Waits for line 6 once, and tells whether results are ready.
    fn await_line(&mut self) -> bool
        ensures watch { Watch (board_of D.state self.old) result (board_of D.state self.new) }
        ensures motors { self.new.motors ≡ self.old.motors }
    {
        self.machine.wait(1);
        let _ = self.machine.wait_irq(LONGEST_COMMAND);
        let _ = self.machine.take_irq();
        self.machine.inb(MSR) == RESULTS_READY
    }

    /// Reads the seven result bytes.
    fn take_results(&mut self) -> Result<Done, Code>
        ensures takes { TakesResults (board_of D.state self.old) result (board_of D.state self.new) }
        ensures motors { self.new.motors ≡ self.old.motors }
    {
        let st0 = self.result_byte();
        let st1 = self.result_byte();
        let st2 = self.result_byte();
        let key = self.take_key();
        outcome(st0, st1, st2, key)
    }

    /// Reads the key among the result bytes.
    fn take_key(&mut self) -> Chrn
        ensures takes { TakesKey (board_of D.state self.old) result (board_of D.state self.new) }
        ensures motors { self.new.motors ≡ self.old.motors }
    {
        let c = self.result_byte();
        let h = self.result_byte();
        let r = self.result_byte();
        let n = self.result_byte();
        Chrn { c, h, r, n }
    }

    /// The ranges of the counts; it does nothing.
    pub(crate) fn keep_counts(&self)
        ensures counts { AreCounts (board_of D.state self.now) }
    {
        let _stalls = self.machine.stalls();
        let _commands = self.machine.data_commands();
        let _taken = self.machine.taken();
        let _direct = self.machine.direct();
    }
}

/// The outcome that the results come to. All was done if the interrupt code in status register 0 is 00.
fn outcome(st0: u8, st1: u8, st2: u8, key: Chrn) -> Result<Done, Code>
    ensures { result ≡ outcome_of st0 st1 st2 key }
{
    if has_failed(St0(st0)) {
        return Err(refusal(st1));
    }
    Ok(Done {
        deleted: St2(st2).intersects(St2::CONTROL_MARK),
        key,
    })
}

/// Whether the interrupt code isn't 00.
fn has_failed(st0: St0) -> bool
    ensures { result ≡ has_set st0.0 0xC0 }
{
    st0.intersects(St0::INVALID.union(St0::ABNORMAL))
}
