// How what the inner controller executes ends, and what comes of it.
ghost use Rattle.std.specs.Prelude.{◌≡◌, ◌==◌, not};
ghost use Rattle.fdc_chip.specs.Chips.{chip_state};
ghost use Rattle.fdc_chip.specs.Ending.{told_results, has_key, looks_for_cylinder, unit_of, cylinder_bits, with_cylinder_passed, saw_marks, refusal, behind_last, is_done, verified, EndsSent, Ends, MayEnd};

use crate::answer::ChipAnswer;
use crate::chip::Chip;
use crate::code::{MULTITRACK, has_bit};
use crate::order::Order;
use crate::stage::{ChipStage, ChipTask};
use crate::starting::COUNTS;
use drive_model::Inspect;
use fdc_commands::{Command, Results};
use fdc_registers::{Flags, St0, St1, St2};
use flop_base::Chrn;

/// The head and the drive in ST0.
const UNIT: u8 = 0x07;

/// What a VERIFY that is done leaves of ST0: the head, the drive and SE.
const WITHOUT_CODE: u8 = 0x27;

/// The bits that say which command a code is; then READ ID by these bits.
const COMMAND: u8 = 0x1F;

const READ_ANY_ID: u8 = 0x0A;

/// The cylinder of tracks that are marked bad.
const BAD: u8 = 0xFF;

/// WC and BC, if another cylinder passes than the wanted one.
fn cylinder_bits(wanted: u8, passed: u8) -> St2
    ensures { result.0 ≡ cylinder_bits wanted passed }
{
    if wanted == passed {
        St2(0)
    } else if passed == BAD {
        St2::WRONG_CYLINDER.union(St2::BAD_CYLINDER)
    } else {
        St2::WRONG_CYLINDER
    }
}

/// The results of a sector that wasn't found, after a READ ID looked which cylinder passes.
fn with_cylinder_passed(first: Results, passed: Results) -> Results
    ensures { result ≡ with_cylinder_passed first passed }
{
    if passed.st1.bits() != 0 {
        return first;
    }
    Results {
        st2: first.st2.union(cylinder_bits(first.key.c, passed.key.c)),
        ..first
    }
}

/// Whether address marks passed, even if none of them belongs to an intact field.
fn saw_marks(results: Results) -> bool
    ensures { result ≡ saw_marks results }
{
    results.st1.bits() & St1::MISSING_MARK.bits() == 0
}

/// The sector ID after EOT. With MT it is the one after EOT of head 1.
fn behind_last(multitrack: bool, key: Chrn) -> Chrn
    ensures { result ≡ behind_last multitrack key }
{
    Chrn {
        c: key.c.wrapping_add(1),
        h: if multitrack { key.h ^ 1 } else { key.h },
        r: 1,
        ..key
    }
}

/// The results of a command that this medium can't have. `marks` says that address marks pass.
fn refusal(unit: u8, key: Chrn, marks: bool) -> Results
    ensures { result ≡ refusal unit key marks }
{
    Results {
        st0: St0(unit & UNIT).union(St0::ABNORMAL),
        st1: if marks {
            St1::NO_DATA
        } else {
            St1::MISSING_MARK
        },
        st2: St2(0),
        key,
    }
}

impl Order {
    /// Whether the command has a sector ID: all but READ ID have one.
    fn has_key(self) -> bool
        ensures { result ≡ has_key self }
    {
        self.code & COMMAND != READ_ANY_ID
    }

    /// Whether a VERIFY is done although the sequencer ends with EN after EOT, because sectors were passed over. This
    /// is so for a VERIFY that doesn't count its sectors.
    fn is_done(self, results: Results) -> bool
        ensures { result ≡ is_done self results }
    {
        !has_bit(self.unit, COUNTS) && results.st1.bits() == St1::END_OF_CYLINDER.bits()
    }

    /// The results of a VERIFY, from those of its READ DATA.
    fn verified(self, results: Results) -> Results
        ensures { result ≡ verified self results }
    {
        if !self.is_done(results) {
            return results;
        }
        Results {
            st0: St0(results.st0.bits() & WITHOUT_CODE),
            st1: St1(0),
            key: behind_last(has_bit(self.code, MULTITRACK), results.key),
            ..results
        }
    }
}

impl<D: Inspect> Chip<D> {
    /// Lets the host read results. INT rises.
    pub(crate) fn tell_results(&mut self, results: Results)
        ensures { chip_state D.state self.new ≡ told_results results (chip_state D.state self.old) }
    {
        self.interrupts.set_line(true);
        self.tell(ChipAnswer::Results { results });
    }

    /// Takes the results of what the inner controller executed for a task, if they wait.
    pub(crate) fn may_end(&mut self, task: ChipTask)
        ensures { MayEnd task (chip_state D.state self.old) (chip_state D.state self.new) }
    {
        if let Some(results) = self.take_judged() {
            self.end(task, results);
        }
    }

    /// Does what these results lead to.
    fn end(&mut self, task: ChipTask, results: Results)
        ensures { Ends task results (chip_state D.state self.old) (chip_state D.state self.new) }
    {
        match task {
            ChipTask::Sent => self.end_sent(results),
            ChipTask::Verify { .. } => self.end_sent(self.order.verified(results)),
            ChipTask::Sought { results: first } => {
                self.tell_results(with_cylinder_passed(first, results));
            }
            ChipTask::Refused { unit, key, mfm } => {
                self.tell_results(refusal(unit, key, mfm && saw_marks(results)));
            }
            ChipTask::Track { track } => self.end_part(track, results),
        }
    }

    /// The command that was sent ended. If its sector wasn't found, the chip looks which cylinder passes.
    fn end_sent(&mut self, results: Results)
        ensures { EndsSent (looks_for_cylinder self.old.order results) results (chip_state D.state self.old) (chip_state D.state self.new) }
    {
        if !self.order.has_key() || results.st1.bits() != St1::NO_DATA.bits() {
            self.tell_results(results);
            return;
        }
        self.stage = ChipStage::Busy {
            task: ChipTask::Sought { results },
        };
        self.command(Command::ReadId {
            head_drive: results.st0.bits() & UNIT,
        });
    }
}
