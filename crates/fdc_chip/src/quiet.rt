// How long no line changes, and device steps while nothing runs; also the ranges of the inner controller's numbers.
ghost use Rattle.std.specs.Prelude.{◌≡◌, ◌≤◌, true};
ghost use Rattle.fdc_core.specs.Ranges.{IsInRange};
ghost use Rattle.fdc_chip.specs.Common.{ForeseesBehind, IsLongestBehind, IsQuietBehind};
ghost use Rattle.fdc_sequencer.specs.Ranges.{HasByteNumbers};
ghost use Rattle.fdc_chip.specs.Chips.{chip_state, interrupts_chip, asks_chip};
ghost use Rattle.fdc_chip.specs.Quiet.{IsIdle, IsQuietFor, IsStill, StaysQuiet, awaits_heads, awaits_results, due_steps, idles, is_busy, is_for_heads, is_settled, is_still_at, quiet_steps, rests_at, takes_none, tells_alone, waits_at};
ghost use Rattle.fdc_chip.specs.Steps.{RunsChipWith};
ghost use Rattle.fdc_chip.specs.declared.stage.ChipStage.TheVariants.{Busy};
ghost use Rattle.fdc_chip.specs.declared.stage.ChipTask.TheVariants.{Sent};

use crate::chip::Chip;
use crate::code::ChipOpcode;
use crate::order::Order;
use crate::stage::{ChipStage, ChipTask};
use drive_model::Inspect;

/// Nothing is said of the next device step.
const UNKNOWN: u32 = 0;

/// Whether a held command with this code is held until the heads stand.
fn is_for_heads(code: Option<ChipOpcode>) -> bool
    ensures { result ≡ is_for_heads code }
{
    match code {
        None => false,
        Some(code) => code.needs_heads(),
    }
}

impl ChipStage {
    /// Whether no command is under way that a device step goes on with.
    fn rests(&self) -> bool
        ensures { result ≡ rests_at self.now }
    {
        matches!(self, ChipStage::Ready | ChipStage::Telling { .. })
    }

    /// Whether no command is executed, and a command that is held waits for the heads.
    fn waits(&self, order: Order) -> bool
        ensures { result ≡ waits_at self.now order }
    {
        match self {
            ChipStage::Ready | ChipStage::Telling { .. } => true,
            ChipStage::Held => is_for_heads(ChipOpcode::of(order.code)),
            ChipStage::Busy { .. } => false,
        }
    }
}

impl<D: Inspect> Chip<D> {
    /// The numbers of the inner controller are those that registers and bytes hold. The function does nothing.
    pub fn ranges(&self)
        ensures controller { IsInRange (chip_state D.state self.now).front.adapter.controller }
        ensures records { HasByteNumbers (chip_state D.state self.now).front.stage }
    {
        self.behind.ranges();
    }

    /// This many device steps, at most `most`, surely leave INT and DRQ as they are.
    ///
    /// The number is `most` if no command is executed and no heads move, whether motors are on or off. It is also `most`
    /// if INT can't change, because DOR lets no line out or because INT is up already. Then no timer is needed until the
    /// next call. While heads move, the number is that of the steps before their seek can end. All this holds whatever
    /// the drives do.
    ///
    /// While a command is executed, the number comes from the words that pass next, and ends before the next event. This
    /// is the address field of a READ ID or of a write, or the data mark of a READ DATA, or the next byte for which the
    /// FIFO asks, or the last word that a write writes. In a write after its search, and in a FORMAT TRACK, the number
    /// holds whatever the drives do. Else it holds if no fault can come, if the track is Plain, and if a READ DATA's
    /// sector ID is there once. If no fault can come, `longest` says how large the number is at least. In an implied seek
    /// it is that of the steps before the seek can end. It is 0 in the first step of a write and of a FORMAT TRACK, and in
    /// a VERIFY that reads.
    pub fn quiet(&self, most: u32) -> u32
        ensures { StaysQuiet most (chip_state D.state self.now) result }
    {
        if self.is_busy() {
            return self.quiet_busy(most);
        }
        self.quiet_idle(most)
    }

    /// Whether the inner controller executes a command.
    fn is_busy(&self) -> bool
        ensures { result ≡ is_busy (chip_state D.state self.now).stage }
    {
        matches!(self.stage, ChipStage::Busy { .. })
    }

    /// `quiet` while a command is executed.
    fn quiet_busy(&self, most: u32) -> u32
        ensures few { result ≤ most }
        ensures foresees { ForeseesBehind result (chip_state D.state self.now).front }
        ensures lines { IsQuietBehind result (chip_state D.state self.now).front → IsQuietFor result (chip_state D.state self.now) }
        ensures longest { awaits_results (chip_state D.state self.now).stage (chip_state D.state self.now).front.stage ≡ true
            → IsLongestBehind most result (chip_state D.state self.now).front }
    {
        if self.awaits_results() {
            return self.behind.quiet_ahead(most);
        }
        UNKNOWN
    }

    /// Whether a command is executed, and a device step only waits for its results.
    fn awaits_results(&self) -> bool
        ensures { result ≡ awaits_results (chip_state D.state self.now).stage (chip_state D.state self.now).front.stage }
    {
        match self.stage {
            ChipStage::Busy { task } => self.takes_none(task),
            _ => false,
        }
    }

    /// Whether a device step takes no byte of this task. Of a VERIFY none comes while the heads go to its cylinder.
    fn takes_none(&self, task: ChipTask) -> bool
        ensures { result ≡ takes_none task (chip_state D.state self.now).front.stage }
    {
        match task {
            ChipTask::Verify { .. } => self.behind.seeks_first(),
            _ => true,
        }
    }

    /// `quiet` while no command is executed.
    fn quiet_idle(&self, most: u32) -> u32
        ensures few { result ≤ most }
        ensures value { result ≡ quiet_steps most (chip_state D.state self.now) }
        ensures lines { IsQuietFor result (chip_state D.state self.now) }
    {
        if self.is_still() {
            return most;
        }
        if self.is_settled() {
            return most;
        }
        if self.tells_alone() {
            return most;
        }
        self.keep_ranges();
        most.min(self.due_steps())
    }

    /// The numbers of the inner controller are those that registers hold. The function does nothing.
    fn keep_ranges(&self)
        ensures { IsInRange (chip_state D.state self.now).front.adapter.controller }
    {
        self.behind.ranges();
    }

    /// Whether a device step goes on with nothing in the chip itself.
    fn is_idle(&self) -> bool
        ensures value { result ≡ idles (chip_state D.state self.now) }
        ensures idle { result ≡ true → IsIdle (chip_state D.state self.now) }
    {
        match self.pace {
            None => self.stage.rests(),
            Some(_) => false,
        }
    }

    /// Whether device steps change nothing but the drives.
    pub(crate) fn is_still(&self) -> bool
        ensures value { result ≡ is_still_at (chip_state D.state self.now) }
        ensures still { result ≡ true → IsStill (chip_state D.state self.now) }
    {
        if self.behind.int() {
            return false;
        }
        if self.is_idle() {
            return self.behind.is_still();
        }
        false
    }

    /// Whether INT can't change: no command is executed or held, and DOR lets no line out or INT is up already.
    fn is_settled(&self) -> bool
        ensures { result ≡ is_settled (chip_state D.state self.now) }
    {
        if !self.stage.rests() {
            return false;
        }
        if !self.gated {
            return true;
        }
        self.interrupts.is_up()
    }

    /// Whether the host reads an answer, and no pulses are to come in the time that SPECIFY sets.
    fn tells_alone(&self) -> bool
        ensures { result ≡ tells_alone (chip_state D.state self.now).stage (chip_state D.state self.now).pace }
    {
        match self.stage {
            ChipStage::Telling { .. } => self.pace.is_none(),
            _ => false,
        }
    }

    /// The device steps before the seek of the heads can end, or 0 if something else can change a line.
    fn due_steps(&self) -> u32
        ensures { result ≡ due_steps (chip_state D.state self.now) }
    {
        if !self.awaits_heads() {
            return UNKNOWN;
        }
        match self.pace {
            None => u32::from(self.behind.adapter().steps_ahead()),
            Some(pace) => pace.steps_left(self.settings.step_words()),
        }
    }

    /// Whether only the end of a seek can change a line.
    fn awaits_heads(&self) -> bool
        ensures { result ≡ awaits_heads (chip_state D.state self.now) }
    {
        if !self.stage.waits(self.order) {
            return false;
        }
        if !self.behind.is_ready() {
            return false;
        }
        if self.behind.int() {
            return false;
        }
        self.behind.adapter().awaits_nothing()
    }

    /// Does device steps at once while a command that was sent on moves a sector, at most `most`, and gives their
    /// number. Neither line changes in them. If the number is 0, the next step has to be done alone.
    pub(crate) fn leap(&mut self, most: u32) -> u32
        ensures few { result ≤ most }
        ensures runs { RunsChipWith (interrupts_chip (chip_state D.state self.old)) (asks_chip (chip_state D.state self.old)) result
            (chip_state D.state self.old) (chip_state D.state self.new) }
    {
        if self.has_sent() {
            return self.behind.leap(most);
        }
        0
    }

    /// Whether the inner controller executes a command that was sent on.
    fn has_sent(&self) -> bool
        ensures { result ≡ true → (chip_state D.state self.now).stage ≡ Busy Sent }
    {
        match self.stage {
            ChipStage::Busy { task } => matches!(task, ChipTask::Sent),
            _ => false,
        }
    }
}
