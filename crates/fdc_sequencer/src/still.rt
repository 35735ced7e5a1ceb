// Whether anything is done, how long the lines surely stay, and the ranges of the numbers.
ghost use Rattle.std.specs.Prelude.{◌≡◌, ◌<◌, ◌≤◌, false, true, min};
ghost use Rattle.fdc_sequencer.specs.Common.{is_executing, IsInRange};
ghost use Rattle.fdc_sequencer.specs.AdapterStill.{steps_ahead};
ghost use Rattle.fdc_sequencer.specs.Fronts.{front_state};
ghost use Rattle.fdc_sequencer.specs.Quiet.{ForeseesBehind, GoesAlongFor, IsInCommand, IsLongestBehind, IsQuietBehind, executes_at, seeks_at};
ghost use Rattle.fdc_sequencer.specs.Ranges.{HasByteNumbers, HasByteRecords};
ghost use Rattle.fdc_sequencer.specs.Still.{rests_at, stands_at, StandsFront};

use crate::sequencer::Sequencer;
use crate::stage::FrontStage;
use crate::transfer::Transfer;
use drive_model::Inspect;

/// Nothing is said of the next device step.
const UNKNOWN: u32 = 0;

// The numbers of two records are bytes. The function does nothing.
fn keep_records(_record: u8, _last: u8)
    ensures record { _record < 256 }
    ensures last { _last < 256 }
{}

impl Transfer {
    /// The numbers of the command's record and of its last record are bytes. The function does nothing.
    fn ranges(&self)
        ensures { HasByteRecords self.now }
    {
        keep_records(self.key.r, self.last_sector);
    }
}

impl FrontStage {
    /// The numbers of a command of several sectors that is under way are bytes. The function does nothing.
    fn ranges(&self)
        ensures { HasByteNumbers self.now }
    {
        match self {
            FrontStage::Seeking { transfer, .. } => transfer.ranges(),
            FrontStage::Moving { moving } => moving.transfer.ranges(),
            _ => {}
        }
    }
}

impl<D: Inspect> Sequencer<D> {
    /// The sequencer's numbers are those that registers and bytes hold. The function does nothing.
    pub fn ranges(&self)
        ensures controller { IsInRange (front_state D.state self.now).adapter.controller }
        ensures records { HasByteNumbers (front_state D.state self.now).stage }
    {
        self.adapter.ranges();
        self.stage.ranges();
    }

    /// Whether a device step is the adapter's alone: no command of several sectors seeks or moves a sector.
    fn rests(&self) -> bool
        ensures { result ≡ rests_at (front_state D.state self.now).stage }
    {
        match self.stage {
            FrontStage::Seeking { .. } | FrontStage::Moving { .. } => false,
            _ => true,
        }
    }

    /// Whether a device step changes nothing but the drives. If so, no later device step does either.
    pub fn is_still(&self) -> bool
        ensures value { result ≡ stands_at (front_state D.state self.now) }
        ensures still { result ≡ true → StandsFront (front_state D.state self.now) }
    {
        if self.rests() {
            return self.adapter.is_still();
        }
        false
    }

    /// Whether the heads go to the cylinder of a command of several sectors.
    pub fn seeks_first(&self) -> bool
        ensures { result ≡ seeks_at (front_state D.state self.now).stage }
    {
        matches!(self.stage, FrontStage::Seeking { .. })
    }

    /// This many device steps, at most `most`, surely change neither line outside. The same stays under way in them,
    /// and no results come.
    ///
    /// While the heads go to a command's cylinder these are the steps before their seek can end. While a data command is
    /// executed the number comes from the words that pass next, and `Fdc::quiet_ahead` says under which premises it holds.
    /// `longest` says how large the number is. In all else it is 0.
    pub fn quiet_ahead(&self, most: u32) -> u32
        ensures few { result ≤ most }
        ensures foresees { ForeseesBehind result (front_state D.state self.now) }
        ensures lasts { IsQuietBehind result (front_state D.state self.now) → GoesAlongFor result (front_state D.state self.now) }
        ensures longest { IsLongestBehind most result (front_state D.state self.now) }
    {
        if self.seeks_first() {
            return self.quiet_seek(most);
        }
        if self.is_in_command() {
            return self.adapter.quiet_ahead(most);
        }
        UNKNOWN
    }

    /// The device steps, at most `most`, before the seek to a command's cylinder can end, or 0 if there is no such seek.
    fn quiet_seek(&self, most: u32) -> u32
        ensures few { result ≤ most }
        ensures lasts { seeks_at (front_state D.state self.now).stage ≡ true → GoesAlongFor result (front_state D.state self.now) }
        ensures longest { is_executing (front_state D.state self.now).adapter.controller.phase ≡ false
            → result ≡ min most (steps_ahead (front_state D.state self.now).adapter) }
    {
        if self.adapter.is_executing() {
            return UNKNOWN;
        }
        most.min(u32::from(self.adapter.steps_ahead()))
    }

    /// Whether the controller executes a command, and nothing is to be done in front while the command goes on.
    fn is_in_command(&self) -> bool
        ensures command { result ≡ true → IsInCommand (front_state D.state self.now) }
        ensures value { result ≡ executes_at (front_state D.state self.now).stage (front_state D.state self.now).adapter.controller }
    {
        match self.stage {
            FrontStage::Through => self.adapter.is_executing(),
            FrontStage::Moving { moving } => self.goes_along(moving),
            _ => false,
        }
    }
}
