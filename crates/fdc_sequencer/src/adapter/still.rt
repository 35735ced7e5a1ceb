// Whether the controller does anything or its heads only move, how long its lines surely stay, and the range of its
// numbers.
ghost use Rattle.std.specs.Prelude.{◌≡◌, ◌≤◌, true};
ghost use Rattle.fdc_sequencer.specs.Common.{awaits_nothing, is_at_rest, Foresees, IsLongest, IsInRange};
ghost use Rattle.fdc_sequencer.specs.AdapterStill.{Stands, heads_at, steps_ahead};
ghost use Rattle.fdc_sequencer.specs.Quiet.{drive_selected};

use crate::adapter::DisketteAdapter;
use drive_model::Inspect;

/// Nothing is said of the next device step.
const UNKNOWN: u32 = 0;

impl<D: Inspect> DisketteAdapter<D> {
    ghost use Rattle.fdc_sequencer.specs.Adapters.{adapter_state, controller_of, selected_at};

    /// Whether a device step changes nothing but the drives. If so, no later device step does either.
    pub fn is_still(&self) -> bool
        ensures value { result ≡ is_at_rest (controller_of self.now) }
        ensures still { result ≡ true → Stands (controller_of self.now) }
    {
        self.controller.is_still()
    }

    /// Whether no poll comes in the next device step, and no result of a seek or poll is pending.
    pub fn awaits_nothing(&self) -> bool
        ensures { result ≡ awaits_nothing (controller_of self.now) }
    {
        self.controller.awaits_nothing()
    }

    /// The cylinder under the heads of the drive that DOR selects. An absent drive never comes to cylinder 0.
    fn heads(&self) -> u8
        ensures { result ≡ heads_at (adapter_state D.state self.now) }
    {
        match self.selected() {
            0 => self.first.cylinder(),
            1 => self.second.cylinder(),
            _ => u8::MAX,
        }
    }

    /// The device steps in which a seek surely doesn't end, or 0 if none runs.
    pub fn steps_ahead(&self) -> u8
        ensures { result ≡ steps_ahead (adapter_state D.state self.now) }
    {
        self.controller.pulses_ahead(self.heads())
    }

    /// This many device steps, at most `most`, surely change neither line of the controller. In them no data command
    /// ends and no data mark is met. `Fdc::quiet_ahead` says under which premises, and how large the number is at least
    /// (`longest`). It is 0 where no drive is selected.
    pub fn quiet_ahead(&self, most: u32) -> u32
        ensures few { result ≤ most }
        ensures foresees { Foresees result (controller_of self.now) (drive_selected (adapter_state D.state self.now)) }
        ensures absent { 2 ≤ selected_at (adapter_state D.state self.now) → result ≡ 0 }
        ensures longest { selected_at (adapter_state D.state self.now) ≤ 1
            → IsLongest most result (controller_of self.now) (drive_selected (adapter_state D.state self.now)) }
    {
        match self.selected() {
            0 => self.controller.quiet_ahead(most, &self.first),
            1 => self.controller.quiet_ahead(most, &self.second),
            _ => UNKNOWN,
        }
    }

    /// The numbers of the adapter's controller are those that registers hold. The function does nothing.
    pub fn ranges(&self)
        ensures { IsInRange (controller_of self.now) }
    {
        self.controller.ranges();
    }
}
