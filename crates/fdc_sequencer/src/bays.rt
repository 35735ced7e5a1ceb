// The bays, which are those of the adapter.
ghost use Rattle.std.specs.Prelude.{◌≡◌, ◌≤◌};
ghost use Rattle.fdc_sequencer.specs.Common.{forgotten};
ghost use Rattle.fdc_sequencer.specs.Adapters.{drive_at};
ghost use Rattle.fdc_sequencer.specs.Handling.{PutsIn, TakesOut, Sets};
ghost use Rattle.fdc_sequencer.specs.Fronts.{front_state, adapter_of, KeepsFront};

use crate::adapter::DisketteAdapter;
use crate::sequencer::Sequencer;
use drive_model::Inspect;
use raw_image::Medium;

impl<D: Inspect> Sequencer<D> {
    /// Puts a medium into a bay. No word of it counts as replaced yet. If a medium is in already, the new one is given
    /// back.
    pub fn insert(&mut self, bay: u8, medium: Medium) -> Result<(), Medium>
        requires { bay ≤ 1 }
        ensures keeps { KeepsFront (front_state D.state self.old) (front_state D.state self.new) }
        ensures puts { PutsIn bay medium (front_state D.state self.old).adapter (front_state D.state self.new).adapter result }
    {
        self.adapter.insert(bay, medium)
    }

    /// Takes the medium out of a bay. `is_written` of the adapter still says whether a word of it was replaced.
    pub fn eject(&mut self, bay: u8) -> Option<Medium>
        requires { bay ≤ 1 }
        ensures keeps { KeepsFront (front_state D.state self.old) (front_state D.state self.new) }
        ensures takes { TakesOut bay (front_state D.state self.old).adapter (front_state D.state self.new).adapter result }
    {
        self.adapter.eject(bay)
    }

    /// Forgets that a word of the medium in a bay was replaced, as a front end does once it has stored the medium.
    pub fn forget_written(&mut self, bay: u8)
        requires { bay ≤ 1 }
        ensures keeps { KeepsFront (front_state D.state self.old) (front_state D.state self.new) }
        ensures forgets { Sets bay forgotten (front_state D.state self.old).adapter (front_state D.state self.new).adapter }
    {
        self.adapter.forget_written(bay);
    }

    /// Gives what `is_written` of the adapter gives, and forgets it.
    pub fn take_written(&mut self, bay: u8) -> bool
        requires { bay ≤ 1 }
        ensures was { result ≡ (drive_at (front_state D.state self.old).adapter bay).replaced }
        ensures keeps { KeepsFront (front_state D.state self.old) (front_state D.state self.new) }
        ensures forgets { Sets bay forgotten (front_state D.state self.old).adapter (front_state D.state self.new).adapter }
    {
        self.adapter.take_written(bay)
    }

    /// The adapter with its drives, and what a front end shows of them.
    pub fn adapter(&self) -> &DisketteAdapter<D>
        ensures { result.now ≡ adapter_of self.now }
    {
        &self.adapter
    }
}
