// The bays: putting media in, taking them out, and what a front end shows of the drives.
ghost use Rattle.std.specs.Prelude.{◌≡◌, ◌≤◌, ◌+◌, ◌↔◌, IsTrue, IsBitSet};
ghost use Rattle.std.specs.Option.{option_copied};
ghost use Rattle.fdc_sequencer.specs.Common.{forgotten, place_under, dor_of};
ghost use Rattle.fdc_sequencer.specs.Handling.{PutsIn, TakesOut, Sets};

use crate::adapter::DisketteAdapter;
use drive_model::Inspect;
use raw_image::Medium;

impl<D: Inspect> DisketteAdapter<D> {
    ghost use Rattle.fdc_sequencer.specs.Adapters.{adapter_state, controller_of, drive_at};

    /// Puts a medium into a bay. No word of it counts as replaced yet. If a medium is in already, the new one is given
    /// back.
    pub fn insert(&mut self, bay: u8, medium: Medium) -> Result<(), Medium>
        requires { bay ≤ 1 }
        ensures controller { controller_of self.new ≡ controller_of self.old }
        ensures puts { PutsIn bay medium (adapter_state D.state self.old) (adapter_state D.state self.new) result }
    {
        if bay == 0 {
            self.first.insert(medium)
        } else {
            self.second.insert(medium)
        }
    }

    /// Takes the medium out of a bay. `is_written` still says whether a word of it was replaced.
    pub fn eject(&mut self, bay: u8) -> Option<Medium>
        requires { bay ≤ 1 }
        ensures controller { controller_of self.new ≡ controller_of self.old }
        ensures takes { TakesOut bay (adapter_state D.state self.old) (adapter_state D.state self.new) result }
    {
        if bay == 0 {
            self.first.eject()
        } else {
            self.second.eject()
        }
    }

    /// The medium in a bay, which stays there.
    pub fn medium(&self, bay: u8) -> Option<&Medium>
        requires { bay ≤ 1 }
        ensures { option_copied result ≡ (drive_at (adapter_state D.state self.now) bay).medium }
    {
        self.drive(bay).medium()
    }

    /// Whether a word of the medium in a bay was replaced since the medium was put in, or since `forget_written`. This
    /// is still known of a medium that was taken out.
    pub fn is_written(&self, bay: u8) -> bool
        requires { bay ≤ 1 }
        ensures { result ≡ (drive_at (adapter_state D.state self.now) bay).replaced }
    {
        self.drive(bay).is_written()
    }

    /// Forgets that a word of the medium in a bay was replaced, as a front end does once it has stored the medium.
    pub fn forget_written(&mut self, bay: u8)
        requires { bay ≤ 1 }
        ensures controller { controller_of self.new ≡ controller_of self.old }
        ensures forgets { Sets bay forgotten (adapter_state D.state self.old) (adapter_state D.state self.new) }
    {
        if bay == 0 {
            self.first.forget_written();
        } else {
            self.second.forget_written();
        }
    }

    /// Gives what `is_written` gives, and forgets it.
    pub fn take_written(&mut self, bay: u8) -> bool
        requires { bay ≤ 1 }
        ensures was { result ≡ (drive_at (adapter_state D.state self.old) bay).replaced }
        ensures controller { controller_of self.new ≡ controller_of self.old }
        ensures forgets { Sets bay forgotten (adapter_state D.state self.old) (adapter_state D.state self.new) }
    {
        let written = self.is_written(bay);
        self.forget_written(bay);
        written
    }

    /// The cylinder under the heads of the drive in a bay, 0 to 82.
    pub fn cylinder(&self, bay: u8) -> u8
        requires { bay ≤ 1 }
        ensures { result ≡ (drive_at (adapter_state D.state self.now) bay).cylinder }
    {
        self.drive(bay).cylinder()
    }

    /// The place of the word that passes next under the heads of the drive in a bay, in words after the index; or none
    /// if no word passes.
    pub fn place(&self, bay: u8) -> Option<u16>
        requires { bay ≤ 1 }
        ensures { result ≡ place_under (drive_at (adapter_state D.state self.now) bay) }
    {
        self.drive(bay).place()
    }

    /// Whether the write gate of the drive in a bay is open.
    pub fn is_gate_open(&self, bay: u8) -> bool
        requires { bay ≤ 1 }
        ensures { result ≡ (drive_at (adapter_state D.state self.now) bay).gate }
    {
        self.drive(bay).is_gate_open()
    }

    /// Whether DOR turns the motor of the drive in a bay on.
    pub fn is_motor_on(&self, bay: u8) -> bool
        requires { bay ≤ 1 }
        ensures { IsTrue result ↔ IsBitSet (dor_of (controller_of self.now)) (4 + bay) }
    {
        self.controller.motor(bay)
    }
}
