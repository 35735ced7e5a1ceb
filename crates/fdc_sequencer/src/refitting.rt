// What is done to a drive by hand: to the tab of its medium, to the medium itself, and to the whole drive.
ghost use Rattle.std.specs.Prelude.{◌≡◌, ◌≤◌, ◌-◌};
ghost use Rattle.fdc_sequencer.specs.Common.{with_protection};
ghost use Rattle.fdc_sequencer.specs.Adapters.{drive_held};
ghost use Rattle.fdc_sequencer.specs.Handling.{Exchanges, Sets};
ghost use Rattle.fdc_sequencer.specs.Fronts.{front_state, front_with_drive, adapter_of, KeepsFront};

use crate::sequencer::Sequencer;
use drive_model::Inspect;
use raw_image::Medium;

impl<D: Inspect> Sequencer<D> {
    /// Moves the tab of the medium in a bay, so that the medium is write-protected, or isn't. If none is in, nothing
    /// changes.
    pub fn set_protected(&mut self, bay: u8, on: bool)
        requires { bay ≤ 1 }
        ensures keeps { KeepsFront (front_state D.state self.old) (front_state D.state self.new) }
        ensures sets { Sets bay (with_protection on) (front_state D.state self.old).adapter (front_state D.state self.new).adapter }
    {
        self.adapter.set_protected(bay, on);
    }

    /// Puts a medium in place of the one in a bay, as if the new one had always turned there, and gives the old one
    /// back. If no medium is in, or if the tracks of the two differ in length, the new one is given back.
    pub fn exchange(&mut self, bay: u8, medium: Medium) -> Result<Medium, Medium>
        requires { bay ≤ 1 }
        ensures keeps { KeepsFront (front_state D.state self.old) (front_state D.state self.new) }
        ensures exchanges { Exchanges bay medium (front_state D.state self.old).adapter (front_state D.state self.new).adapter result }
    {
        self.adapter.exchange(bay, medium)
    }

    /// Puts a drive into a bay with all that is in the drive, and gives the one that was there. Nothing else changes.
    pub fn swap_drive(&mut self, bay: u8, drive: &mut D)
        requires { bay ≤ 1 }
        ensures keeps { KeepsFront (front_state D.state self.old) (front_state D.state self.new) }
        ensures other { drive_held (adapter_of self.new) (1 - bay) ≡ drive_held (adapter_of self.old) (1 - bay) }
        ensures taken { drive.new ≡ drive_held (adapter_of self.old) bay }
        ensures put { drive_held (adapter_of self.new) bay ≡ drive.old }
        ensures whole { self.new ≡ front_with_drive bay drive.old self.old }
    {
        self.adapter.swap_drive(bay, drive);
    }
}
