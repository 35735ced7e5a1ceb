// What is done to a drive by hand: to the tab of its medium, to the medium itself, and to the whole drive.
ghost use Rattle.std.specs.Prelude.{◌≡◌, ◌≤◌, ◌-◌};
ghost use Rattle.fdc_sequencer.specs.Common.{with_protection};
ghost use Rattle.fdc_sequencer.specs.Handling.{Exchanges, Sets};

use crate::adapter::DisketteAdapter;
use drive_model::Inspect;
use raw_image::Medium;
use std::mem;

impl<D: Inspect> DisketteAdapter<D> {
    ghost use Rattle.fdc_sequencer.specs.Adapters.{adapter_state, adapter_with_drive, controller_of, drive_at, drive_held};

    /// Moves the tab of the medium in a bay, so that the medium is write-protected, or isn't. If none is in, nothing
    /// changes.
    pub fn set_protected(&mut self, bay: u8, on: bool)
        requires { bay ≤ 1 }
        ensures controller { controller_of self.new ≡ controller_of self.old }
        ensures sets { Sets bay (with_protection on) (adapter_state D.state self.old) (adapter_state D.state self.new) }
    {
        if bay == 0 {
            self.first.set_protected(on);
        } else {
            self.second.set_protected(on);
        }
    }

    /// Puts a medium in place of the one in a bay, as if the new one had always turned there, and gives the old one
    /// back. If no medium is in, or if the tracks of the two differ in length, the new one is given back.
    pub fn exchange(&mut self, bay: u8, medium: Medium) -> Result<Medium, Medium>
        requires { bay ≤ 1 }
        ensures controller { controller_of self.new ≡ controller_of self.old }
        ensures exchanges { Exchanges bay medium (adapter_state D.state self.old) (adapter_state D.state self.new) result }
    {
        if bay == 0 {
            self.first.exchange(medium)
        } else {
            self.second.exchange(medium)
        }
    }

    /// Puts a drive into a bay with all that is in the drive, and gives the one that was there. The controller doesn't
    /// change.
    pub fn swap_drive(&mut self, bay: u8, drive: &mut D)
        requires { bay ≤ 1 }
        ensures controller { controller_of self.new ≡ controller_of self.old }
        ensures other { drive_held self.new (1 - bay) ≡ drive_held self.old (1 - bay) }
        ensures taken { drive.new ≡ drive_held self.old bay }
        ensures put { drive_held self.new bay ≡ drive.old }
        ensures whole { self.new ≡ adapter_with_drive bay drive.old self.old }
    {
        if bay == 0 {
            mem::swap(&mut self.first, drive);
        } else {
            mem::swap(&mut self.second, drive);
        }
    }

    /// The drive in a bay.
    pub fn drive(&self, bay: u8) -> &D
        requires { bay ≤ 1 }
        ensures held { result.now ≡ drive_held self.now bay }
        ensures shown { D.state result.now ≡ drive_at (adapter_state D.state self.now) bay }
    {
        if bay == 0 { &self.first } else { &self.second }
    }
}
