// What is done to a drive by hand: to the tab of its medium, to the medium itself, and to the whole drive.
ghost use Rattle.std.specs.Prelude.{◌≡◌, ◌≤◌, ◌-◌};
ghost use Rattle.fdc_chip.specs.Common.{with_protection, drive_held, Exchanges, Sets, adapter_of};
ghost use Rattle.fdc_chip.specs.Chips.{chip_state, chip_with_drive, behind_of, KeepsChip};

use crate::chip::Chip;
use drive_model::Inspect;
use raw_image::Medium;

impl<D: Inspect> Chip<D> {
    /// Moves the tab of the medium in a bay, so that the medium is write-protected, or isn't. If none is in, nothing
    /// changes.
    pub fn set_protected(&mut self, bay: u8, on: bool)
        requires { bay ≤ 1 }
        ensures keeps { KeepsChip (chip_state D.state self.old) (chip_state D.state self.new) }
        ensures sets { Sets bay (with_protection on) (chip_state D.state self.old).front.adapter (chip_state D.state self.new).front.adapter }
    {
        self.behind.set_protected(bay, on);
    }

    /// Puts a medium in place of the one in a bay, as if the new one had always turned there, and gives the old one
    /// back. If no medium is in, or if the tracks of the two differ in length, the new one is given back.
    pub fn exchange(&mut self, bay: u8, medium: Medium) -> Result<Medium, Medium>
        requires { bay ≤ 1 }
        ensures keeps { KeepsChip (chip_state D.state self.old) (chip_state D.state self.new) }
        ensures exchanges { Exchanges bay medium (chip_state D.state self.old).front.adapter (chip_state D.state self.new).front.adapter result }
    {
        self.behind.exchange(bay, medium)
    }

    /// Puts a drive into a bay with all that is in the drive, and gives the one that was there. Nothing else changes.
    pub fn swap_drive(&mut self, bay: u8, drive: &mut D)
        requires { bay ≤ 1 }
        ensures keeps { KeepsChip (chip_state D.state self.old) (chip_state D.state self.new) }
        ensures other { drive_held (adapter_of (behind_of self.new)) (1 - bay) ≡ drive_held (adapter_of (behind_of self.old)) (1 - bay) }
        ensures taken { drive.new ≡ drive_held (adapter_of (behind_of self.old)) bay }
        ensures put { drive_held (adapter_of (behind_of self.new)) bay ≡ drive.old }
        ensures whole { self.new ≡ chip_with_drive bay drive.old self.old }
    {
        self.behind.swap_drive(bay, drive);
    }

    /// The drive in a bay.
    pub fn drive(&self, bay: u8) -> &D
        requires { bay ≤ 1 }
        ensures { result.now ≡ drive_held (adapter_of (behind_of self.now)) bay }
    {
        self.behind.adapter().drive(bay)
    }
}
