// What can be looked at is as in the drive within. Where the heads stand isn't known while the cable is pulled.
ghost use Rattle.std.specs.Prelude.{◌≡◌, ◌↔◌, Some, IsErr, OnOk, OnErr, IfOk, IfErr, false};
ghost use Rattle.drive_model.specs.Drive.{forgotten, same_length, exchanged, with_protection};

use super::BayDrive;
use drive_model::{Drive, Inspect};
use raw_image::Medium;

/// A cylinder that no medium has.
const BEYOND: u8 = 82;

impl Inspect for BayDrive {
    ghost use Rattle.c_bay_drive.specs.Bays.{bay_state, drive_within, BecomesWithin};
    ghost use Rattle.c_bay_drive.specs.WithMedium.{BayWithMedium};

    fn medium(&self) -> Option<&Medium> {
        self.inside.medium()
    }

    fn cylinder(&self) -> u8 {
        if self.is_attached() {
            self.inside.cylinder()
        } else {
            BEYOND
        }
    }

    fn place(&self) -> Option<u16> {
        self.inside.place()
    }

    fn is_gate_open(&self) -> bool {
        self.inside.is_gate_open()
    }

    fn is_written(&self) -> bool {
        self.replaced
    }

    fn forget_written(&mut self)
        ensures state { bay_state self.new ≡ forgotten (bay_state self.old) }
        ensures within { BecomesWithin (drive_within self.old) self.old self.new }
    {
        self.replaced = false;
    }

    fn set_protected(&mut self, on: bool)
        ensures state { bay_state self.new ≡ with_protection on (bay_state self.old) }
        ensures within { BecomesWithin (with_protection on (drive_within self.old)) self.old self.new }
    {
        self.inside.set_protected(on);
    }

    fn exchange(&mut self, medium: Medium) -> Result<Medium, Medium>
        ensures refused { IsErr result ↔ (same_length medium (bay_state self.old).medium ≡ false) }
        ensures ok { OnOk result (bay_state self.new ≡ exchanged medium (bay_state self.old)) }
        ensures held { OnOk result (BayWithMedium (Some medium) self.old self.new) }
        ensures before { IfOk result (λ before. Some before ≡ (bay_state self.old).medium) }
        ensures err { IfErr result (λ back. (back ≡ medium) × (bay_state self.new ≡ bay_state self.old)) }
        ensures stays { OnErr result (BecomesWithin (drive_within self.old) self.old self.new) }
    {
        self.inside.exchange(medium)
    }
}
