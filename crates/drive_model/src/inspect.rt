// What can be looked at in a drive.
ghost use Rattle.std.specs.Prelude.{◌≡◌, ◌↔◌, Some, IsErr, OnOk, IfOk, IfErr, false};
ghost use Rattle.std.specs.Option.{option_copied};
ghost use Rattle.drive_model.specs.Drive.{forgotten, place_under};
ghost use Rattle.drive_model.specs.Drive.{with_protection, same_length, exchanged};

use crate::Drive;
use raw_image::Medium;

/// A drive that can be looked into.
pub trait Inspect: Drive {
    /// The medium that is in.
    fn medium(&self) -> Option<&Medium>
        ensures { option_copied result ≡ (Self.state self.now).medium };

    /// The cylinder under the heads, 0 to 82.
    fn cylinder(&self) -> u8
        ensures { result ≡ (Self.state self.now).cylinder };

    /// The place on the track that passes next, in words from the index; none where no word passes.
    fn place(&self) -> Option<u16>
        ensures { result ≡ place_under (Self.state self.now) };

    /// The write gate is open.
    fn is_gate_open(&self) -> bool
        ensures { result ≡ (Self.state self.now).gate };

    /// Whether a word of the medium was replaced since it was put in, or since that was last forgotten. The sign stays
    /// when the medium is taken out.
    fn is_written(&self) -> bool
        ensures { result ≡ (Self.state self.now).replaced };

    /// Forgets that a word of the medium was replaced.
    fn forget_written(&mut self)
        ensures { Self.state self.new ≡ forgotten (Self.state self.old) };

    /// Moves the tab of the medium that is in, so that it is write-protected, or not. Nothing else changes. An open
    /// write gate stays open, but no write changes a medium that is protected.
    fn set_protected(&mut self, on: bool)
        ensures { Self.state self.new ≡ with_protection on (Self.state self.old) };

    /// Puts a medium in place of the one that is in, which is given back. The new one turns on from the same place, as
    /// if it had been in all the time. Where none is in, or the tracks of the two differ in length, the new one is
    /// given back.
    fn exchange(&mut self, medium: Medium) -> Result<Medium, Medium>
        ensures refused { IsErr result ↔ (same_length medium (Self.state self.old).medium ≡ false) }
        ensures ok { OnOk result (Self.state self.new ≡ exchanged medium (Self.state self.old)) }
        ensures before { IfOk result (λ before. Some before ≡ (Self.state self.old).medium) }
        ensures err { IfErr result (λ back. (back ≡ medium) × (Self.state self.new ≡ Self.state self.old)) };
}
