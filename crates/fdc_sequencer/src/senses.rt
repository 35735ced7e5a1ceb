// What a layer in front of the sequencer uses that keeps the results of seeks itself.
ghost use Rattle.std.specs.Prelude.{◌≡◌};
ghost use Rattle.fdc_sequencer.specs.Adapters.{controller_of, SameDrives};
ghost use Rattle.fdc_sequencer.specs.Common.{is_gated};
ghost use Rattle.fdc_sequencer.specs.Fronts.{front_state, adapter_of};
ghost use Rattle.fdc_sequencer.specs.Senses.{pending_outside, recalibrated_outside, sensed_outside};

use crate::sequencer::Sequencer;
use crate::stage::FrontStage;
use drive_model::Inspect;

impl<D: Inspect> Sequencer<D> {
    /// Whether DOR lets INT and DRQ out.
    pub fn is_gated(&self) -> bool
        ensures { result ≡ is_gated (controller_of (adapter_of self.now)) }
    {
        self.adapter.is_gated()
    }

    /// Takes the pending result of the lowest drive that has one, if the first byte of a command may come. The result
    /// is ST0 and the present cylinder number.
    pub fn sense(&mut self) -> Option<(u8, u8)>
        ensures result { result ≡ pending_outside (front_state D.state self.old) }
        ensures after { front_state D.state self.new ≡ sensed_outside (front_state D.state self.old) }
        ensures drives { SameDrives (adapter_of self.old) (adapter_of self.new) }
    {
        match self.stage {
            FrontStage::Through => self.adapter.sense(),
            _ => None,
        }
    }

    /// Begins a RECALIBRATE of a drive that gives at most this many pulses, if the first byte of a command may come and
    /// no heads move.
    pub fn recalibrate_within(&mut self, drive: u8, pulses: u8)
        ensures after { front_state D.state self.new ≡ recalibrated_outside drive pulses (front_state D.state self.old) }
        ensures drives { SameDrives (adapter_of self.old) (adapter_of self.new) }
    {
        if let FrontStage::Through = self.stage {
            self.adapter.recalibrate_within(drive, pulses);
        }
    }
}
