// SENSE INTERRUPT, for a layer in front of the adapter that keeps the results of seeks itself.
ghost use Rattle.std.specs.Prelude.{◌≡◌};
ghost use Rattle.fdc_sequencer.specs.AdapterSenses.{pending_result, after_result};

use crate::adapter::DisketteAdapter;
use drive_model::Inspect;
use fdc_commands::{Accepted, Command};

/// The data port.
const DATA: u16 = 0x3F5;

impl<D: Inspect> DisketteAdapter<D> {
    ghost use Rattle.fdc_sequencer.specs.Adapters.{controller_of, SameDrives};

    /// Takes the pending result of the lowest drive that has one, if the controller takes commands. The result is ST0
    /// and the present cylinder number.
    pub fn sense(&mut self) -> Option<(u8, u8)>
        ensures result { result ≡ pending_result (controller_of self.old) }
        ensures after { controller_of self.new ≡ after_result (controller_of self.old) }
        ensures drives { SameDrives self.old self.new }
    {
        if !self.is_idle() {
            return None;
        }
        self.take_accepted(Accepted::Ready(Command::SenseInterrupt));
        let status = self.read(DATA);
        if self.is_idle() {
            return None;
        }
        let cylinder = self.read(DATA);
        Some((status, cylinder))
    }
}
