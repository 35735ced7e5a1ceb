// Ports. The data port is the port of a layer in front.
ghost use Rattle.std.specs.Prelude.{◌≡◌};
ghost use Rattle.fdc_sequencer.specs.Adapters.{controller_of, SameDrives};
ghost use Rattle.fdc_sequencer.specs.Fronts.{front_state, adapter_of, status_at, value_outside, WritesFront};

use crate::sequencer::Sequencer;
use crate::stage::FrontStage;
use crate::transfer::drive_bit;
use drive_model::Inspect;
use fdc_core::Fdc;
use fdc_registers::{Flags, Msr};

/// MSR when the port is read, DSR when it is written.
const STATUS: u16 = 0x3F4;

const DATA: u16 = 0x3F5;

/// What a port gives when it has nothing to give.
const NOTHING: u8 = 0xFF;

impl<D: Inspect> Sequencer<D> {
    /// Reads a port, 3F0 to 3F7. While a command of several sectors is executed, MSR is 10. In an implied seek it has
    /// the seek bit of the drive too (data sheet: DRV BUSY). While its results wait, MSR is D0.
    pub fn read(&mut self, port: u16) -> u8
        ensures value { result ≡ value_outside port (front_state D.state self.old) }
        ensures after { front_state D.state self.new ≡ front_state D.state self.old }
        ensures drives { SameDrives (adapter_of self.old) (adapter_of self.new) }
    {
        match port {
            STATUS => self.status(),
            DATA => NOTHING,
            _ => self.adapter.read(port),
        }
    }

    /// The main status register.
    fn status(&mut self) -> u8
        ensures value { result ≡ status_at self.old.stage (controller_of (adapter_of self.old)) }
        ensures after { front_state D.state self.new ≡ front_state D.state self.old }
        ensures drives { SameDrives (adapter_of self.old) (adapter_of self.new) }
    {
        match self.stage {
            FrontStage::Through => self.adapter.read(STATUS),
            FrontStage::Seeking { transfer, .. } => Msr::BUSY
                .union(drive_bit(transfer.head_drive))
                .bits(),
            FrontStage::Moving { .. } => Msr::BUSY.bits(),
            FrontStage::Telling { .. } => Msr::RQM.union(Msr::DIO).union(Msr::BUSY).bits(),
        }
    }

    /// Writes a port, 3F0 to 3F7. A reset ends a command of several sectors like any other.
    pub fn write(&mut self, port: u16, value: u8)
        ensures { WritesFront port value (front_state D.state self.old) (front_state D.state self.new) }
    {
        if port == DATA {
            return;
        }
        if Fdc::is_reset_by(port, value) {
            self.stage = FrontStage::Through;
        }
        self.adapter.write(port, value);
    }
}
