// The side of the DMA channel.
ghost use Rattle.std.specs.Prelude.{◌≡◌, ◌≤◌};
ghost use Rattle.fdc_sequencer.specs.Adapters.{controller_of, SameDrives};
ghost use Rattle.fdc_sequencer.specs.Fronts.{front_state, adapter_of, TakesFront, TakesMoving, GivesFront, GivesMoving, passed_one, told_front};

use crate::sequencer::Sequencer;
use crate::stage::{FrontStage, Moving};
use drive_model::Inspect;

impl<D: Inspect> Sequencer<D> {
    /// The channel takes a byte, if one is asked for.
    pub fn dack_read(&mut self) -> Option<u8>
        ensures takes { TakesFront (front_state D.state self.old) result (front_state D.state self.new) }
        ensures drives { SameDrives (adapter_of self.old) (adapter_of self.new) }
    {
        match self.stage {
            FrontStage::Through => self.adapter.dack_read(),
            FrontStage::Moving { moving } => self.take_for(moving),
            _ => None,
        }
    }

    /// The channel takes a byte of a sector.
    fn take_for(&mut self, moving: Moving) -> Option<u8>
        ensures takes { TakesMoving moving (front_state D.state self.old) result (front_state D.state self.new) }
        ensures drives { SameDrives (adapter_of self.old) (adapter_of self.new) }
    {
        if moving.left == 0 {
            return None;
        }
        let byte = self.adapter.dack_read()?;
        self.pass_one(moving);
        Some(byte)
    }

    /// The channel gives a byte, if one is asked for. The result says whether it did.
    pub fn dack_write(&mut self, byte: u8) -> bool
        ensures gives { GivesFront byte (front_state D.state self.old) result (front_state D.state self.new) }
        ensures drives { SameDrives (adapter_of self.old) (adapter_of self.new) }
    {
        match self.stage {
            FrontStage::Through => self.adapter.dack_write(byte),
            FrontStage::Moving { moving } => self.give_for(moving, byte),
            _ => false,
        }
    }

    /// The channel gives a byte of a sector.
    fn give_for(&mut self, moving: Moving, byte: u8) -> bool
        ensures gives { GivesMoving moving byte (front_state D.state self.old) result (front_state D.state self.new) }
        ensures drives { SameDrives (adapter_of self.old) (adapter_of self.new) }
    {
        if moving.left == 0 || !self.adapter.dack_write(byte) {
            return false;
        }
        self.pass_one(moving);
        true
    }

    /// A byte of the sector passed. After the last byte the controller is given the terminal count.
    fn pass_one(&mut self, moving: Moving)
        requires { 1 ≤ moving.left }
        ensures passed { front_state D.state self.new ≡ passed_one moving (controller_of (adapter_of self.old)) (front_state D.state self.old) }
        ensures drives { SameDrives (adapter_of self.old) (adapter_of self.new) }
    {
        let left = moving.left - 1;
        if left == 0 {
            self.adapter.tc();
        }
        self.stage = FrontStage::Moving {
            moving: Moving { left, ..moving },
        };
    }

    /// The channel signals the terminal count. The command ends after its sector, of which no further byte is moved.
    pub fn tc(&mut self)
        ensures told { front_state D.state self.new ≡ told_front (front_state D.state self.old) }
        ensures drives { SameDrives (adapter_of self.old) (adapter_of self.new) }
    {
        match self.stage {
            FrontStage::Through => self.adapter.tc(),
            FrontStage::Seeking { transfer, .. } => {
                self.stage = FrontStage::Seeking {
                    transfer,
                    counted: true,
                };
            }
            FrontStage::Moving { moving } => {
                self.adapter.tc();
                self.stage = FrontStage::Moving {
                    moving: Moving {
                        counted: true,
                        ..moving
                    },
                };
            }
            _ => {}
        }
    }
}
