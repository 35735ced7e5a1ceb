// A sector whose address field has just passed, for a layer in front that reads the sectors of a track as they come.
ghost use Rattle.std.specs.Prelude.{◌≡◌, ◌≤◌};
ghost use Rattle.fdc_sequencer.specs.Fronts.{front_state, sector_alone, ReadsSector};

use crate::opcode::{Opcode, Operation};
use crate::sequencer::Sequencer;
use crate::stage::{FrontStage, Moving};
use crate::transfer::Transfer;
use drive_model::Inspect;
use flop_base::Chrn;

/// A READ DATA of this sector alone. Its gap and its DTL are used nowhere.
fn sector_alone(head_drive: u8, key: Chrn) -> Transfer
    ensures { result ≡ sector_alone head_drive key }
{
    Transfer {
        opcode: Opcode {
            operation: Operation::Read {
                deleted: false,
                skip: false,
            },
            multitrack: false,
        },
        head_drive,
        key,
        last_sector: key.r,
        gap: 0,
        length: 0,
        seeks: false,
    }
}

impl<D: Inspect> Sequencer<D> {
    /// Begins a READ DATA of this sector alone where its address field has just passed. Its data field is read in the
    /// same turn.
    pub fn read_field(&mut self, head_drive: u8, key: Chrn)
        requires least { 1 ≤ key.n }
        requires most { key.n ≤ 6 }
        ensures { ReadsSector (sector_alone head_drive key) (front_state D.state self.old) (front_state D.state self.new) }
    {
        let transfer = sector_alone(head_drive, key);
        self.adapter.read_field(head_drive, key, key.r);
        self.stage = FrontStage::Moving {
            moving: Moving::of(transfer, false, false),
        };
    }
}
