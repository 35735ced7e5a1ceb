// The side of the DMA channel.
ghost use Rattle.std.specs.Prelude.{◌≡◌, true};
ghost use Rattle.fdc_chip.specs.Common.{SameDrives, adapter_of, GivesFront};
ghost use Rattle.fdc_chip.specs.Chips.{chip_state, behind_of, is_data, KeepsRest};
ghost use Rattle.fdc_chip.specs.Ports.{TakesChip, GivesChip, given_one, counted_if, told_chip};

use crate::chip::Chip;
use crate::stage::{ChipStage, ChipTask, Place, Track};
use drive_model::Inspect;

impl<D: Inspect> Chip<D> {
    /// The channel takes a byte, if one is asked for.
    pub fn dack_read(&mut self) -> Option<u8>
        ensures takes { TakesChip (chip_state D.state self.old) result (chip_state D.state self.new) }
        ensures drives { SameDrives (adapter_of (behind_of self.old)) (adapter_of (behind_of self.new)) }
    {
        if self.passes_by_channel() {
            self.behind.dack_read()
        } else {
            None
        }
    }

    /// The channel gives a byte, if one is asked for. The result says whether it did.
    pub fn dack_write(&mut self, byte: u8) -> bool
        ensures gives { GivesChip byte (chip_state D.state self.old) result (chip_state D.state self.new) }
        ensures drives { SameDrives (adapter_of (behind_of self.old)) (adapter_of (behind_of self.new)) }
    {
        if self.passes_by_channel() {
            self.give(byte)
        } else {
            false
        }
    }

    /// Gives a byte of the command that the inner controller executes, if one is asked for, and says whether it did. A
    /// FORMAT TRACK then has one byte fewer left.
    pub(crate) fn give(&mut self, byte: u8) -> bool
        ensures gives { GivesFront byte (chip_state D.state self.old).front result (chip_state D.state self.new).front }
        ensures rest { KeepsRest (given_one result (chip_state D.state self.old)) (chip_state D.state self.new) }
        ensures drives { SameDrives (adapter_of (behind_of self.old)) (adapter_of (behind_of self.new)) }
    {
        let was = self.behind.dack_write(byte);
        if was {
            self.keys = self.keys.saturating_sub(1);
        }
        was
    }

    /// The channel signals the terminal count. The command ends after its sector.
    pub fn tc(&mut self)
        ensures told { chip_state D.state self.new ≡ told_chip (chip_state D.state self.old) }
        ensures drives { SameDrives (adapter_of (behind_of self.old)) (adapter_of (behind_of self.new)) }
    {
        match self.stage {
            ChipStage::Busy {
                task: ChipTask::Sent,
            } => self.behind.tc(),
            ChipStage::Busy {
                task: ChipTask::Track { track },
            } => self.count_track(track),
            _ => {}
        }
    }

    /// Does what `tc` does in a READ TRACK.
    fn count_track(&mut self, track: Track)
        ensures told { chip_state D.state self.new ≡ counted_if (is_data track.place) (record (chip_state D.state self.old) { stage = ChipStage.Busy (ChipTask.Track (record track { counted = true })) }) }
        ensures drives { SameDrives (adapter_of (behind_of self.old)) (adapter_of (behind_of self.new)) }
    {
        self.stage = ChipStage::Busy {
            task: ChipTask::Track {
                track: Track {
                    counted: true,
                    ..track
                },
            },
        };
        if matches!(track.place, Place::Data) {
            self.behind.tc();
        }
    }
}
