// The bays and what a front end shows, which are those of the inner controller.
ghost use Rattle.std.specs.Prelude.{◌≡◌, ◌≤◌, ◌+◌, ◌%◌, ◌↔◌, IsTrue, IsBitSet};
ghost use Rattle.fdc_chip.specs.Common.{option_copied, forgotten, rate_of, controller_of, drive_at, PutsIn, TakesOut, Sets, adapter_of};
ghost use Rattle.fdc_sequencer.specs.WordTimes.{nanoseconds};
ghost use Rattle.fdc_core.specs.State.{dor_of, data_rate};
ghost use Rattle.fdc_chip.specs.Chips.{chip_state, behind_of, KeepsChip, index_words, indexes, indexes_chip};

use crate::chip::Chip;
use drive_model::Inspect;
use flop_base::Rate;
use raw_image::Medium;

/// How many words of a track begin in its first 2 ms. One takes 16 µs at 500 kbit/s, and 32 µs at 250 kbit/s.
fn index_words(rate: Rate) -> u16
    ensures { result ≡ index_words rate }
{
    match rate {
        Rate::R500 => 125,
        Rate::R250 => 63,
    }
}

impl<D: Inspect> Chip<D> {
    /// Puts a medium into a bay. No word of it counts as replaced yet. If a medium is in already, the new one is given
    /// back.
    pub fn insert(&mut self, bay: u8, medium: Medium) -> Result<(), Medium>
        requires { bay ≤ 1 }
        ensures keeps { KeepsChip (chip_state D.state self.old) (chip_state D.state self.new) }
        ensures puts { PutsIn bay medium (chip_state D.state self.old).front.adapter (chip_state D.state self.new).front.adapter result }
    {
        self.behind.insert(bay, medium)
    }

    /// Takes the medium out of a bay. `is_written` still says whether a word of it was replaced.
    pub fn eject(&mut self, bay: u8) -> Option<Medium>
        requires { bay ≤ 1 }
        ensures keeps { KeepsChip (chip_state D.state self.old) (chip_state D.state self.new) }
        ensures takes { TakesOut bay (chip_state D.state self.old).front.adapter (chip_state D.state self.new).front.adapter result }
    {
        self.behind.eject(bay)
    }

    /// The medium in a bay, which stays there.
    pub fn medium(&self, bay: u8) -> Option<&Medium>
        requires { bay ≤ 1 }
        ensures { option_copied result ≡ (drive_at (chip_state D.state self.now).front.adapter bay).medium }
    {
        self.behind.adapter().medium(bay)
    }

    /// Whether a word of the medium in a bay was replaced since the medium was put in, or since `forget_written`. This
    /// is still known of a medium that was taken out.
    pub fn is_written(&self, bay: u8) -> bool
        requires { bay ≤ 1 }
        ensures { result ≡ (drive_at (chip_state D.state self.now).front.adapter bay).replaced }
    {
        self.behind.adapter().is_written(bay)
    }

    /// Forgets that a word of the medium in a bay was replaced, as a front end does once it has stored the medium.
    pub fn forget_written(&mut self, bay: u8)
        requires { bay ≤ 1 }
        ensures keeps { KeepsChip (chip_state D.state self.old) (chip_state D.state self.new) }
        ensures forgets { Sets bay forgotten (chip_state D.state self.old).front.adapter (chip_state D.state self.new).front.adapter }
    {
        self.behind.forget_written(bay);
    }

    /// Gives what `is_written` gives, and forgets it.
    pub fn take_written(&mut self, bay: u8) -> bool
        requires { bay ≤ 1 }
        ensures was { result ≡ (drive_at (chip_state D.state self.old).front.adapter bay).replaced }
        ensures keeps { KeepsChip (chip_state D.state self.old) (chip_state D.state self.new) }
        ensures forgets { Sets bay forgotten (chip_state D.state self.old).front.adapter (chip_state D.state self.new).front.adapter }
    {
        self.behind.take_written(bay)
    }

    /// The cylinder under the heads of the drive in a bay, 0 to 82.
    pub fn cylinder(&self, bay: u8) -> u8
        requires { bay ≤ 1 }
        ensures { result ≡ (drive_at (chip_state D.state self.now).front.adapter bay).cylinder }
    {
        self.behind.adapter().cylinder(bay)
    }

    /// Whether the write gate of the drive in a bay is open.
    pub fn is_gate_open(&self, bay: u8) -> bool
        requires { bay ≤ 1 }
        ensures { result ≡ (drive_at (chip_state D.state self.now).front.adapter bay).gate }
    {
        self.behind.adapter().is_gate_open(bay)
    }

    /// Whether DOR turns the motor of the drive in a bay on.
    pub fn is_motor_on(&self, bay: u8) -> bool
        requires { bay ≤ 1 }
        ensures { IsTrue result ↔ IsBitSet (dor_of (controller_of (adapter_of (behind_of self.now)))) (4 + bay) }
    {
        self.behind.adapter().is_motor_on(bay)
    }

    /// The drive that DOR selects. Drives 2 and 3 are absent.
    pub fn selected(&self) -> u8
        ensures { result ≡ dor_of (controller_of (adapter_of (behind_of self.now))) % 4 }
    {
        self.behind.adapter().selected()
    }

    /// The rate of the medium in a bay, or R500 if none is in.
    fn rate(&self, bay: u8) -> Rate
        requires { bay ≤ 1 }
        ensures { result ≡ rate_of (drive_at (chip_state D.state self.now).front.adapter bay).medium }
    {
        match self.medium(bay) {
            Some(medium) => medium.rate(),
            None => Rate::R500,
        }
    }

    /// Whether INDEX of the drive in a bay is up.
    fn indexes(&self, bay: u8) -> bool
        requires { bay ≤ 1 }
        ensures { result ≡ indexes (drive_at (chip_state D.state self.now).front.adapter bay) }
    {
        match self.behind.adapter().place(bay) {
            Some(place) => place < index_words(self.rate(bay)),
            None => false,
        }
    }

    /// The INDEX line of the drive that DOR selects. It is up in the first 2 ms after the index, while a medium turns
    /// at speed. That of an absent drive is low.
    pub fn index(&self) -> bool
        ensures { result ≡ indexes_chip (chip_state D.state self.now) }
    {
        let bay = self.selected();
        bay <= 1 && self.indexes(bay)
    }

    /// The nanoseconds of a word time at the rate that was chosen last.
    pub fn word_time(&self) -> u32
        ensures { result ≡ nanoseconds (data_rate (controller_of (adapter_of (behind_of self.now)))) }
    {
        self.behind.adapter().word_time()
    }
}
