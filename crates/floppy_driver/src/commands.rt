// The machine that a driver works on.
ghost use Rattle.std.specs.Prelude.{◌≡◌, ◌≤◌, ◌<◌, ◌+◌, ◌-◌, ◌/◌, true, false, slice_index, Option, IsSome};
ghost use Rattle.floppy_driver.specs.Common.{option_map_or, in_bay, faults_of, user_bytes, bytes_from, IsSizeCode, content_size, Change, Laying};
ghost use Rattle.floppy_driver.specs.Rigs.{CostsFor, Rig, IsSound, IsReset, OnlyAsks};
ghost use Rattle.floppy_driver.specs.Heads.{Recalibrates, Seeks};
ghost use Rattle.floppy_driver.specs.Reading.{ReadsData, ReadsBack, ReadsId};
ghost use Rattle.floppy_driver.specs.Writing.{WritesData, FormatsTrack};

use flop_base::{Chrn, Code, Rate};

/// A machine with two diskette bays, command by command: a controller, a DMA channel, an interrupt line and two drives,
/// or what behaves as they do.
///
/// Each call ends with the controller idle. `bay` is 0 or 1. A data command needs a medium in the bay that turns at
/// speed. The time that a call lasts is counted in device steps, without those of the gaps that its port accesses use
/// up. The port accesses are counted too. A call makes at most as many as its clause `costs` says, and one more for each
/// interrupt that it takes.
pub trait Commands: Drop {
    /// The state that the contracts of the commands speak of.
    ghost rig: { Self → Rig };

    /// The controller is idle and as a driver has set it up.
    ghost is_idle: { Self → Type 0 };

    /// Resets the controller and sets the machine up for the other calls.
    fn reset(&mut self)
        ensures resets { IsReset (rig self.old) (rig self.new) }
        ensures costs { CostsFor 0 0 2 22 (rig self.old) (rig self.new) }
        ensures idle { is_idle self.new };

    /// The change line of a drive (PC/AT). An exchange of the medium sets it, and it stays set until a pulse comes
    /// while a medium is in.
    fn is_changed(&mut self, bay: u8) -> bool
        requires idle { is_idle self.old }
        requires bay { bay ≤ 1 }
        ensures line { result ≡ in_bay (rig self.old).changes bay }
        ensures asks { OnlyAsks (rig self.old) (rig self.new) }
        ensures costs { CostsFor bay 0 0 2 (rig self.old) (rig self.new) }
        ensures sound { IsSound (rig self.new) }
        ensures idle { is_idle self.new };

    /// Whether a protected medium is in.
    fn is_protected(&mut self, bay: u8) -> bool
        requires idle { is_idle self.old }
        requires bay { bay ≤ 1 }
        ensures line { result ≡ option_map_or (λ disk. disk.protected) (in_bay (rig self.old).media bay) false }
        ensures asks { OnlyAsks (rig self.old) (rig self.new) }
        ensures costs { CostsFor bay 0 0 4 (rig self.old) (rig self.new) }
        ensures sound { IsSound (rig self.new) }
        ensures idle { is_idle self.new };

    /// Turns the motor of a drive on and waits until a medium in it is at speed.
    fn start_motor(&mut self, bay: u8)
        requires idle { is_idle self.old }
        requires bay { bay ≤ 1 }
        ensures asks { OnlyAsks (rig self.old) (rig self.new) }
        ensures costs { CostsFor bay 0 6250 1 (rig self.old) (rig self.new) }
        ensures spun { IsSome (in_bay (rig self.old).media bay) → in_bay (rig self.new).spun bay ≡ true }
        ensures sound { IsSound (rig self.new) }
        ensures idle { is_idle self.new };

    /// Steps outward to track 0. The answer is false if track 0 wasn't reached in 79 pulses.
    fn recalibrate(&mut self, bay: u8) -> bool
        requires idle { is_idle self.old }
        requires bay { bay ≤ 1 }
        ensures step { Recalibrates bay (rig self.old) result (rig self.new) }
        ensures costs { CostsFor bay 0 81 6 (rig self.old) (rig self.new) }
        ensures sound { IsSound (rig self.new) }
        ensures idle { is_idle self.new };

    /// Steps to a cylinder, counted from 0. It takes one pulse for each cylinder between the controller's number and
    /// the target. A lost pulse isn't reported, but it is counted as a fault.
    fn seek(&mut self, bay: u8, target: u8)
        requires idle { is_idle self.old }
        requires bay { bay ≤ 1 }
        requires target { target ≤ 79 }
        ensures step { Seeks bay target (rig self.old) (rig self.new) }
        ensures costs { CostsFor bay 0 81 7 (rig self.old) (rig self.new) }
        ensures sound { IsSound (rig self.new) }
        ensures idle { is_idle self.new };

    /// The key of some address field on the track under the head.
    fn read_id(&mut self, bay: u8, head: u8, rate: Rate) -> Result<Chrn, Code>
        requires idle { is_idle self.old }
        requires bay { bay ≤ 1 }
        requires head { head ≤ 1 }
        requires spun { in_bay (rig self.old).spun bay ≡ true }
        ensures step { ReadsId bay head rate (rig self.old) result (rig self.new) }
        ensures costs { CostsFor bay 2 261 12 (rig self.old) (rig self.new) }
        ensures sound { IsSound (rig self.new) }
        ensures idle { is_idle self.new };

    /// Reads the record of a key from the track under its head to user memory. The answer is true if the record is
    /// marked deleted. Refusals: `NoMark`, `NotFound`, `BadCrc` and `Overrun`.
    fn read(&mut self, bay: u8, key: Chrn, rate: Rate, address: u32) -> Result<bool, Code>
        requires idle { is_idle self.old }
        requires bay { bay ≤ 1 }
        requires head { key.h ≤ 1 }
        requires coded { IsSizeCode key.n }
        requires range { address + content_size key.n ≤ user_bytes }
        requires page { address / 65536 ≡ (address + content_size key.n - 1) / 65536 }
        requires spun { in_bay (rig self.old).spun bay ≡ true }
        ensures step { ReadsData bay key rate address (rig self.old) result (rig self.new) }
        ensures costs { CostsFor bay 2 261 29 (rig self.old) (rig self.new) }
        ensures sound { IsSound (rig self.new) }
        ensures idle { is_idle self.new };

    /// Reads the record of a key to the beginning of the driver's page, as `read` does.
    fn read_back(&mut self, bay: u8, key: Chrn, rate: Rate) -> Result<bool, Code>
        requires idle { is_idle self.old }
        requires bay { bay ≤ 1 }
        requires head { key.h ≤ 1 }
        requires coded { IsSizeCode key.n }
        requires spun { in_bay (rig self.old).spun bay ≡ true }
        ensures step { ReadsBack bay key rate (rig self.old) result (rig self.new) }
        ensures costs { CostsFor bay 2 261 29 (rig self.old) (rig self.new) }
        ensures sound { IsSound (rig self.new) }
        ensures idle { is_idle self.new };

    /// Writes user memory to the record of a key on the track under its head. Refusals: `NoMark`, `NotFound` and
    /// `Overrun`.
    fn write(
        &mut self,
        bay: u8,
        key: Chrn,
        rate: Rate,
        address: u32,
        deleted: bool,
    ) -> Result<(), Code>
        requires idle { is_idle self.old }
        requires bay { bay ≤ 1 }
        requires head { key.h ≤ 1 }
        requires coded { IsSizeCode key.n }
        requires range { address + content_size key.n ≤ user_bytes }
        requires page { address / 65536 ≡ (address + content_size key.n - 1) / 65536 }
        requires spun { in_bay (rig self.old).spun bay ≡ true }
        requires unprotected { option_map_or (λ disk. disk.protected) (in_bay (rig self.old).media bay) false ≡ false }
        ensures step { (change : Option Change) × WritesData bay rate (record { key = key; deleted = deleted; content = bytes_from (rig self.old).memory address (content_size key.n) })
            change
            (rig self.old) result (rig self.new) }
        ensures costs { CostsFor bay 2 261 29 (rig self.old) (rig self.new) }
        ensures sound { IsSound (rig self.new) }
        ensures idle { is_idle self.new };

    /// Formats the track under a head with the records of the rate, for this cylinder and head. Part of the driver's
    /// page is overwritten. Refusals: `NoMark`, also if the layout doesn't fit, and `Overrun`.
    fn format(&mut self, bay: u8, c: u8, h: u8, rate: Rate, gap3: u8, fill: u8) -> Result<(), Code>
        requires idle { is_idle self.old }
        requires bay { bay ≤ 1 }
        requires head { h ≤ 1 }
        requires gap { 16 ≤ gap3 }
        requires spun { in_bay (rig self.old).spun bay ≡ true }
        requires unprotected { option_map_or (λ disk. disk.protected) (in_bay (rig self.old).media bay) false ≡ false }
        ensures step { (laying : Option Laying) × FormatsTrack bay (record { c = c; h = h; rate = rate; gap3 = gap3; fill = fill })
            laying (rig self.old) result (rig self.new) }
        ensures costs { CostsFor bay 2 261 26 (rig self.old) (rig self.new) }
        ensures sound { IsSound (rig self.new) }
        ensures idle { is_idle self.new };

    /// A byte of user memory.
    fn memory(&self, address: u32) -> u8
        requires address { address < user_bytes }
        ensures byte { result ≡ slice_index (rig self.now).memory address };

    /// A byte of the driver's page, from F0000 on.
    fn page(&self, i: u16) -> u8
        ensures byte { result ≡ slice_index (rig self.now).page i };

    /// The count of faults of a drive, which stays at its last value.
    fn faults(&self, bay: u8) -> u64
        requires bay { bay ≤ 1 }
        ensures { result ≡ faults_of (rig self.now).counters bay };
}
