// Disks that were formatted.
ghost use Rattle.std.specs.Prelude.{◌≡◌, ◌≤◌, ℕ, List, Option};
ghost use Rattle.laws_commands.specs.Common.{Files, sectors_at, Disk, HasTrack, IsFaultless, Entry, IsOnMap, IsRegularDisk, State, Taken};
ghost use Rattle.laws_commands.specs.Done.{DoesAll};
ghost use Rattle.laws_commands.specs.Requests.{formatting, format_requests};
ghost use Rattle.laws_commands.specs.Formatted.{IsFormattedDisk, LeavesFormatted, StoresFormatted, formatted_entry, IsFormattedEntry};

use flop_base::Rate;

/// A law on a run in which each request of the command that formats was done, while the drive of bay 0 had no fault.
/// The disk in bay 0 is then a formatted one, whatever else the run met: DMA requests that waited, spurious interrupts,
/// or anything in the other bay. This disk is what the command's last request stores.
#[tactic(auto, using(crate::proofs::Prepared::formats_disk, crate::proofs::Prepared::stores_disk))]
pub fn formats_disk(_rate: Rate, _name: &str, _cylinders: u8)
    ensures leaves { (old new : State) (told after : Option Files) (course : List Taken)
        → DoesAll (formatting _rate _name.now _cylinders) old told course new after
        → IsFaultless 0 old.station.counters new.station.counters
        → LeavesFormatted _rate _name.now _cylinders told new after }
    ensures stores { (old new : State) (told after : Option Files) (course : List Taken)
        → DoesAll (format_requests _rate _name.now _cylinders) old told course new after
        → IsFaultless 0 old.station.counters new.station.counters
        → StoresFormatted _rate _name.now _cylinders told after }
{}

/// A law: a formatted disk is regular. It has each sector of the standard format, not deleted and filled with F6, and
/// no other sector.
pub fn formatted_disk_has_sectors(_rate: Rate, _cylinders: u8)
    ensures regular { (disk : Disk) → IsFormattedDisk _rate _cylinders disk → IsRegularDisk disk }
    ensures sectors { (disk : Disk) (c h r : ℕ) → IsFormattedDisk _rate _cylinders disk
        → HasTrack disk c h → 1 ≤ r → r ≤ sectors_at disk.rate
        → (place : ℕ) × IsOnMap disk (formatted_entry c h r place) }
    ensures only { (disk : Disk) (entry : Entry) → IsFormattedDisk _rate _cylinders disk
        → IsOnMap disk entry → IsFormattedEntry disk entry }
{}
