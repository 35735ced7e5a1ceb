// Disks that a rescue may go on with: those that a format, a copy or an import stored.
ghost use Rattle.std.specs.Prelude.{ℕ, All, List, Option, Some};
ghost use Rattle.laws_commands.specs.Common.{Files, Counters, Rate, Chrn, Disk, Taken, IsImageOf};
ghost use Rattle.laws_commands.specs.Formatted.{StoresFormatted};
ghost use Rattle.laws_commands.specs.Copied.{StoresCopy};
ghost use Rattle.laws_commands.specs.Imported.{StoresDisk};
ghost use Rattle.laws_commands.specs.EndsComplete.{StoresSameSectors, TakesKeys};
ghost use Rattle.laws_commands.specs.Verified.{IsStandardKey};
ghost use Rattle.laws_commands.specs.Targets.{HoldsTarget};

use flop_base::Rate;

/// A law: what a format stored is a disk that a rescue may go on with, and its image is under the name. It is a regular
/// disk with its fields in range, and isn't protected. It has each of its standard keys, and each of its address fields
/// is on a Laid track.
pub fn formatted_disk_is_a_target(_rate: Rate, _name: &str, _cylinders: u8)
    ensures { (told after : Option Files) (stores : StoresFormatted _rate _name.now _cylinders told after)
        → HoldsTarget _name.now stores.disk stores.disk after }
{}

/// A law: what a copy stored is also such a disk. It has each of the standard keys of the disk that was copied.
pub fn copied_disk_is_a_target(_from: &str, _to: &str)
    ensures given { (disk : Disk) (old new : Counters) (told after : Option Files) (course : List Taken)
        (stores : StoresCopy disk _to.now old told course new after) → HoldsTarget _to.now disk stores.copied after }
    ensures same { (disk : Disk) (files : Files) (after : Option Files) (stores : StoresSameSectors disk _to.now (Some files) after)
        → IsImageOf (Some files) _from.now disk → HoldsTarget _to.now disk stores.copied after }
{}

/// A law: what an import stored is also such a disk.
pub fn imported_disk_is_a_target(_name: &str)
    ensures { (bytes : List ℕ) (at : Rate) (told after : Option Files) (stores : StoresDisk bytes _name.now at told after)
        → HoldsTarget _name.now stores.disk stores.disk after }
{}

/// A law: sectors of these keys can be written to such a disk. A rescue by a log of some of these keys therefore goes
/// to its end when nothing can go wrong.
#[tactic(auto, using(crate::proofs::RescueTargets::target_takes))]
pub fn target_takes_keys(_name: &str)
    ensures { (keyed disk : Disk) (after : Option Files) (keys : List Chrn) → HoldsTarget _name.now keyed disk after
        → All (IsStandardKey keyed) keys → TakesKeys keyed.rate keys disk }
{}
