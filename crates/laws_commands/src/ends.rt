// The commands on flat files, when nothing can go wrong.
ghost use Rattle.std.specs.Prelude.{◌≡◌, ℕ, List, Some};
ghost use Rattle.laws_commands.specs.Common.{Files, Rate, Status, Disk, IsImageOf, World, RunsScript, Runs, IsFlatFile, Imports, export_script};
ghost use Rattle.laws_commands.specs.EndsComplete.{BeginsSound, EndsWellOrOutside};
ghost use Rattle.laws_commands.specs.Imported.{StoresDisk};
ghost use Rattle.laws_commands.specs.Exported.{StoresFlatOf};
ghost use Rattle.laws_commands.specs.FlatComplete.{IsWholeDisk};

/// A law on an import in a fresh station, where no drive can have a fault any more and no DMA request can wait too
/// long. The first name has a flat file. Then the import ends well, unless the shelf, the sink or memory fails. A
/// disk with the sectors of the flat file is then stored under the second name, and no other file changed.
#[tactic(auto, using(crate::proofs::FlatEnds::import_complete))]
pub fn import_ends_well(_flat: &str, _name: &str)
    ensures { (old new : World) (ended : Status) (files : Files) (bytes : List ℕ) (at : Rate)
        → BeginsSound old → old.files ≡ Some files → IsFlatFile (Some files) _flat.now bytes at
        → Runs (Imports _flat.now _name.now) old new ended
        → EndsWellOrOutside (StoresDisk bytes _name.now at (Some files) new.files) ended }
{}

/// A law on an export in a fresh station, where no drive can have a fault any more and no DMA request can wait too
/// long. The first name has the image of a regular disk of 80 cylinders and two heads that has each of its standard
/// keys. Then the export ends well, unless the shelf, the sink or memory fails. A flat file with the contents of the
/// disk's sectors is then stored under the second name, and no other file changed.
#[tactic(auto, using(crate::proofs::FlatEnds::export_complete))]
pub fn export_ends_well(_name: &str, _flat: &str)
    ensures { (old new : World) (ended : Status) (files : Files) (disk : Disk)
        → BeginsSound old → old.files ≡ Some files → IsImageOf (Some files) _name.now disk → IsWholeDisk disk
        → Runs (RunsScript (export_script _name.now _flat.now)) old new ended
        → EndsWellOrOutside (StoresFlatOf disk _flat.now (Some files) new.files) ended }
{}
