// The subcommands (forms) on whole disks, on a machine where nothing can go wrong.
ghost use Rattle.std.specs.Prelude.{◌≡◌, ◌≢◌, ◌≤◌, ℕ, All, List, [], Some, None};
ghost use Rattle.laws_program.specs.Common.{Files, file_at, sectors_at, Rate, R250, R500, Status, Disk, DriveCounts, IsRegularDisk, IsImageOf, logged_keys, LogLine, IsLogFound, IsFlatFile, Stand, RanOver, StoresFormatted, StoresDisk, StoresFlatOf, HasKey, IsReadable, StoresSameSectors, StoresSameAndLog, StoresRestAndLog, TakesKeys};
ghost use Rattle.floppy_words.specs.declared.form.Form.TheVariants as form;
ghost use Rattle.laws_commands.specs.FlatComplete.{IsWholeDisk};
ghost use Rattle.laws_program.specs.Disturbed.{IsSound};
ghost use Rattle.laws_program.specs.Ends.{EndsWell};
ghost use Rattle.laws_program.specs.Told.{ListsFailing};

use flop_base::Status;

/// A law: on a machine and spare drives where nothing is left that could go wrong, `format NAME CYLS` of 1 to 80
/// cylinders ends with status 0, and stores a formatted disk. This is so unless memory ran out, or the file store or
/// the output failed, and counted the fault.
pub fn format_ends_well(_name: &str, _cylinders: u8)
    ensures { (spares : List DriveCounts) (old new : Stand) (ended : Status) → 1 ≤ _cylinders → _cylinders ≤ 80
        → RanOver (Some (form.Format _name.now _cylinders)) spares old new ended → IsSound old.board spares
        → EndsWell (StoresFormatted R500 _name.now _cylinders old.outside.outside.files new.outside.outside.files) old new ended }
{}

/// A law: under the same premises, `formatdd NAME CYLS` ends in the same way.
pub fn formatdd_ends_well(_name: &str, _cylinders: u8)
    ensures { (spares : List DriveCounts) (old new : Stand) (ended : Status) → 1 ≤ _cylinders → _cylinders ≤ 80
        → RanOver (Some (form.FormatDd _name.now _cylinders)) spares old new ended → IsSound old.board spares
        → EndsWell (StoresFormatted R250 _name.now _cylinders old.outside.outside.files new.outside.outside.files) old new ended }
{}

/// A law: `copy FROM TO` ends in the same way, where FROM is the image of a regular disk that has each of its standard
/// sector IDs. It stores the standard sectors of that disk.
pub fn copy_ends_well(_from: &str, _to: &str)
    ensures { (spares : List DriveCounts) (old new : Stand) (ended : Status) (files : Files) (disk : Disk)
        → RanOver (Some (form.Copy _from.now _to.now)) spares old new ended → IsSound old.board spares
        → old.outside.outside.files ≡ Some files → IsImageOf (Some files) _from.now disk → IsReadable disk
        → EndsWell (StoresSameSectors disk _to.now (Some files) new.outside.outside.files) old new ended }
{}

/// A law: `verify NAME` ends in the same way, where NAME is the image of such a disk. It lists no sector ID.
pub fn verify_ends_well(_name: &str)
    ensures { (spares : List DriveCounts) (old new : Stand) (ended : Status) (files : Files) (disk : Disk)
        → RanOver (Some (form.Verify _name.now)) spares old new ended → IsSound old.board spares
        → old.outside.outside.files ≡ Some files → IsImageOf (Some files) _name.now disk → IsReadable disk
        → EndsWell (ListsFailing disk [] old.outside.outside new.outside.outside Status.AllOk) old new ended }
{}

/// A law: `import FLAT NAME` ends in the same way, where FLAT is a flat file. It stores a disk of the flat file's
/// sectors.
pub fn import_ends_well(_flat: &str, _name: &str)
    ensures { (spares : List DriveCounts) (old new : Stand) (ended : Status) (files : Files) (bytes : List ℕ) (at : Rate)
        → RanOver (Some (form.Import _flat.now _name.now)) spares old new ended → IsSound old.board spares
        → old.outside.outside.files ≡ Some files → IsFlatFile (Some files) _flat.now bytes at
        → EndsWell (StoresDisk bytes _name.now at (Some files) new.outside.outside.files) old new ended }
{}

/// A law: `export NAME FLAT` ends in the same way, where NAME is the image of a regular disk of 80 cylinders and two
/// heads that has each of its standard sector IDs. It stores a flat file of the disk's sectors.
pub fn export_ends_well(_name: &str, _flat: &str)
    ensures { (spares : List DriveCounts) (old new : Stand) (ended : Status) (files : Files) (disk : Disk)
        → RanOver (Some (form.Export _name.now _flat.now)) spares old new ended → IsSound old.board spares
        → old.outside.outside.files ≡ Some files → IsImageOf (Some files) _name.now disk → IsWholeDisk disk
        → EndsWell (StoresFlatOf disk _flat.now (Some files) new.outside.outside.files) old new ended }
{}

/// A law: `rescue FROM TO LOG` ends in the same way, where FROM is the image of a regular disk that has each of its
/// standard sector IDs, no file LOG is there, and TO and LOG differ. It stores a disk with the same standard sectors
/// under TO, and then an empty log under LOG.
pub fn new_rescue_ends_well(_from: &str, _to: &str, _log: &str)
    ensures { (spares : List DriveCounts) (old new : Stand) (ended : Status) (files : Files) (disk : Disk)
        → RanOver (Some (form.Rescue _from.now _to.now _log.now)) spares old new ended → IsSound old.board spares
        → old.outside.outside.files ≡ Some files → IsImageOf (Some files) _from.now disk → IsReadable disk
        → file_at files _log.now ≡ None → _to.now ≢ _log.now
        → EndsWell (StoresSameAndLog disk _to.now _log.now (Some files) new.outside.outside.files) old new ended }
{}

/// A law: a rescue that goes on by a log LOG ends in the same way. Here FROM is the image of a regular disk that has
/// the sectors of LOG, TO is the image of a disk that takes them at FROM's rate, and TO and LOG differ. The rescue
/// stores the disk TO again: these sectors are as FROM has them, and all others as they were. Then it stores an empty
/// log under LOG.
pub fn further_rescue_ends_well(_from: &str, _to: &str, _log: &str)
    ensures { (spares : List DriveCounts) (old new : Stand) (ended : Status) (files : Files) (disk target : Disk) (lines : List LogLine)
        → RanOver (Some (form.Rescue _from.now _to.now _log.now)) spares old new ended → IsSound old.board spares
        → old.outside.outside.files ≡ Some files → IsImageOf (Some files) _from.now disk → IsImageOf (Some files) _to.now target
        → IsLogFound (Some files) _log.now (sectors_at disk.rate) (Some lines) → _to.now ≢ _log.now
        → IsRegularDisk disk → All (HasKey disk) (logged_keys lines) → TakesKeys disk.rate (logged_keys lines) target
        → EndsWell (StoresRestAndLog disk target (logged_keys lines) _to.now _log.now (Some files) new.outside.outside.files) old new ended }
{}
