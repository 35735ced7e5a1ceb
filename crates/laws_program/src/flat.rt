// The subcommands between a flat file and a disk.
ghost use Rattle.std.specs.Prelude.{◌≡◌, List, Some};
ghost use Rattle.laws_program.specs.Common.{Files, Disk, DriveCounts, IsImageOf, Board, Outside, RunsOver, StoresImported};
ghost use Rattle.floppy_words.specs.declared.form.Form.TheVariants as form;
ghost use Rattle.laws_program.specs.Disturbed.{HadNoFault};
ghost use Rattle.laws_program.specs.Stored.{IsReadSure, StoresFlatAsRead};

use flop_base::Status;

/// A law on an `import FLAT NAME` that ends with status 0, where the drive of bay 0 had no fault. DMA latencies may be
/// of any length.
///
/// FLAT is then a flat file, and the file NAME is the image of a disk that has each of its sectors, not deleted, with
/// the bytes at the sector's place in FLAT. No other file changed.
pub fn disk_of_a_flat_file(_flat: &str, _name: &str)
    ensures { (spares : List DriveCounts) (old new : Board) (before after : Outside)
        → RunsOver (Some (form.Import _flat.now _name.now)) old spares before new after Status.AllOk
        → HadNoFault 0 old new → StoresImported _flat.now _name.now before.files after.files }
{}

/// A law on an `export NAME FLAT` that ends with status 0, where NAME is the image of a disk.
///
/// The file FLAT then has at the place of each sector the bytes of an intact field of its sector ID on that disk,
/// whatever faults there were. No other file changed. The bytes are those of the sector if two things hold: the disk is
/// regular, and the drive of bay 0 had no fault or no field of the disk has two data marks.
pub fn flat_file_of_a_disk(_name: &str, _flat: &str)
    ensures { (spares : List DriveCounts) (old new : Board) (before after : Outside) (files : Files) (disk : Disk)
        → RunsOver (Some (form.Export _name.now _flat.now)) old spares before new after Status.AllOk
        → before.files ≡ Some files → IsImageOf (Some files) _name.now disk
        → StoresFlatAsRead (IsReadSure disk old new) disk _flat.now (Some files) after.files }
{}
