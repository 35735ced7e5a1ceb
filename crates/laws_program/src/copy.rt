// The subcommand that copies a disk.
ghost use Rattle.std.specs.Prelude.{◌≡◌, List, Option, Some};
ghost use Rattle.laws_program.specs.Common.{Files, Disk, DriveCounts, IsImageOf, Board, Outside, RunsOver};
ghost use Rattle.floppy_words.specs.declared.form.Form.TheVariants as form;
ghost use Rattle.laws_commands.specs.Targets.{HoldsTarget};
ghost use Rattle.laws_program.specs.Disturbed.{HadNoFault};
ghost use Rattle.laws_program.specs.Stored.{IsReadSure, StoresCopyAsRead};

use flop_base::Status;

/// A law on a `copy FROM TO` that ends with status 0, where FROM is the image of a disk, and the drive of bay 1 had no
/// fault. DMA latencies may be of any length.
///
/// The file TO is then the image of a regular disk, and no other file changed. For each standard sector ID of FROM,
/// that disk has a sector with the mark and the content of an intact field of this ID on FROM, whatever faults the
/// drive of bay 0 had. These are the sectors of FROM if two things hold: FROM is regular, and the drive of bay 0 had no
/// fault or no field of FROM has two data marks.
pub fn copy_of_a_disk(_from: &str, _to: &str)
    ensures { (spares : List DriveCounts) (old new : Board) (before after : Outside) (files : Files) (disk : Disk)
        → RunsOver (Some (form.Copy _from.now _to.now)) old spares before new after Status.AllOk
        → before.files ≡ Some files → IsImageOf (Some files) _from.now disk
        → HadNoFault 1 old new
        → StoresCopyAsRead (IsReadSure disk old new) disk _to.now (Some files) after.files }
{}

/// A law: a rescue may go on with such a disk TO. It is a regular disk in its ranges and isn't protected. It has each
/// standard sector ID of FROM, and each of its address fields is on a Laid track.
pub fn copied_disk_is_a_target(_from: &str, _to: &str)
    ensures { (old new : Board) (files : Files) (after : Option Files) (disk : Disk)
        (stores : StoresCopyAsRead (IsReadSure disk old new) disk _to.now (Some files) after)
        → IsImageOf (Some files) _from.now disk → HoldsTarget _to.now disk stores.copied after }
{}
