// The subcommand that reads all of a disk.
ghost use Rattle.std.specs.Prelude.{◌≡◌, List, [], Some};
ghost use Rattle.laws_program.specs.Common.{Files, Chrn, Disk, DriveCounts, Look, AreFailing, standard_keys, IsImageOf, Board, Outside, RunsOver, IsUnmistaken, all_told_of, IsEndStatus};
ghost use Rattle.floppy_words.specs.declared.form.Form.TheVariants as form;
ghost use Rattle.laws_program.specs.Disturbed.{HadNoFault, HadNoStall};
ghost use Rattle.laws_program.specs.Told.{ListsFailing};

use flop_base::Status;

/// A law on a `verify NAME` that ends with status 0 or 1. NAME is the image of a disk whose address fields can't be
/// mistaken, the drive of bay 0 had no fault, and no DMA was late.
///
/// The report then grew by a line for each standard sector ID that isn't found, in their order, with the code of its
/// look, and by a last line that counts the others. The status is 1 if there is such a sector ID, and else 0.
pub fn verify_of_a_disk(_name: &str)
    ensures { (spares : List DriveCounts) (old new : Board) (before after : Outside) (ended : Status) (files : Files) (disk : Disk)
        (failed : List (Chrn × Look))
        → RunsOver (Some (form.Verify _name.now)) old spares before new after ended → IsEndStatus ended
        → before.files ≡ Some files → IsImageOf (Some files) _name.now disk
        → HadNoFault 0 old new → HadNoStall old new → IsUnmistaken disk
        → AreFailing disk (standard_keys disk) failed
        → ListsFailing disk (all_told_of failed) before after ended }
{}

/// A law: if such a verify ends with status 0, each standard sector ID of the disk is found.
pub fn verify_finds_all(_name: &str)
    ensures { (spares : List DriveCounts) (old new : Board) (before after : Outside) (files : Files) (disk : Disk)
        (failed : List (Chrn × Look))
        → RunsOver (Some (form.Verify _name.now)) old spares before new after Status.AllOk
        → before.files ≡ Some files → IsImageOf (Some files) _name.now disk
        → HadNoFault 0 old new → HadNoStall old new → IsUnmistaken disk
        → AreFailing disk (standard_keys disk) failed → failed ≡ [] }
{}
