// The subcommands that format a disk.
ghost use Rattle.std.specs.Prelude.{◌≤◌, ℕ, List, Some};
ghost use Rattle.laws_program.specs.Common.{R250, R500, DriveCounts, Board, Outside, RunsOver, StoresFormatted};
ghost use Rattle.floppy_words.specs.declared.form.Form.TheVariants as form;
ghost use Rattle.laws_program.specs.Disturbed.{HadNoFault};

use flop_base::Status;

/// A law on a `format NAME CYLS` that ends with status 0, where the drive of bay 0 had no fault. The file NAME is then
/// the image of a disk of so many cylinders and two heads at 500 kbit/s. Each of its tracks is that of the standard
/// format, and no other file changed.
pub fn format_of_a_disk(_name: &str, _cylinders: u8)
    ensures { (spares : List DriveCounts) (old new : Board) (before after : Outside)
        → RunsOver (Some (form.Format _name.now _cylinders)) old spares before new after Status.AllOk
        → HadNoFault 0 old new → StoresFormatted R500 _name.now _cylinders before.files after.files }
{}

/// A law: the same holds of `formatdd NAME CYLS`, at 250 kbit/s.
pub fn formatdd_of_a_disk(_name: &str, _cylinders: u8)
    ensures { (spares : List DriveCounts) (old new : Board) (before after : Outside)
        → RunsOver (Some (form.FormatDd _name.now _cylinders)) old spares before new after Status.AllOk
        → HadNoFault 0 old new → StoresFormatted R250 _name.now _cylinders before.files after.files }
{}
