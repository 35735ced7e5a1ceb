// The subcommands (forms) on files alone: they use neither the machine's media nor its driver.
ghost use Rattle.std.specs.Prelude.{List, Some, codes};
ghost use Rattle.laws_program.specs.Common.{DriveCounts, Board, Outside, MakesFromImd, MakesToImd, MakesRemaster, RunsOver};
ghost use Rattle.floppy_words.specs.declared.form.Form.TheVariants as form;
ghost use Rattle.laws_program.specs.Made.{MakesFile, TellsSurveyOf};

use flop_base::Status;

/// A law: if `fromimd IMD NAME` ends with status 0, IMD is an ImageDisk file, and the file NAME is the image of the
/// disk that is made of it. That disk has the sectors of IMD. No other file changed, and the number of tracks is
/// printed.
pub fn disk_of_an_imd(_imd: &str, _name: &str)
    ensures { (spares : List DriveCounts) (old new : Board) (before after : Outside)
        → RunsOver (Some (form.FromImd _imd.now _name.now)) old spares before new after Status.AllOk
        → MakesFile (MakesFromImd _imd.now _name.now) (codes "fromimd") before after }
{}

/// A law: if `toimd NAME IMD` ends with status 0, NAME is the image of a disk, and IMD is the ImageDisk file that is
/// taken of it. That file has the sectors of the disk, and reads back. No other file changed, and the number of tracks
/// is printed.
pub fn imd_of_a_disk(_name: &str, _imd: &str)
    ensures { (spares : List DriveCounts) (old new : Board) (before after : Outside)
        → RunsOver (Some (form.ToImd _name.now _imd.now)) old spares before new after Status.AllOk
        → MakesFile (MakesToImd _name.now _imd.now) (codes "toimd") before after }
{}

/// A law: if `remaster FROM TO` ends with status 0, FROM is the image of a disk, and the file TO is the image of that
/// disk laid out anew. No other file changed, and the number of sectors is printed.
pub fn disk_laid_anew(_from: &str, _to: &str)
    ensures { (spares : List DriveCounts) (old new : Board) (before after : Outside)
        → RunsOver (Some (form.Remaster _from.now _to.now)) old spares before new after Status.AllOk
        → MakesFile (MakesRemaster _from.now _to.now) (codes "remaster") before after }
{}

/// A law: if `survey NAME` ends with status 0, NAME is the image of a disk. Its address fields are printed with their
/// looks, and no file changed.
pub fn survey_of_a_disk(_name: &str)
    ensures { (spares : List DriveCounts) (old new : Board) (before after : Outside)
        → RunsOver (Some (form.Survey _name.now)) old spares before new after Status.AllOk
        → TellsSurveyOf _name.now before after }
{}
