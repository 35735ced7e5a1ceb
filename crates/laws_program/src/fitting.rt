// How the subcommands (forms) on files alone end, where the file that they read is there and in its grammar.
ghost use Rattle.std.specs.Prelude.{◌≡◌, List, Some, Ok, codes};
ghost use Rattle.laws_program.specs.Common.{Files, Status, Disk, image_of, DriveCounts, ReadsAs, MakesFromImd, MakesToImd, MakesRemaster, HasNoDisk, HasNoImd, HasNoRemaster, Stand, RanOver};
ghost use Rattle.imagedisk.specs.declared.image.ImdImage.{ImdImage};
ghost use Rattle.imagedisk.specs.Reading.{image_of as imd_of};
ghost use Rattle.floppy_words.specs.declared.form.Form.TheVariants as form;
ghost use Rattle.laws_program.specs.Ends.{EndsByFit, EndsWell};
ghost use Rattle.laws_program.specs.Made.{MakesFile, TellsSurveyOf, HasUnfit};

/// A law on `fromimd IMD NAME`, where IMD is an ImageDisk file. It ends with status 0 and makes the disk, or it ends
/// with status 1 because a track doesn't fit, and changes no file. This is so unless memory ran out, or the file store
/// or the output failed, and counted the fault.
pub fn fromimd_status(_imd: &str, _name: &str)
    ensures { (spares : List DriveCounts) (old new : Stand) (ended : Status) (files : Files)
        → old.outside.outside.files ≡ Some files → (image : ImdImage) → ReadsAs imd_of (Some files) _imd.now (Ok image)
        → RanOver (Some (form.FromImd _imd.now _name.now)) spares old new ended
        → EndsByFit (MakesFile (MakesFromImd _imd.now _name.now) (codes "fromimd") old.outside.outside new.outside.outside)
        (HasUnfit (HasNoDisk image) (Some files) new.outside.outside.files) old new ended }
{}

/// A law: `toimd NAME IMD` ends in the same way, where NAME is the image of a disk. What it makes is the ImageDisk
/// file.
pub fn toimd_status(_name: &str, _imd: &str)
    ensures { (spares : List DriveCounts) (old new : Stand) (ended : Status) (files : Files)
        → old.outside.outside.files ≡ Some files → (disk : Disk) → ReadsAs image_of (Some files) _name.now (Ok disk)
        → RanOver (Some (form.ToImd _name.now _imd.now)) spares old new ended
        → EndsByFit (MakesFile (MakesToImd _name.now _imd.now) (codes "toimd") old.outside.outside new.outside.outside)
        (HasUnfit (HasNoImd disk) (Some files) new.outside.outside.files) old new ended }
{}

/// A law: `remaster FROM TO` ends in the same way, where FROM is the image of a disk. What it makes is the disk laid
/// out anew.
pub fn remaster_status(_from: &str, _to: &str)
    ensures { (spares : List DriveCounts) (old new : Stand) (ended : Status) (files : Files)
        → old.outside.outside.files ≡ Some files → (disk : Disk) → ReadsAs image_of (Some files) _from.now (Ok disk)
        → RanOver (Some (form.Remaster _from.now _to.now)) spares old new ended
        → EndsByFit (MakesFile (MakesRemaster _from.now _to.now) (codes "remaster") old.outside.outside new.outside.outside)
        (HasUnfit (HasNoRemaster disk) (Some files) new.outside.outside.files) old new ended }
{}

/// A law: if NAME is the image of a disk, `survey NAME` ends with status 0, and prints the address fields of the disk.
/// This is so unless memory ran out, or the file store or the output failed, and counted the fault.
pub fn survey_status(_name: &str)
    ensures { (spares : List DriveCounts) (old new : Stand) (ended : Status) (files : Files) (disk : Disk)
        → old.outside.outside.files ≡ Some files → ReadsAs image_of (Some files) _name.now (Ok disk)
        → RanOver (Some (form.Survey _name.now)) spares old new ended
        → EndsWell (TellsSurveyOf _name.now old.outside.outside new.outside.outside) old new ended }
{}
