// What a run leaves of a protected disk.
ghost use Rattle.std.specs.Prelude.{◌≡◌, true, List, Some};
ghost use Rattle.laws_program.specs.Common.{Files, Status, Disk, IsDisk, DriveCounts, Board, Request, IsJob, IsImageOf, requests_of, Outside, RunsOver};
ghost use Rattle.floppy_words.specs.declared.form.Form.TheVariants as form;
ghost use Rattle.laws_program.specs.Guarded.{BlanksNone};

/// A law: if NAME has the image of a protected disk, NAME has the image of the same disk after `play JOB`, however that
/// run ends. The premise is that no request of the run puts a blank medium in under NAME.
pub fn protected_disk_stays(_job: &str, _name: &str)
    ensures { (spares : List DriveCounts) (old new : Board) (before after : Outside) (ended : Status) (files : Files) (disk : Disk)
        → (over : RunsOver (Some (form.Play _job.now)) old spares before new after ended)
        → before.files ≡ Some files → IsImageOf (Some files) _name.now disk → IsDisk disk → disk.protected ≡ true
        → BlanksNone _name.now (requests_of over.runs.course)
        → (later : Files) × (after.files ≡ Some later) × IsImageOf (Some later) _name.now disk }
{}

/// A law: the same holds if JOB is a job, and none of its requests puts a blank medium in under NAME.
pub fn protected_disk_stays_by_job(_job: &str, _name: &str)
    ensures { (spares : List DriveCounts) (old new : Board) (before after : Outside) (ended : Status) (requests : List Request) (disk : Disk)
        → RunsOver (Some (form.Play _job.now)) old spares before new after ended → IsJob before.files _job.now requests
        → IsImageOf before.files _name.now disk → IsDisk disk → disk.protected ≡ true → BlanksNone _name.now requests
        → (later : Files) × (after.files ≡ Some later) × IsImageOf (Some later) _name.now disk }
{}

/// A law: the same holds after `int13 FILE`, if no request of its run puts a blank medium in under NAME.
pub fn protected_disk_stays_called(_file: &str, _name: &str)
    ensures { (spares : List DriveCounts) (old new : Board) (before after : Outside) (ended : Status) (files : Files) (disk : Disk)
        → (over : RunsOver (Some (form.Int13 _file.now)) old spares before new after ended)
        → before.files ≡ Some files → IsImageOf (Some files) _name.now disk → IsDisk disk → disk.protected ≡ true
        → BlanksNone _name.now (requests_of over.runs.course)
        → (later : Files) × (after.files ≡ Some later) × IsImageOf (Some later) _name.now disk }
{}
