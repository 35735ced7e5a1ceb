// What the status of a subcommand (form) says, where its files are there and in their grammar.
ghost use Rattle.std.specs.Prelude.{◌≡◌, ℕ, List, Some, None, Ok};
ghost use Rattle.laws_program.specs.Common.{Files, file_at, Rate, Status, Disk, DriveCounts, has_refusal, IsImageOf, IsFlatFile, world, Stand, RanOver, both, sectors_at, LogLine, IsLogFound, job_of, Request, IsText, calls_of, CallLine};
ghost use Rattle.floppy_words.specs.declared.form.Form.TheVariants as form;
ghost use Rattle.laws_program.specs.Ends.{EndsByReplies, EndsAnswered};
ghost use Rattle.laws_program.specs.Inserted.{IsDiskFile, InsertsDisks, requests_among};
ghost use Rattle.laws_program.specs.Answered.{AnswersCalls};

/// A law: `format NAME CYLS` ends with status 1 if some request of its run was refused, and else with 0. This is so
/// unless memory ran out, or the file store or the output failed, and counted the fault.
pub fn format_status(_name: &str, _cylinders: u8)
    ensures { (spares : List DriveCounts) (old new : Stand) (ended : Status)
        (ran : RanOver (Some (form.Format _name.now _cylinders)) spares old new ended)
        → EndsByReplies (has_refusal ran.runs.runs.course) old new ended }
{}

/// A law: the same holds of the status of `formatdd NAME CYLS`.
pub fn formatdd_status(_name: &str, _cylinders: u8)
    ensures { (spares : List DriveCounts) (old new : Stand) (ended : Status)
        (ran : RanOver (Some (form.FormatDd _name.now _cylinders)) spares old new ended)
        → EndsByReplies (has_refusal ran.runs.runs.course) old new ended }
{}

/// A law: the same holds of the status of `copy FROM TO`, where FROM is the image of a disk.
pub fn copy_status(_from: &str, _to: &str)
    ensures { (spares : List DriveCounts) (old new : Stand) (ended : Status) (files : Files) (disk : Disk)
        → old.outside.outside.files ≡ Some files → IsImageOf (Some files) _from.now disk
        → (ran : RanOver (Some (form.Copy _from.now _to.now)) spares old new ended)
        → EndsByReplies (has_refusal ran.runs.runs.course) old new ended }
{}

/// A law: the same holds of the status of `verify NAME`, where NAME is the image of a disk.
pub fn verify_status(_name: &str)
    ensures { (spares : List DriveCounts) (old new : Stand) (ended : Status) (files : Files) (disk : Disk)
        → old.outside.outside.files ≡ Some files → IsImageOf (Some files) _name.now disk
        → (ran : RanOver (Some (form.Verify _name.now)) spares old new ended)
        → EndsByReplies (has_refusal ran.runs.runs.course) old new ended }
{}

/// A law: the same holds of the status of `import FLAT NAME`, where FLAT is a flat file.
pub fn import_status(_flat: &str, _name: &str)
    ensures { (spares : List DriveCounts) (old new : Stand) (ended : Status) (files : Files) (bytes : List ℕ) (at : Rate)
        → old.outside.outside.files ≡ Some files → IsFlatFile (Some files) _flat.now bytes at
        → (ran : RanOver (Some (form.Import _flat.now _name.now)) spares old new ended)
        → EndsByReplies (has_refusal ran.runs.runs.course) old new ended }
{}

/// A law: the same holds of the status of `export NAME FLAT`, where NAME is the image of a disk.
pub fn export_status(_name: &str, _flat: &str)
    ensures { (spares : List DriveCounts) (old new : Stand) (ended : Status) (files : Files) (disk : Disk)
        → old.outside.outside.files ≡ Some files → IsImageOf (Some files) _name.now disk
        → (ran : RanOver (Some (form.Export _name.now _flat.now)) spares old new ended)
        → EndsByReplies (has_refusal ran.runs.runs.course) old new ended }
{}

/// A law: the same holds of the status of `exercise SEED COUNT`.
pub fn exercise_status()
    ensures { (seed count : ℕ) (spares : List DriveCounts) (old new : Stand) (ended : Status)
        (ran : RanOver (Some (form.Exercise seed count)) spares old new ended)
        → EndsByReplies (has_refusal ran.runs.runs.course) old new ended }
{}

/// A law: the same holds of the status of `rescue FROM TO LOG`, where FROM is the image of a disk, and no file LOG is
/// there.
pub fn new_rescue_status(_from: &str, _to: &str, _log: &str)
    ensures { (spares : List DriveCounts) (old new : Stand) (ended : Status) (files : Files) (disk : Disk)
        → old.outside.outside.files ≡ Some files → IsImageOf (Some files) _from.now disk → file_at files _log.now ≡ None
        → (ran : RanOver (Some (form.Rescue _from.now _to.now _log.now)) spares old new ended)
        → EndsByReplies (has_refusal ran.runs.runs.course) old new ended }
{}

/// A law: the same holds of the status of `rescue FROM TO LOG`, where FROM and TO are images of disks, and LOG is a log
/// of sectors at FROM's rate.
pub fn further_rescue_status(_from: &str, _to: &str, _log: &str)
    ensures { (spares : List DriveCounts) (old new : Stand) (ended : Status) (files : Files) (disk target : Disk) (lines : List LogLine)
        → old.outside.outside.files ≡ Some files → IsImageOf (Some files) _from.now disk → IsImageOf (Some files) _to.now target
        → IsLogFound (Some files) _log.now (sectors_at disk.rate) (Some lines)
        → (ran : RanOver (Some (form.Rescue _from.now _to.now _log.now)) spares old new ended)
        → EndsByReplies (has_refusal ran.runs.runs.course) old new ended }
{}

/// A law: the same holds of the status of `play JOB`, where JOB is a job of at most 4,194,304 bytes. Each file that it
/// inserts must be the file of a disk, or must have been stored by one of its ejects before. This isn't asked of an
/// insert that has to be refused.
pub fn play_status(_job: &str)
    ensures { (spares : List DriveCounts) (old new : Stand) (ended : Status) (files : Files) (text : List ℕ) (requests : List Request)
        → old.outside.outside.files ≡ Some files → IsText (Some files) _job.now text → job_of text ≡ Ok requests
        → InsertsDisks (IsDiskFile (Some files)) (both None) requests
        → (ran : RanOver (Some (form.Play _job.now)) spares old new ended)
        → EndsByReplies (has_refusal ran.runs.runs.course) old new ended }
{}

/// A law on `int13 FILE`, where FILE is a text of calls of at most 4,194,304 bytes. Each file that its requests insert
/// must be the file of a disk, or must have been stored by one of their ejects before. This isn't asked of an insert
/// that has to be refused.
///
/// The program ends with status 0 or 1, and has then answered its calls: the status is 1 if something counts as a
/// refusal. This is so unless memory ran out, or the file store or the output failed, and counted the fault.
pub fn int13_status(_file: &str)
    ensures { (spares : List DriveCounts) (old new : Stand) (ended : Status) (files : Files) (text : List ℕ) (lines : List CallLine)
        → old.outside.outside.files ≡ Some files → IsText (Some files) _file.now text → calls_of text ≡ Ok lines
        → InsertsDisks (IsDiskFile (Some files)) (both None) (requests_among lines)
        → (ran : RanOver (Some (form.Int13 _file.now)) spares old new ended)
        → EndsAnswered (AnswersCalls _file.now (world ran.runs.start old.outside.outside.files old.outside.outside.report) ran.runs.runs.course
        (world ran.runs.last new.outside.outside.files new.outside.outside.report) ended) old new ended }
{}
