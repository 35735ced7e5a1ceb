// Which stores the program makes.
ghost use Rattle.std.specs.Prelude.{List, Option, Some};
ghost use Rattle.laws_program.specs.Common.{Status, DriveCounts, Board, Outside, Form, Request, IsJob, RunsOver};
ghost use Rattle.floppy_words.specs.declared.form.Form.TheVariants as form;
ghost use Rattle.laws_program.specs.StoresMade.{StoresAsked};
ghost use Rattle.laws_program.specs.StoredAgain.{AllRead, StoresAgainAtEnd};

/// A law on the stores that each subcommand (form) makes, however it ends: in which order, and how often.
/// - `verify`, `survey` and `exercise` make none, so the file that they read isn't stored again.
/// - `format`, `formatdd`, `copy`, `import`, `fromimd`, `remaster`, `export` and `toimd` make one store or none, of
/// what they made, under its name. So FROM isn't stored.
/// - `rescue` stores the disk, and then the log.
/// - `play` and `int13` store what their requests take out, and at their end what was left in, bay 0 first.
pub fn each_form_stores_its_own()
    ensures { (asked : Option Form) (spares : List DriveCounts) (old new : Board) (before after : Outside) (ended : Status)
        (over : RunsOver asked old spares before new after ended)
        → StoresAsked asked over.start over.runs.course before.files after.files }
{}

/// A law on `play JOB`, where JOB is a job, and none of its requests writes to a medium, makes one or takes one out. It
/// stores nothing before its end, however it ends. At its end it stores a first part of what was left in, bay 0 first.
/// Under each name it stores the disk that the file of this name had.
pub fn a_job_that_reads_stores_nothing_new(_job: &str)
    ensures { (spares : List DriveCounts) (old new : Board) (before after : Outside) (ended : Status) (requests : List Request)
        (over : RunsOver (Some (form.Play _job.now)) old spares before new after ended) → IsJob before.files _job.now requests
        → AllRead requests → StoresAgainAtEnd over.start over.runs.course before.files after.files }
{}
