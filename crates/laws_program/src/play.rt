// The subcommands that run a text: a batch job, or calls of INT 13h.
ghost use Rattle.std.specs.Prelude.{◌≡◌, List, Some};
ghost use Rattle.laws_program.specs.Common.{Files, Status, DriveCounts, Board, Outside, world, RunsOver, IsEndStatus};
ghost use Rattle.floppy_words.specs.declared.form.Form.TheVariants as form;
ghost use Rattle.laws_program.specs.Answered.{AnswersCalls, AnswersJob};

/// A law on a `play JOB` that ends with status 0 or 1. JOB is then a job, and its requests are those of the run, from
/// the session that was set up to the machine that comes back. The replies of that run are printed in their order. The
/// status is 1 if some reply is a refusal, and else 0.
pub fn job_is_answered(_job: &str)
    ensures { (spares : List DriveCounts) (old new : Board) (before after : Outside) (ended : Status) (files : Files)
        (over : RunsOver (Some (form.Play _job.now)) old spares before new after ended) → IsEndStatus ended
        → before.files ≡ Some files
        → AnswersJob _job.now (world over.start before.files before.report) over.runs.course
        (world over.last after.files after.report) ended }
{}

/// A law on an `int13 FILE` that ends with status 0 or 1. FILE is then a text of calls, and each of its lines was done,
/// from the session that was set up to the machine that comes back. The requests of these lines are those of the run.
/// What the lines print is in the report, in their order. The status is 1 if something counts as a refusal, and else 0.
pub fn calls_are_answered(_file: &str)
    ensures { (spares : List DriveCounts) (old new : Board) (before after : Outside) (ended : Status)
        (over : RunsOver (Some (form.Int13 _file.now)) old spares before new after ended) → IsEndStatus ended
        → AnswersCalls _file.now (world over.start before.files before.report) over.runs.course
        (world over.last after.files after.report) ended }
{}
