// What the answers to a job depend on, where nothing can go wrong.
ghost use Rattle.std.specs.Prelude.{◌≡◌, ◌⊎◌, List, Some, length};
ghost use Rattle.laws_program.specs.Common.{Files, DriveCounts, Status, world, Stand, RanOver};
ghost use Rattle.laws_program.specs.Determined.{AreBytes, AreRegularBefore, AnswersAgree, EndAlike};
ghost use Rattle.floppy_words.specs.declared.form.Form.TheVariants as form;
ghost use Rattle.laws_program.specs.Disturbed.{IsSound};
ghost use Rattle.laws_program.specs.Ends.{EndsOutside};

/// A law on two runs of `play JOB`. Each is on a machine and spare drives where nothing is left that could go wrong.
/// The files are the same, and there are as many spare drives.
///
/// The two runs answer alike, request by request, as far as both go and while the disks of the first are regular. If
/// these are regular whenever a request comes, the two also end alike, with the same status. This is so unless memory
/// ran out in one of them, or its file store or output failed, and counted the fault. Only the bytes of a dump may
/// differ: a refused read may leave anything in its range of memory.
pub fn job_answers_are_settled(_job: &str)
    ensures { (spares other_spares : List DriveCounts) (old new other_old other_new : Stand) (ended other_ended : Status) (files others : Files)
        (one : RanOver (Some (form.Play _job.now)) spares old new ended)
        (two : RanOver (Some (form.Play _job.now)) other_spares other_old other_new other_ended)
        → IsSound old.board spares → IsSound other_old.board other_spares → length other_spares ≡ length spares
        → old.outside.outside.files ≡ Some files → other_old.outside.outside.files ≡ Some others
        → others.held ≡ files.held → AreBytes files
        → AnswersAgree one.runs.start one.runs.runs.course two.runs.runs.course
        × (AreRegularBefore one.runs.start one.runs.runs.course
        → EndsOutside old new ended ⊎ EndsOutside other_old other_new other_ended
        ⊎ EndAlike (world one.runs.start old.outside.outside.files old.outside.outside.report)
        (world two.runs.start other_old.outside.outside.files other_old.outside.outside.report) one.runs.runs.course two.runs.runs.course
        (world one.runs.last new.outside.outside.files new.outside.outside.report)
        (world two.runs.last other_new.outside.outside.files other_new.outside.outside.report) ended other_ended) }
{}
