// What the answers to a job depend on.
ghost use Rattle.std.specs.Prelude.{List};
ghost use Rattle.laws_program.specs.Common.{Status, Taken, World, Plays};
ghost use Rattle.laws_program.specs.Determined.{BeginAlike, AreRegularBefore, AnswersAgree, EndAlikeUnlessFree};

/// A law on two plays of one job. Each begins on a fresh station whose drives can have no fault any more, and on which
/// no DMA can be late. The files are the same, and there are as many spare drives.
///
/// The two plays answer alike, request by request, as far as both go and while the disks of the first are regular. If
/// these are regular whenever a request comes, the two also end alike, unless the file store, the output or memory
/// failed in one of them. Only the bytes of a dump may differ: a refused read may leave anything in its range of
/// memory.
pub fn job_answers_are_determined(_job: &str)
    ensures { (one one_after two two_after : World) (course other : List Taken) (ended other_ended : Status)
        → BeginAlike one two
        → Plays _job.now one course one_after ended → Plays _job.now two other two_after other_ended
        → AnswersAgree one.state course other
        × (AreRegularBefore one.state course
        → EndAlikeUnlessFree one two course other one_after two_after ended other_ended) }
{}
