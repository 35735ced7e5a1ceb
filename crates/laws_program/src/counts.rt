// What a run counts.
ghost use Rattle.std.specs.Prelude.{◌≤◌, ◌+◌, List, Option, Some};
ghost use Rattle.laws_program.specs.Common.{Status, Request, DriveCounts, Board, clock_of, Uses, TiesCounts, IsJob, accesses_of_job, course_port_accesses, course_time, Outside, Form, RunsOver};
ghost use Rattle.floppy_words.specs.declared.form.Form.TheVariants as form;
ghost use Rattle.laws_program.specs.Steps.{course_commands};

/// A law: the counts of a run over a machine are tied to its course, whatever the arguments (words) ask for:
/// - At least one interrupt was taken for each data command.
/// - The stalls and the faults that came were within what was left of them.
/// - The faults of a bay in the steps since its last exchange are faults of the drive that stands in it.
/// - The accesses past the driver were within what the requests allow.
/// - If nothing was left that could go wrong, no step was disturbed.
///
/// The counts at the beginning go on from those of the machine that was handed in. Those at the end are the counts of
/// the machine that comes back, as `RunsOver` says.
pub fn counts_are_tied()
    ensures { (asked : Option Form) (spares : List DriveCounts) (old new : Board) (before after : Outside) (ended : Status)
        (over : RunsOver asked old spares before new after ended)
        → TiesCounts over.start.station.counters over.runs.course over.last.station.counters }
{}

/// A law: `play JOB`, where the told file JOB spells these requests, makes no more accesses past the driver than all of
/// them may, and one more for each bay at the end. This holds also if the run stopped before its end.
pub fn job_accesses(_job: &str)
    ensures { (spares : List DriveCounts) (old new : Board) (before after : Outside) (ended : Status) (requests : List Request)
        → RunsOver (Some (form.Play _job.now)) old spares before new after ended → IsJob before.files _job.now requests
        → new.bus.direct ≤ old.bus.direct + accesses_of_job requests }
{}

/// A law: a run over a machine lasts at most its set-up, which is two device steps, and the sum of what its requests
/// last, each by the medium that it finds. This holds whatever the arguments ask for, also if the run stopped before
/// its end. The device steps of gaps after port accesses come on top, and each gap is used up once.
pub fn each_form_lasts()
    ensures { (asked : Option Form) (spares : List DriveCounts) (old new : Board) (before after : Outside) (ended : Status)
        (over : RunsOver asked old spares before new after ended)
        → clock_of new ≤ clock_of old + (2 + course_time over.start.station over.runs.course) }
{}

/// A law: a run over a machine makes at most 22 port accesses for its set-up, the sum of what its requests make, and one
/// more for each interrupt that it takes. This holds whatever the arguments ask for, also if the run stopped before its
/// end. The gaps that are used up show it: the law holds for every list of gaps, however long the list is.
pub fn each_form_makes_few_port_accesses()
    ensures { (asked : Option Form) (spares : List DriveCounts) (old new : Board) (before after : Outside) (ended : Status)
        (over : RunsOver asked old spares before new after ended)
        → Uses (22 + course_port_accesses over.start.station over.runs.course) old new }
{}

/// A law: a run over a machine sends no more data commands than its requests may, whatever the arguments ask for. A
/// request may send, by the attempts that are set and the rate of its bay:
/// - a read one for each attempt
/// - a write two for each attempt
/// - a format one, and one for each sector, for each attempt
/// - an acknowledgement six
///
/// The counts are those of the machine at the beginning and at the end, as `RunsOver` says.
pub fn each_form_sends_few()
    ensures { (asked : Option Form) (spares : List DriveCounts) (old new : Board) (before after : Outside) (ended : Status)
        (over : RunsOver asked old spares before new after ended)
        → over.last.station.counters.data_commands
        ≤ over.start.station.counters.data_commands + course_commands over.start.station over.runs.course }
{}
