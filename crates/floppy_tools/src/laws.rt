// What a run of the program over any station counts. The bodies are empty.
ghost use Rattle.std.specs.Prelude.{◌≤◌, ◌+◌, List, Option, Some};
ghost use Rattle.floppy_tools.specs.Common.{Status, Taken, World, Form};
ghost use Rattle.floppy_jobs.specs.declared.request.Request.{Request};
ghost use Rattle.sector_model.specs.Ties.{TiesCounts, IsJob, accesses_of_job};
ghost use Rattle.floppy_words.specs.declared.form.Form.TheVariants as form;
ghost use Rattle.floppy_tools.specs.Programs.{Does};

/// A law: the counts that the station shows before and after a run are tied to its course, whatever the arguments
/// (words) ask for.
pub fn counts_of_a_run()
    ensures { (asked : Option Form) (old : World) (course : List Taken) (new : World) (ended : Status)
        → Does asked old course new ended → TiesCounts old.state.station.counters course new.state.station.counters }
{}

/// A law: a batch job makes no more accesses past the driver than its requests may, also if the run stopped before its
/// end.
pub fn accesses_of_a_job(_job: &str)
    ensures { (old : World) (course : List Taken) (new : World) (ended : Status) (requests : List Request)
        → Does (Some (form.Play _job.now)) old course new ended → IsJob old.files _job.now requests
        → new.state.station.counters.direct ≤ old.state.station.counters.direct + accesses_of_job requests }
{}
