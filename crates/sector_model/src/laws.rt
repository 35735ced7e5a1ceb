// What follows from the steps of requests. The bodies are empty.
ghost use Rattle.std.specs.Prelude.{◌≤◌, ℕ, List, Option};
ghost use Rattle.sector_model.specs.Common.{AccessesPortsUpTo, LastsUpTo, Files, Status};
ghost use Rattle.sector_model.specs.Plays.{Plays, World};
ghost use Rattle.sector_model.specs.Runs.{Run, Taken, requests_of};
ghost use Rattle.sector_model.specs.States.{State};
ghost use Rattle.sector_model.specs.Stations.{StationState};
ghost use Rattle.sector_model.specs.Times.{AreWithin, course_port_accesses, course_time, job_port_accesses, job_time};

/// A run lasts no more device steps than its requests do, each by the medium that it finds. The gaps after port
/// accesses aren't counted. The same holds of the whole play of a job, wherever it stops.
pub fn a_run_lasts()
    ensures run { (old new : State) (told after : Option Files) (course : List Taken) → Run old told course new after
        → LastsUpTo (course_time old.station course) old.station.counters new.station.counters }
    ensures play { (old new : World) (job : List ℕ) (course : List Taken) (ended : Status) → Plays job old course new ended
        → LastsUpTo (course_time old.state.station course) old.state.station.counters new.state.station.counters }
    ensures within { (turn tries : ℕ) (station : StationState) (course : List Taken) → AreWithin turn tries station course
        → course_time station course ≤ job_time turn tries (requests_of course) }
{}

/// A run makes no more port accesses than its requests do, and one more for each interrupt that it takes. The same holds
/// of the whole play of a job, wherever it stops.
pub fn a_run_makes_few_port_accesses()
    ensures run { (old new : State) (told after : Option Files) (course : List Taken) → Run old told course new after
        → AccessesPortsUpTo (course_port_accesses old.station course) old.station.counters new.station.counters }
    ensures play { (old new : World) (job : List ℕ) (course : List Taken) (ended : Status) → Plays job old course new ended
        → AccessesPortsUpTo (course_port_accesses old.state.station course) old.state.station.counters new.state.station.counters }
    ensures within { (turn tries : ℕ) (station : StationState) (course : List Taken) → AreWithin turn tries station course
        → course_port_accesses station course ≤ job_port_accesses tries (requests_of course) }
{}
