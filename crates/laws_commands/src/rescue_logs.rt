// What the log of a rescue has.
ghost use Rattle.std.specs.Prelude.{◌≡◌, List, Some};
ghost use Rattle.laws_commands.specs.Common.{Files, Status, Disk, IsUndisturbed, IsImageOf, Taken, World, Rescues};
ghost use Rattle.laws_commands.specs.Verified.{IsUnmistaken};
ghost use Rattle.laws_commands.specs.VerifyRuns.{IsEndStatus};
ghost use Rattle.laws_commands.specs.Rescued.{IsNotStopped, LogsNotFound};

/// A law on a rescue that ends with status 0 or 1 and that no refusal stopped, of a disk whose address fields can't be
/// mistaken. Neither a fault of bay 0's drive nor a late DMA request (stall) disturbed it. Then the new log is exactly
/// the records that were asked for and aren't found, in their order. Each has the code of its look. The code is 02 if
/// the track has no address mark or the record has no data, 04 if no address field has its key, and 10 if its data are
/// damaged.
pub fn rescue_logs_what_is_not_found(_from: &str, _to: &str, _log: &str)
    ensures { (old new : World) (course : List Taken) (ended : Status) (files : Files) (disk : Disk)
        → Rescues _from.now _to.now _log.now old course new ended → IsEndStatus ended → IsNotStopped course
        → old.files ≡ Some files → IsImageOf (Some files) _from.now disk
        → IsUndisturbed 0 old.state.station.counters new.state.station.counters → IsUnmistaken disk
        → LogsNotFound disk _log.now files course new }
{}
