// What a rescue stores and tells.
ghost use Rattle.std.specs.Prelude.{◌≡◌, ◌≢◌, List, Option, Some, length};
ghost use Rattle.laws_commands.specs.Common.{Files, sectors_at, Status, Disk, IsFaultless, user_bytes, IsImageOf, Taken, World, LogLine, Rescues, IsLogFound};
ghost use Rattle.laws_commands.specs.VerifyRuns.{IsEndStatus};
ghost use Rattle.laws_commands.specs.Rescued.{IsNotStopped, HasTarget, IsRescue};

/// A law on a rescue that ends with status 0 or 1 and that no refusal stopped, where the drive of bay 1 had no fault
/// during it. Each record that was asked for is either in the new log, with the code that its read gave, or on the
/// stored disk, with the mark and the content that its read gave. No record is in both. Whatever faults the drive of
/// bay 0 had, mark and content are those of an intact field of the record on the first disk. The last line counts the
/// records on the stored disk, and all records that were asked for.
/// If there was a log, there is a premise: the disk of the second name was regular, and no write that stops short could
/// bring up an address mark. The latter holds if the disk's address fields are on Laid tracks, or if each write was
/// Tidy. All other sectors of this disk then stay as they were. If there was no log, the premise isn't needed.
/// The disk is stored first, and then the log. The next run finds both as it needs them: a regular disk and a log. If
/// the disk is new, it is unprotected, has the first disk's cylinders and rate, and has Laid fields. Otherwise it is in
/// these respects as the other disk was.
#[tactic(auto, using(crate::proofs::Whole::rescue_stores))]
pub fn rescue_settles_each_record(_from: &str, _to: &str, _log: &str)
    ensures { (old new : World) (course : List Taken) (ended : Status) (files : Files) (disk target : Disk)
        → Rescues _from.now _to.now _log.now old course new ended → IsEndStatus ended
        → IsNotStopped course → _to.now ≢ _log.now
        → old.files ≡ Some files → IsImageOf (Some files) _from.now disk
        → length old.state.station.memory ≡ user_bytes
        → IsFaultless 1 old.state.station.counters new.state.station.counters
        → ((found : Option (List LogLine)) → IsLogFound (Some files) _log.now (sectors_at disk.rate) found
        → HasTarget found _to.now target files old.state course)
        → IsRescue disk target _to.now _log.now files old course new ended }
{}
