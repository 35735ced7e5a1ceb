// Rescues one after the other, until the log is empty.
ghost use Rattle.std.specs.Prelude.{◌≢◌, List, ◌∷◌};
ghost use Rattle.laws_program.specs.Common.{IsAbsent};
ghost use Rattle.laws_program.specs.InTurn.{RescueRun, IsRescueRun, AreInTurn, last_run, LeavesRescued};

/// A law on runs of `rescue FROM TO LOG` one after the other. Each is from a disk and on a machine of its own. All are
/// onto TO and by LOG, which are different names. The first run finds no file LOG, and each other run finds TO and LOG
/// as the one before left them. Of each run these premises hold:
/// - It ends with status 0 or 1, and its report doesn't say that a refusal stopped it.
/// - Its FROM is the image of a disk.
/// - The drive of bay 1 had no fault. The drive of bay 0 may have had any faults.
///
/// In the end TO has the image of a regular disk. Each standard sector of the first disk is in the log or on that disk.
/// If it is on the disk, it has the mark and the content of an intact field of its sector ID on one of the disks that
/// were read. A sector that some of the runs could read is on the disk. If the last run ends with status 0, each sector
/// is.
pub fn rescues_in_turn_save_records(_to: &str, _log: &str)
    ensures { (first : RescueRun) (later : List RescueRun) → _to.now ≢ _log.now
        → IsRescueRun _to.now _log.now first → IsAbsent first.before.files _log.now
        → AreInTurn _to.now _log.now first.after.files later
        → LeavesRescued _to.now _log.now first.disk (first ∷ later) (last_run first later).ended
        (last_run first later).after.files }
{}
