// The command that verifies a disk.
ghost use Rattle.std.specs.Prelude.{◌≡◌, List, Some, None};
ghost use Rattle.laws_commands.specs.Common.{Files, Chrn, Status, Disk, Look, IsUndisturbed, AreFailing, standard_keys, bay_of, IsImageOf, Taken, World, RunsScript, verify_script};
ghost use Rattle.laws_commands.specs.Verified.{IsUnmistaken, all_told_of};
ghost use Rattle.laws_commands.specs.VerifyRuns.{TellsFailing, IsEndStatus};

/// A law on a verify that goes on to its end, of a disk whose address fields can't be mistaken. Bay 0 was empty before,
/// and neither a fault of its drive nor a late DMA request (stall) disturbed the verify. Then it prints a line for each
/// standard key that isn't found, in their order, with the code of its look. After these comes only the last line,
/// which counts the other keys. The status is 1 if there is a key that isn't found, and otherwise 0.
#[tactic(auto, using(crate::proofs::VerifyRun::verify_tells))]
pub fn verify_tells_failing_keys(_name: &str)
    ensures { (old new : World) (course : List Taken) (ended : Status) (files : Files) (disk : Disk)
        (failed : List (Chrn × Look))
        → RunsScript (verify_script _name.now) old course new ended → IsEndStatus ended
        → old.files ≡ Some files → IsImageOf (Some files) _name.now disk
        → (bay_of old.state.station 0).medium ≡ None
        → IsUndisturbed 0 old.state.station.counters new.state.station.counters
        → IsUnmistaken disk → AreFailing disk (standard_keys disk) failed
        → TellsFailing disk (all_told_of failed) old new ended }
{}
