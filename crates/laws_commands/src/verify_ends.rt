// The command that verifies, when nothing can go wrong.
ghost use Rattle.std.specs.Prelude.{◌≡◌, Some, []};
ghost use Rattle.laws_commands.specs.Common.{Files, Status, Disk, IsImageOf, World, RunsScript, Runs, verify_script};
ghost use Rattle.laws_commands.specs.VerifyRuns.{TellsFailing};
ghost use Rattle.laws_commands.specs.EndsComplete.{BeginsSound, EndsWellOrOutside, IsReadable};

/// A law on a verify in a fresh station, where no drive can have a fault any more and no DMA request can wait too long.
/// The name has the image of a regular disk that has each of its standard keys. Then the verify ends well, unless the
/// shelf, the sink or memory fails. It lists no key, and tells that all sectors were read.
#[tactic(auto, using(crate::proofs::CommandEnds::verify_complete))]
pub fn verify_ends_well(_name: &str)
    ensures { (old new : World) (ended : Status) (files : Files) (disk : Disk)
        → BeginsSound old → old.files ≡ Some files → IsImageOf (Some files) _name.now disk → IsReadable disk
        → Runs (RunsScript (verify_script _name.now)) old new ended
        → EndsWellOrOutside (TellsFailing disk [] old new Status.AllOk) ended }
{}
