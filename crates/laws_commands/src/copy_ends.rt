// The command that copies, when nothing can go wrong.
ghost use Rattle.std.specs.Prelude.{◌≡◌, Some};
ghost use Rattle.laws_commands.specs.Common.{Files, Status, Disk, IsImageOf, World, RunsScript, Runs, copy_script};
ghost use Rattle.laws_commands.specs.EndsComplete.{BeginsSound, EndsWellOrOutside, IsReadable, StoresSameSectors};

/// A law on a copy in a fresh station, where no drive can have a fault any more and no DMA request can wait too long.
/// The first name has the image of a regular disk that has each of its standard keys. Then the copy ends well, unless
/// the shelf, the sink or memory fails. This holds whatever the marks and the contents are. A disk with the same
/// standard sectors is then stored under the second name, and no other file changed.
#[tactic(auto, using(crate::proofs::CommandEnds::copy_complete))]
pub fn copy_ends_well(_from: &str, _to: &str)
    ensures { (old new : World) (ended : Status) (files : Files) (disk : Disk)
        → BeginsSound old → old.files ≡ Some files → IsImageOf (Some files) _from.now disk → IsReadable disk
        → Runs (RunsScript (copy_script _from.now _to.now)) old new ended
        → EndsWellOrOutside (StoresSameSectors disk _to.now (Some files) new.files) ended }
{}
