// The command that rescues, when nothing can go wrong.
ghost use Rattle.std.specs.Prelude.{◌≡◌, ◌≢◌, All, List, Some, None};
ghost use Rattle.laws_commands.specs.Common.{Files, file_at, sectors_at, Status, Disk, IsRegularDisk, IsImageOf, World, Runs, logged_keys, LogLine, IsLogFound, Rescues};
ghost use Rattle.laws_commands.specs.EndsComplete.{BeginsSound, EndsWellOrOutside, HasKey, IsReadable, StoresSameAndLog, StoresRestAndLog, TakesKeys};

/// A law on a rescue with no log yet, in a fresh station, where no drive can have a fault any more and no DMA request
/// can wait too long. The first name has the image of a regular disk that has each of its standard keys. Then the
/// rescue ends well, unless the shelf, the sink or memory fails. A disk with the same standard sectors, on Laid tracks,
/// is then stored under the second name, and an empty log under the third, which is another name.
#[tactic(auto, using(crate::proofs::Storing::new_rescue_complete))]
pub fn new_rescue_ends_well(_from: &str, _to: &str, _log: &str)
    ensures { (old new : World) (ended : Status) (files : Files) (disk : Disk)
        → BeginsSound old → old.files ≡ Some files → IsImageOf (Some files) _from.now disk → IsReadable disk
        → file_at files _log.now ≡ None → _to.now ≢ _log.now
        → Runs (Rescues _from.now _to.now _log.now) old new ended
        → EndsWellOrOutside (StoresSameAndLog disk _to.now _log.now (Some files) new.files) ended }
{}

/// A law on a rescue that goes on by a log, in such a station. The image of the first name is regular and has the
/// records of the log. The second name has the image of a disk that takes these records at the first disk's rate. Then
/// the rescue ends well, unless the shelf, the sink or memory fails. That disk is stored again, with these sectors as
/// the first disk has them and all others as they were, and then an empty log.
#[tactic(auto, using(crate::proofs::RescueTargets::further_rescue_complete))]
pub fn further_rescue_ends_well(_from: &str, _to: &str, _log: &str)
    ensures { (old new : World) (ended : Status) (files : Files) (disk target : Disk) (lines : List LogLine)
        → BeginsSound old → old.files ≡ Some files → IsImageOf (Some files) _from.now disk → IsImageOf (Some files) _to.now target
        → IsLogFound (Some files) _log.now (sectors_at disk.rate) (Some lines) → _to.now ≢ _log.now
        → IsRegularDisk disk → All (HasKey disk) (logged_keys lines) → TakesKeys disk.rate (logged_keys lines) target
        → Runs (Rescues _from.now _to.now _log.now) old new ended
        → EndsWellOrOutside (StoresRestAndLog disk target (logged_keys lines) _to.now _log.now (Some files) new.files) ended }
{}
