// The command that copies a disk.
ghost use Rattle.std.specs.Prelude.{◌≡◌, List, Some, length};
ghost use Rattle.laws_commands.specs.Common.{Files, Disk, IsFaultless, user_bytes, IsImageOf, Taken, World, RunsScript, copy_script};
ghost use Rattle.laws_commands.specs.Copied.{StoresCopy};

use flop_base::Status;

/// A law on a copy that ends well, where the first name has the image of a disk, and the drive of bay 1 had no fault
/// during the copy. A copy of the disk is stored under the second name, and no other file changed. The copy has each
/// standard key with the mark and the content that the read of the key gave. These are the mark and the content of an
/// intact field of the key on that disk.
#[tactic(auto, using(crate::proofs::CopyRun::copy_stores))]
pub fn copy_stores_a_copy(_from: &str, _to: &str)
    ensures { (old new : World) (course : List Taken) (files : Files) (disk : Disk)
        → RunsScript (copy_script _from.now _to.now) old course new Status.AllOk
        → old.files ≡ Some files → IsImageOf (Some files) _from.now disk
        → length old.state.station.memory ≡ user_bytes
        → IsFaultless 1 old.state.station.counters new.state.station.counters
        → StoresCopy disk _to.now old.state.station.counters (Some files) course
        new.state.station.counters new.files }
{}
