// Disks that were read whole.
ghost use Rattle.std.specs.Prelude.{◌≡◌, List, Option};
ghost use Rattle.laws_commands.specs.Common.{Files, Chrn, Disk, Look, IsUndisturbed, AreFailing, standard_keys, State, Taken};
ghost use Rattle.laws_commands.specs.Verified.{ReadsDisk, IsUnmistaken, refused_reads, all_told_of};

/// A law on the reads of a whole disk whose address fields can't be mistaken, where neither a fault of bay 0's drive
/// nor a late DMA request (stall) disturbed them. The reads that are refused are exactly those of the disk's standard
/// keys that aren't found, in their order. Each is refused with the code of its look. The code is 02 if the track has
/// no address mark or the key has no data, 04 if no address field has the key, and 10 if its data are damaged.
#[tactic(auto, using(crate::proofs::Verified::disk_tells))]
pub fn reads_tell_of_disk(_name: &str)
    ensures { (old new : State) (files : Files) (disk : Disk) (course : List Taken)
        (after : Option Files) (failed : List (Chrn × Look))
        → ReadsDisk _name.now disk old files course new after
        → IsUndisturbed 0 old.station.counters new.station.counters
        → IsUnmistaken disk → AreFailing disk (standard_keys disk) failed
        → refused_reads course ≡ all_told_of failed }
{}
