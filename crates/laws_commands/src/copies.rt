// Disks that were copied.
ghost use Rattle.std.specs.Prelude.{◌≡◌, List, Option, Some, length};
ghost use Rattle.laws_commands.specs.Common.{Files, Disk, user_bytes, IsFaultless, State, Taken};
ghost use Rattle.laws_commands.specs.Copied.{CopiesDisk, StoresCopy};

/// A law on a run in which each request of the command that copies was done, while the drive of bay 1 had no fault. The
/// stored disk has each standard key of the source, with the mark and the content that the read of the key gave. This
/// holds also if DMA requests waited. Whatever faults the drive of bay 0 had, mark and content are those of an intact
/// field of the key on the source. They are the source's sector if the source is regular, and if the drive of bay 0 had
/// no fault or no field of the source has two data marks.
pub fn copies_disk(_from: &str, _to: &str)
    ensures { (old new : State) (files : Files) (disk : Disk) (course : List Taken)
        (after : Option Files)
        → CopiesDisk _from.now _to.now disk old files course new after
        → length old.station.memory ≡ user_bytes
        → IsFaultless 1 old.station.counters new.station.counters
        → StoresCopy disk _to.now old.station.counters (Some files) course new.station.counters after }
{}
