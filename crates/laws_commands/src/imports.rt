// The command that imports.
ghost use Rattle.std.specs.Prelude.{◌≡◌, List, length};
ghost use Rattle.laws_commands.specs.Common.{IsFaultless, user_bytes, Taken, World, Imports};
ghost use Rattle.laws_commands.specs.Imported.{StoresImported};

use flop_base::Status;

/// A law on an import that ends well, where the drive of bay 0 had no fault during the import. A disk is stored under
/// the second name, and no other file changed. The disk has each sector of the flat file, not deleted, with the bytes
/// at the sector's place. This holds also if DMA requests waited.
pub fn import_stores_the_flat_file(_flat: &str, _name: &str)
    ensures { (old new : World) (course : List Taken)
        → Imports _flat.now _name.now old course new Status.AllOk
        → length old.state.station.memory ≡ user_bytes
        → IsFaultless 0 old.state.station.counters new.state.station.counters
        → StoresImported _flat.now _name.now old.files new.files }
{}
