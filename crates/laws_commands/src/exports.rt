// The command that exports.
ghost use Rattle.std.specs.Prelude.{◌≡◌, List, length};
ghost use Rattle.laws_commands.specs.Common.{user_bytes, Taken, World, RunsScript, export_script};
ghost use Rattle.laws_commands.specs.Exported.{StoresExported};

use flop_base::Status;

/// A law on an export that ends well. A flat file of the disk is stored under the second name, and no other file
/// changed. The file has at the place of each sector what the read of its key gave, whatever faults there were. These
/// are the bytes of an intact field of the key. They are the bytes of the key's sector if the disk is regular, and if
/// the drive of bay 0 had no fault or no field of the disk has two data marks.
#[tactic(auto, using(crate::proofs::ExportRun::export_stores))]
pub fn export_stores_what_was_read(_name: &str, _flat: &str)
    ensures { (old new : World) (course : List Taken)
        → RunsScript (export_script _name.now _flat.now) old course new Status.AllOk
        → length old.state.station.memory ≡ user_bytes
        → StoresExported _name.now _flat.now old.state.station.counters old.files course
        new.state.station.counters new.files }
{}
