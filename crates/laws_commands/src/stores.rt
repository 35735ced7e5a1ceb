// Which stores runs and commands make, in which order, and how often.
ghost use Rattle.std.specs.Prelude.{◌≡◌, ◌++◌, List, Option, Some, ℕ};
ghost use Rattle.std.specs.Option.{option_map};
ghost use Rattle.laws_commands.specs.Common.{Files, Store, Status, State, Taken, Run, Ends, EndStopsAt, World, RunsScript, format_script, verify_script, copy_script, Imports, export_script};
ghost use Rattle.disk_commands.specs.Exercise.{exercise_script};
ghost use Rattle.laws_commands.specs.Stores.{all_stored, stores_of, end_stores, StoresFirst, StoresDiskAlone, StoresFileAlone};

use flop_base::Rate;

/// A law: a shelf that tells which stores were made lists those that a law says, after those that it listed before.
#[tactic(auto, using(crate::proofs::Storing::stores_listed))]
pub fn stores_are_listed()
    ensures { (files after : Files) (made : List Store) → Some after ≡ all_stored (Some files) made
        → after.stores ≡ option_map (λ before. before ++ made) files.stores }
{}

/// A law: a run stores what its ejects took out, in their order, each medium once under its name, and it stores nothing
/// else. The end of a run stores the medium in bay 0 and then the one in bay 1. If the end stops, it stored a first
/// part of these.
#[tactic(auto, using(crate::proofs::Storing::run_stores, crate::proofs::Storing::ends_store, crate::proofs::Storing::end_stops))]
pub fn a_run_stores_what_it_takes_out()
    ensures run { (old new : State) (told after : Option Files) (course : List Taken) → Run old told course new after
        → after ≡ all_stored told (stores_of old course) }
    ensures end { (old new : State) (told after : Option Files) → Ends old told new after → after ≡ all_stored told (end_stores old) }
    ensures stopped { (old new : State) (told after : Option Files) → EndStopsAt old told new after
        → StoresFirst (end_stores old) told after }
{}

/// A law: however a verify ends, it stores nothing.
#[tactic(auto, using(crate::proofs::ScriptStores::verify_stores))]
pub fn verify_stores_nothing(_name: &str)
    ensures { (old new : World) (course : List Taken) (ended : Status)
        → RunsScript (verify_script _name.now) old course new ended → new.files ≡ old.files }
{}

/// A law: however an exercise ends, it stores nothing.
#[tactic(auto, using(crate::proofs::ScriptStores::exercise_stores))]
pub fn exercise_stores_nothing(_seed: u32, _count: u16)
    ensures { (old new : World) (course : List Taken) (ended : Status)
        → RunsScript (exercise_script _seed _count) old course new ended → new.files ≡ old.files }
{}

/// A law: a format stores one disk under its name, or nothing.
#[tactic(auto, using(crate::proofs::ScriptStores::format_stores))]
pub fn format_stores_a_disk_alone(_rate: Rate, _name: &str, _cylinders: u8)
    ensures { (old new : World) (course : List Taken) (ended : Status)
        → RunsScript (format_script _name.now _cylinders _rate) old course new ended → StoresDiskAlone _name.now old.files new.files }
{}

/// A law: a copy stores one disk, under the name of the copy, or nothing.
#[tactic(auto, using(crate::proofs::ScriptStores::copy_stores))]
pub fn copy_stores_a_disk_alone(_from: &str, _to: &str)
    ensures { (old new : World) (course : List Taken) (ended : Status)
        → RunsScript (copy_script _from.now _to.now) old course new ended → StoresDiskAlone _to.now old.files new.files }
{}

/// A law: an import stores one disk under its name, or nothing.
pub fn import_stores_a_disk_alone(_flat: &str, _name: &str)
    ensures { (old new : World) (course : List Taken) (ended : Status)
        → Imports _flat.now _name.now old course new ended → StoresDiskAlone _name.now old.files new.files }
{}

/// A law: an export stores one file, under the name of the flat file, or nothing.
#[tactic(auto, using(crate::proofs::ScriptStores::export_stores))]
pub fn export_stores_a_file_alone(_name: &str, _flat: &str)
    ensures { (old new : World) (course : List Taken) (ended : Status)
        → RunsScript (export_script _name.now _flat.now) old course new ended → StoresFileAlone _flat.now old.files new.files }
{}
