// How often the commands access media past the driver.
ghost use Rattle.std.specs.Prelude.{List};
ghost use Rattle.laws_commands.specs.Common.{Status, Taken, World, RunsScript, format_script, verify_script, copy_script};
ghost use Rattle.laws_commands.specs.Accesses.{AccessesAtMost};

use flop_base::Rate;

/// A law: however a format ends, it accesses the station past the driver at most twice. It puts a blank disk in, and
/// takes it out.
#[tactic(auto, using(crate::proofs::ScriptAccesses::format_rises))]
pub fn format_accesses(_rate: Rate, _name: &str, _cylinders: u8)
    ensures { (old new : World) (course : List Taken) (ended : Status)
        → RunsScript (format_script _name.now _cylinders _rate) old course new ended → AccessesAtMost 2 old new }
{}

/// A law: however a copy ends, it accesses the station past the driver at most three times. It puts two disks in, and
/// takes one out.
#[tactic(auto, using(crate::proofs::ScriptAccesses::copy_rises))]
pub fn copy_accesses(_from: &str, _to: &str)
    ensures { (old new : World) (course : List Taken) (ended : Status)
        → RunsScript (copy_script _from.now _to.now) old course new ended → AccessesAtMost 3 old new }
{}

/// A law: however a verify ends, it accesses the station past the driver at most once. It puts a disk in.
#[tactic(auto, using(crate::proofs::ScriptAccesses::verify_rises))]
pub fn verify_accesses(_name: &str)
    ensures { (old new : World) (course : List Taken) (ended : Status)
        → RunsScript (verify_script _name.now) old course new ended → AccessesAtMost 1 old new }
{}
