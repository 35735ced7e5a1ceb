// The command that formats a disk.
ghost use Rattle.std.specs.Prelude.{List};
ghost use Rattle.laws_commands.specs.Common.{IsFaultless, Taken, World, RunsScript, format_script};
ghost use Rattle.laws_commands.specs.Formatted.{StoresFormatted};

use flop_base::{Rate, Status};

/// A law on a format that ends well, where the drive of bay 0 had no fault during the format. A formatted disk is
/// stored under the name, and no other file changed.
#[tactic(auto, using(crate::proofs::CopyRun::format_stores))]
pub fn format_stores_a_formatted_disk(_rate: Rate, _name: &str, _cylinders: u8)
    ensures { (old new : World) (course : List Taken)
        → RunsScript (format_script _name.now _cylinders _rate) old course new Status.AllOk
        → IsFaultless 0 old.state.station.counters new.state.station.counters
        → StoresFormatted _rate _name.now _cylinders old.files new.files }
{}
