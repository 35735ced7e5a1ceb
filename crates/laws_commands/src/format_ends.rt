// The command that formats, when nothing can go wrong.
ghost use Rattle.std.specs.Prelude.{◌≤◌};
ghost use Rattle.laws_commands.specs.Common.{Status, Disk, World, RunsScript, Runs, format_script};
ghost use Rattle.laws_commands.specs.Formatted.{StoresFormatted, IsFormattedDisk};
ghost use Rattle.laws_commands.specs.EndsComplete.{BeginsSound, EndsWellOrOutside, IsReadable};

use flop_base::Rate;

/// A law on a format of 1 to 80 cylinders in a fresh station, where no drive can have a fault any more and no DMA
/// request can wait too long. The format ends well, unless the shelf, the sink or memory fails. A formatted disk
/// is then stored under the name, and no other file changed.
#[tactic(auto, using(crate::proofs::CommandEnds::format_complete))]
pub fn format_ends_well(_rate: Rate, _name: &str, _cylinders: u8)
    ensures { (old new : World) (ended : Status) → 1 ≤ _cylinders → _cylinders ≤ 80
        → BeginsSound old → Runs (RunsScript (format_script _name.now _cylinders _rate)) old new ended
        → EndsWellOrOutside (StoresFormatted _rate _name.now _cylinders old.files new.files) ended }
{}

/// A law: a formatted disk is readable. A copy or a verify of it therefore ends well when nothing can go wrong.
pub fn formatted_disk_is_readable(_rate: Rate, _cylinders: u8)
    ensures { (disk : Disk) → IsFormattedDisk _rate _cylinders disk → IsReadable disk }
{}
