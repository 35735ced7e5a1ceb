// What follows of the command table, and what whole seeks give. The bodies are empty.
ghost use Rattle.fdc_commands.specs.Reads.{SpellsRead, SpellsReadId};
ghost use Rattle.fdc_commands.specs.Runs.{SeekLaw, RecalibrateLaw, PollLaw};
ghost use Rattle.fdc_commands.specs.Spelled.{spelled};
ghost use Rattle.fdc_commands.specs.Table.{answer, SizeInRange};
ghost use Rattle.fdc_commands.specs.Writes.{SpellsWrite, SpellsFormat};
ghost use Rattle.fdc_commands.specs.declared.bytes.Accepted.TheVariants.{Ready};
ghost use Rattle.fdc_commands.specs.declared.command.Command.{Command};
ghost use Rattle.flop_base.specs.declared.key.Chrn.{Chrn};
ghost use Rattle.std.specs.Prelude.{◌≡◌, ◌≤◌, ℕ, Bool};

/// The nine bytes of a READ DATA with a size code from 1 to 6, and the two of a READ ID.
pub fn reads_are_spelled()
    ensures data { (head_drive : ℕ) (key : Chrn) (last_sector gap length_code : ℕ) → 1 ≤ key.n → key.n ≤ 6 → SpellsRead head_drive key last_sector gap length_code }
    ensures id { (head_drive : ℕ) → SpellsReadId head_drive }
{}

/// The nine bytes of a WRITE DATA or WRITE DELETED DATA, and the six of a FORMAT TRACK, with a size code from 1 to 6.
pub fn writes_are_spelled()
    ensures data { (deleted : Bool) (head_drive : ℕ) (key : Chrn) (last_sector gap length_code : ℕ) → 1 ≤ key.n → key.n ≤ 6
        → SpellsWrite deleted head_drive key last_sector gap length_code }
    ensures format { (head_drive n sectors gap3 fill : ℕ) → 1 ≤ n → n ≤ 6 → SpellsFormat head_drive n sectors gap3 fill }
{}

/// The bytes of a command are read as that command, if its size code is from 1 to 6 or it has none.
pub fn commands_are_read_back()
    ensures { (command : Command) → SizeInRange command → answer (spelled command) ≡ Ready command }
{}

/// A SEEK gives one pulse per device step, all toward the target, as many as its cylinders are apart. Then it ends on
/// the target. Until then no present cylinder number and no result changes.
pub fn seek_gives_its_pulses()
    ensures { SeekLaw }
{}

/// A RECALIBRATE gives one outward pulse per device step until track 0 is reached, at most 79 pulses. Then it ends on
/// cylinder 0.
pub fn recalibrate_gives_its_pulses()
    ensures { RecalibrateLaw }
{}

/// After the poll that follows a reset, four SENSE INTERRUPTs give the drives' results in order. A fifth gives none.
pub fn poll_gives_four_results()
    ensures { PollLaw }
{}
