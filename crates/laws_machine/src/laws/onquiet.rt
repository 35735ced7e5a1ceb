// What follows of the machine's steps and port accesses. The bodies are empty.
ghost use Rattle.std.specs.Prelude.{◌≡◌, ◌++◌, [], ◌∷◌, ℕ, false};
ghost use Rattle.laws_machine.specs.Common.{Results, Long, Ending, answer, More, is_executing, result_byte, data_commands_of, is_held, Command, Result, Board, controller_of, Inputs, Outputs, is_controllers};
ghost use Rattle.laws_machine.specs.OnQuiet.Results.{GivesBytes, HasGiven};
ghost use Rattle.laws_machine.specs.OnQuiet.Quiet.{IsQuiet, GoesQuietly, StandsStill};
ghost use Rattle.laws_machine.specs.OnQuiet.Settings.{Setting, Stands, setting_of, with_byte, with_rate, with_read, with_write};
ghost use Rattle.laws_machine.specs.OnSteps.Steady.{Steady};

/// If no seek bit is set and no command writes, device steps turn the drives and leave what was set.
#[tactic(auto, using(crate::proofs::OnQuiet::Steps::starts_quietly, crate::proofs::OnQuiet::Steps::still_quietly, crate::proofs::OnQuiet::Steps::quietly))]
pub fn quiet_steps_turn_drives()
    ensures starts { (board : Board) → IsQuiet (controller_of board) → GoesQuietly (data_commands_of (controller_of board)) board board }
    ensures still { (begun : ℕ) (start old new : Board) → StandsStill old new → GoesQuietly begun start old → GoesQuietly begun start new }
    ensures steady { (begun : ℕ) (start : Board) → Steady (GoesQuietly begun start) }
{}

/// Between two data commands device steps leave what was set, memory, and the count of late DMAs, and DRQ stays low.
#[tactic(auto, using(crate::proofs::OnQuiet::Steps::starts_standing, crate::proofs::OnQuiet::Steps::still_stands, crate::proofs::OnQuiet::Steps::standing))]
pub fn steps_leave_a_setting()
    ensures starts { (board : Board) → IsQuiet (controller_of board) → is_executing (controller_of board).phase ≡ false → (controller_of board).asking ≡ false
        → Stands (setting_of board) board board }
    ensures still { (start : Board) (set : Setting) (old new : Board) → StandsStill old new → Stands set start old → Stands set start new }
    ensures steady { (start : Board) (set : Setting) → Steady (Stands set start) }
{}

/// A port access between two data commands sets its register and leaves all else, whatever gap follows it. It is a
/// write to a port of the channel, a byte of a command that isn't whole yet, a write of the rate, or a read of any
/// port.
#[tactic(auto, using(crate::proofs::OnQuiet::Accesses::input_gives))]
pub fn accesses_set_registers()
    ensures channel { (start : Board) (set : Setting) (port value : ℕ) (old new : Board) → is_controllers port ≡ false → Outputs port value old new
        → Stands set start old → Stands (with_write port value set) start new }
    ensures byte { (start : Board) (set : Setting) (value : ℕ) (old new : Board) → set.phase ≡ Command → is_held (controller_of start) ≡ false
        → answer (set.command ++ value ∷ []) ≡ More → Outputs 0x3F5 value old new → Stands set start old → Stands (with_byte value set) start new }
    ensures rate { (start : Board) (set : Setting) (value : ℕ) (old new : Board) → Outputs 0x3F7 value old new → Stands set start old → Stands (with_rate value set) start new }
    ensures read { (start : Board) (set : Setting) (port value : ℕ) (old new : Board) → Inputs port old value new → Stands set start old → Stands (with_read port set) start new }
    ensures gives { (start : Board) (set : Setting) (value : ℕ) (old new : Board) → Inputs 0x3F5 old value new → Stands set start old → value ≡ result_byte set.phase }
{}

/// Seven reads of the data port give the results of a data command, which are ST0, ST1, ST2, C, H, R, N. After them the
/// controller takes commands, and all else is as it was.
pub fn results_are_read()
    ensures { (ending : Ending) (results : Results) (old new : Board) (st0 st1 st2 c h r n : ℕ) → IsQuiet (controller_of old) → (controller_of old).asking ≡ false
        → (controller_of old).phase ≡ Result (Long ending results 0) → GivesBytes old (st0 ∷ st1 ∷ st2 ∷ c ∷ h ∷ r ∷ n ∷ []) new
        → HasGiven results (setting_of old) old (st0 ∷ st1 ∷ st2 ∷ c ∷ h ∷ r ∷ n ∷ []) new }
{}
