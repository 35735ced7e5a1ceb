// How soon a READ DATA ends, and what MA then says. The bodies are empty.
ghost use Rattle.std.specs.Prelude.{◌≡◌, ◌⊎◌, ◌≤◌, ℕ, true, false};
ghost use Rattle.laws_machine.specs.Common.{Results, is_overrun, IsGiving, is_gated, Command, Ending, HasAddressMark, AreShort, IsCalm, Board, controller_of, drive_in, holds_of, Inputs, Outputs};
ghost use Rattle.laws_machine.specs.OnSteps.Steady.{Steady};
ghost use Rattle.laws_machine.specs.OnSteps.Stalls.{Keeping};
ghost use Rattle.laws_machine.specs.OnReads.Ends.{ReadPrompt, ReadSoon, is_late, most_steps, most_steps_of, steps_taken, tells_no_mark};
ghost use Rattle.laws_machine.specs.OnReads.Ids.{IdEnded};
ghost use Rattle.laws_machine.specs.OnReads.Results.{ReadEnded};
ghost use Rattle.laws_machine.specs.OnReads.Timely.{Stalled};
ghost use Rattle.laws_machine.specs.OnQuiet.Quiet.{StandsStill};
ghost use Rattle.laws_machine.specs.OnOrders.Orders.{CanBegin, Read};
ghost use Rattle.laws_machine.specs.OnReads.Scenes.{Scene, track_met};

/// A READ DATA that begins with DRQ let out, all DMA latencies below 256, and a medium at speed ends in its results
/// before it has taken its 65,536 device steps, whatever late DMAs are counted. It takes at most 258 device steps more
/// than two revolutions of the track have words, and so never more than 33,026.
///
/// Each device step keeps this true. So does each call that leaves the chips and the drives, and each port read until
/// the last result byte was read.
#[tactic(auto, using(crate::proofs::OnReads::EndSteps::soon_over, crate::proofs::OnReads::EndCalls::still_soon))]
pub fn a_read_ends_in_time()
    ensures begins { (scene : Scene) (byte : ℕ) (old new : Board) → Outputs 0x3F5 byte old new → CanBegin Read scene byte old
        → is_gated (controller_of old) ≡ true → AreShort (holds_of old) → ReadSoon scene new }
    ensures steady { (scene : Scene) → Steady (ReadSoon scene) }
    ensures still { (old new : Board) → StandsStill old new → (scene : Scene) → ReadSoon scene old → ReadSoon scene new }
    ensures read { (port value : ℕ) (old new : Board) → Inputs port old value new → (scene : Scene) → ReadSoon scene old
        → ReadSoon scene new ⊎ ((controller_of new).phase ≡ Command) }
    ensures few { (scene : Scene) (board : Board) → ReadSoon scene board → steps_taken (controller_of board).phase ≤ most_steps }
    ensures fewer { (scene : Scene) (board : Board) → ReadSoon scene board
        → steps_taken (controller_of board).phase ≤ most_steps_of scene.disk.words_per_track }
    ensures no_late { (scene : Scene) (board : Board) → ReadSoon scene board → is_late (controller_of board).phase ≡ false }
{}

/// Take a READ DATA that begins with the FIFO on, threshold 8, DRQ let out, and a medium at speed. It ends in its
/// results before it has taken its 65,536 device steps, and without OR, whatever the DMA latencies are. Otherwise a
/// late DMA was counted since.
#[tactic(auto, using(crate::proofs::OnReads::EndSteps::prompting, crate::proofs::OnReads::EndCalls::still_prompt))]
pub fn a_read_is_prompt_until_a_stall()
    ensures begins { (scene : Scene) (byte : ℕ) (old new : Board) → Outputs 0x3F5 byte old new → CanBegin Read scene byte old
        → (controller_of old).fifo.on ≡ true → (controller_of old).fifo.threshold ≡ 8 → is_gated (controller_of old) ≡ true
        → ReadPrompt scene new ⊎ Stalled old new }
    ensures keeping { (scene : Scene) → Keeping (ReadPrompt scene) }
    ensures still { (old new : Board) → StandsStill old new → (scene : Scene) → ReadPrompt scene old → ReadPrompt scene new }
    ensures read { (port value : ℕ) (old new : Board) → Inputs port old value new → (scene : Scene) → ReadPrompt scene old
        → ReadPrompt scene new ⊎ ((controller_of new).phase ≡ Command) ⊎ Stalled old new }
    ensures no_overrun { (scene : Scene) (board : Board) → ReadPrompt scene board → is_overrun (controller_of board).phase ≡ false }
    ensures no_late { (scene : Scene) (board : Board) → ReadPrompt scene board → is_late (controller_of board).phase ≡ false }
{}

/// If the results of a READ DATA or a READ ID report MA, and not MD, and the drive had no fault since, no address mark
/// is on the track. This holds whatever late DMAs were counted.
pub fn a_missing_mark_is_not_on_the_track()
    ensures reads { (scene : Scene) (board : Board) → ReadSoon scene board → ReadEnded scene board
        → (ending : Ending) (results : Results) (read : ℕ) → IsGiving ending results read (controller_of board) → tells_no_mark results ≡ true
        → IsCalm scene.faults (drive_in board scene.bay).faults → HasAddressMark (track_met scene) → ⊥ }
    ensures identifies { (scene : Scene) (board : Board) → IdEnded scene board
        → (ending : Ending) (results : Results) (read : ℕ) → IsGiving ending results read (controller_of board) → tells_no_mark results ≡ true
        → IsCalm scene.faults (drive_in board scene.bay).faults → HasAddressMark (track_met scene) → ⊥ }
{}
