// What follows of transfers. The bodies are empty.
ghost use Rattle.std.specs.Prelude.{◌≡◌, ◌⊎◌, ◌≤◌, ℕ, true, false};
ghost use Rattle.laws_machine.specs.Common.{is_gated, Command, Board, controller_of, Inputs, Outputs, can_move, moved_up_to, Chips};
ghost use Rattle.laws_machine.specs.OnQuiet.Quiet.{StandsStill};
ghost use Rattle.laws_machine.specs.OnOrders.Orders.{CanBegin, Read};
ghost use Rattle.laws_machine.specs.OnReads.Scenes.{Scene};
ghost use Rattle.laws_machine.specs.OnReads.Timely.{ReadInTime};
ghost use Rattle.laws_machine.specs.OnReads.Served.{IsRuled, moves_left};
ghost use Rattle.laws_machine.specs.OnSteps.Stalls.{Keeping, Stalled};

/// A request that is served falls, or the channel stops granting, within as many bytes as a FIFO holds.
#[tactic(auto, using(crate::proofs::OnReads::Served::stays_ruled))]
pub fn a_served_request_falls()
    ensures falls { (most : ℕ) (chips : Chips) → IsRuled chips.controller → moves_left chips.controller.phase chips.controller.fifo ≤ most
        → can_move (moved_up_to most chips) ≡ false }
    ensures rule { (most : ℕ) (chips : Chips) → IsRuled chips.controller → IsRuled (moved_up_to most chips).controller }
{}

/// A READ DATA that begins with the FIFO on, threshold 8 and DRQ let out ends with OR only if a late DMA was counted
/// since. Each device step either keeps the command in time or counts a late DMA. A call that leaves the chips and the
/// drives keeps the command in time, and so does a port read until the last result byte was read.
#[tactic(auto, using(crate::proofs::OnReads::InTime::in_time, crate::proofs::OnReads::InTime::still_in_time))]
pub fn a_read_overruns_only_by_a_stall()
    ensures begins { (scene : Scene) (byte : ℕ) (old new : Board) → Outputs 0x3F5 byte old new → CanBegin Read scene byte old
        → (controller_of old).fifo.on ≡ true → (controller_of old).fifo.threshold ≡ 8 → is_gated (controller_of old) ≡ true
        → ReadInTime scene new ⊎ Stalled old new }
    ensures keeping { (scene : Scene) → Keeping (ReadInTime scene) }
    ensures still { (old new : Board) → StandsStill old new → (scene : Scene) → ReadInTime scene old → ReadInTime scene new }
    ensures read { (port value : ℕ) (old new : Board) → Inputs port old value new → (scene : Scene) → ReadInTime scene old
        → ReadInTime scene new ⊎ ((controller_of new).phase ≡ Command) ⊎ Stalled old new }
{}
