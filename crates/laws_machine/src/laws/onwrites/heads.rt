// What device steps leave of heads, and of an idle machine. The bodies are empty.
ghost use Rattle.std.specs.Prelude.{◌≡◌, ℕ, None};
ghost use Rattle.laws_machine.specs.Common.{Seeking, seek_bits, Inputs, Outputs, Board};
ghost use Rattle.laws_machine.specs.OnWrites.Guards.{LeavesOthers};
ghost use Rattle.laws_machine.specs.OnWrites.Heads.{HasNoSeek, IsIdle, RestsIdle, StaysIdle, StaysStill};
ghost use Rattle.laws_machine.specs.OnSteps.Steady.{Steady};

/// If no seek was begun, device steps move no heads, change no change line and stop no medium, whatever command is in
/// execution.
#[tactic(auto, using(crate::proofs::OnWrites::Guards::stays_none, crate::proofs::OnWrites::Guards::stilling, crate::proofs::OnWrites::Guards::no_bits))]
pub fn device_steps_move_no_heads()
    ensures starts { (board : Board) → HasNoSeek board → StaysStill board board }
    ensures steady { (start : Board) → Steady (StaysStill start) }
    ensures bits { (seeks : Seeking) → seek_bits seeks ≡ 0 → seeks.seek ≡ None }
{}

/// Once a data command is over, device steps change no medium and move no byte.
#[tactic(auto, using(crate::proofs::OnWrites::Gates::idle_none, crate::proofs::OnWrites::Gates::idling))]
pub fn an_idle_machine_stays()
    ensures starts { (board : Board) → IsIdle board → StaysIdle board board }
    ensures steady { (start : Board) → Steady (StaysIdle start) }
{}

/// A read of a port moves no heads and leaves an idle machine as it is. A write leaves an idle machine as it is if the
/// controller stays idle; then no request is left for the next command.
pub fn port_accesses_leave_an_idle_machine()
    ensures still { (port value : ℕ) (old new : Board) → Inputs port old value new → HasNoSeek old → StaysStill old new }
    ensures others { (port value : ℕ) (old new : Board) → Inputs port old value new → LeavesOthers old new }
    ensures inputs { (port value : ℕ) (old new : Board) → Inputs port old value new → IsIdle old → RestsIdle old new }
    ensures outputs { (port value : ℕ) (old new : Board) (access : Outputs port value old new) → IsIdle old → IsIdle access.between → RestsIdle old new }
{}
