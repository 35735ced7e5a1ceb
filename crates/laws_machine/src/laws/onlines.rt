// Change lines of empty drives. The bodies are empty.
ghost use Rattle.std.specs.Prelude.{ℕ};
ghost use Rattle.laws_machine.specs.Common.{DriveState, AreSetIfEmpty, Board, IsEmpty, IsNew};
ghost use Rattle.irq_events.specs.declared.pace.Pace.{Pace};
ghost use Rattle.pc_bus.specs.Calls.{AreCalled, IsCalled};
ghost use Rattle.laws_machine.specs.OnSteps.Steady.{Steady};

/// On a new machine each empty drive has its change line set. Every call of a machine keeps that, in each device step.
#[tactic(auto, using(crate::proofs::OnLines::Showing::new_lines, crate::proofs::OnLines::Showing::showing, crate::proofs::OnLines::Showing::calls_lines))]
pub fn empty_drives_keep_their_lines()
    ensures made { (pace : Pace) (bay0 bay1 : DriveState) (new : Board) → IsEmpty bay0 → IsEmpty bay1 → IsNew pace bay0 bay1 new → AreSetIfEmpty new }
    ensures steady { Steady AreSetIfEmpty }
    ensures call { (old new : Board) → IsCalled old new → AreSetIfEmpty old → AreSetIfEmpty new }
    ensures calls { (calls : ℕ) (old new : Board) → AreCalled calls old new → AreSetIfEmpty old → AreSetIfEmpty new }
{}
