// What follows of the machine's steps and port accesses. The bodies are empty.
ghost use Rattle.std.specs.Prelude.{ℕ};
ghost use Rattle.laws_machine.specs.Common.{CountsGoOn, Board, Inputs, Outputs};
ghost use Rattle.laws_machine.specs.OnSteps.Steady.{Progress};

/// The faults of a drive and the late DMAs never fall. The faults rise by no more than what the drive tells is left of
/// them, and the late DMAs by no more than the long DMA latencies that are left. Device steps, waits and port accesses
/// take no interrupt.
#[tactic(auto, using(crate::proofs::OnCounts::Counting::counting))]
pub fn counts_go_on()
    ensures goes_on { Progress CountsGoOn }
    ensures read { (port value : ℕ) (old new : Board) → Inputs port old value new → CountsGoOn old new }
    ensures write { (port value : ℕ) (old new : Board) → Outputs port value old new → CountsGoOn old new }
{}
