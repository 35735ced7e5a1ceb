// What no device step does. The bodies are empty.
ghost use Rattle.std.specs.Prelude.{◌≡◌, ◌<◌, ℕ, Option, true};
ghost use Rattle.laws_machine.specs.Common.{is_protected, Board, drive_in, Step, Disk};
ghost use Rattle.laws_machine.specs.OnWrites.Guards.{GatesDrives, GuardsMedia, HoldsGates, LeavesOthers};
ghost use Rattle.laws_machine.specs.OnSteps.Steady.{Marching, Progress, Steady};

/// Whatever the machine is doing, a device step changes at most one word of an unprotected medium, and nothing of a
/// protected one.
#[tactic(auto, using(crate::proofs::OnWrites::Guards::guarding))]
pub fn device_steps_guard_media()
    ensures step { (old new : Board) → Step old new → GuardsMedia old new }
    ensures guards { (bay : ℕ) (medium : Option Disk) → is_protected medium ≡ true → Steady (λ board. (drive_in board bay).medium ≡ medium) }
{}

/// Device steps leave the selection as it is, and the medium of the drive that isn't selected.
#[tactic(auto, using(crate::proofs::OnWrites::Guards::leaving))]
pub fn device_steps_leave_other_media()
    ensures { Progress LeavesOthers }
{}

/// A drive's gate is closed in each device step in which the drive isn't given a word of a write or a format that is in
/// execution. This holds whatever was accessed before, and however the gates stood. Such a word is recorded through the
/// drive's open gate alone. So an open gate after a device step is that of the selected drive, and the command goes on.
#[tactic(auto, using(crate::proofs::OnWrites::Gates::gating))]
pub fn device_steps_gate_writes()
    ensures step { (old new : Board) → Step old new → GatesDrives old new }
    ensures holds { Marching (λ n board. 0 < n → HoldsGates board) }
{}
