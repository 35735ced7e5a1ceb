// Pulses that come in the time that SPECIFY sets. The bodies are empty: the contracts say what follows from what each
// call does.
ghost use Rattle.std.specs.Prelude.{◌≡◌, ◌<◌, ◌+◌, ℕ, true, false, Option, None, Some};
ghost use Rattle.laws_chip.specs.Common.{ChipState, drained, is_told, pace_begun, Paces, is_over, stepped, PacedSeek};

/// The results of the poll after a reset are reported, even while such pulses are to come. The result of a single pulse
/// isn't reported. A device step first takes over all results, and then leaves them as they are.
pub fn pulses_leave_the_poll()
    ensures polls { (pace : Option PacedSeek) (drive : ℕ) → drive < 4 → is_told pace (0xC0 + drive) ≡ true }
    ensures pulses { (pace : PacedSeek) (drive : ℕ) → drive < 4 → is_told (Some pace) (0x20 + drive) ≡ false }
    ensures taken { (pace : PacedSeek) (old new : ChipState) → Paces (Some pace) old new → new.interrupts ≡ (drained old).interrupts }
{}

/// A RECALIBRATE has 79 pulses. Each pulse that comes in time leaves one fewer for the RECALIBRATE that the inner
/// controller is given at the end.
pub fn a_recalibrate_counts_its_pulses()
    ensures all { (unit cylinder : ℕ) → (pace_begun unit cylinder None).left ≡ 79 }
    ensures fewer { (words : ℕ) (pace : PacedSeek) → pace.goal ≡ None → is_over pace ≡ false → (stepped words pace).left + 1 ≡ pace.left }
{}
