// What a hold does to a device. The body is empty.
ghost use Rattle.std.specs.Prelude.{◌≡◌, ◌⊎◌, ◌+◌, ◌≤◌, ℕ, Bool, false};
ghost use Rattle.flop_base.specs.Counts.{Rose};
ghost use Rattle.irq_events.specs.Holds.{Holds, IsReady, IsInTime, looked};

/// A hold of at most 8 is never too long. Take a device whose slack is enough before a device step (`IsReady`). It
/// loses at most one step of its slack in that step, and still has nine where its line is low. Then its request is
/// granted in time, or a stall is counted.
pub fn holds_without_a_stall_are_in_time()
    ensures { (line : Bool) (old : Holds) (before after : ℕ) → IsReady old.request before → before ≤ after + 1 → (line ≡ false → 9 ≤ after)
        → IsInTime (looked line old).request after ⊎ Rose old.stalls (looked line old).stalls }
{}
