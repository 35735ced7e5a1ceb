// What READ ID reports of the medium. The bodies are empty: the contracts say what follows from what each call does.
ghost use Rattle.std.specs.Prelude.{◌≡◌, ℕ, true, Some, List};
ghost use Rattle.laws_chip.specs.Common.{IsAddressAt, Results, head_of, ChipState, code_of, Obeys, StepsChip, ReadId, Busy, Sent};
ghost use Rattle.laws_chip.specs.Media.{Place, track_at};
ghost use Rattle.laws_chip.specs.Beginning.{IsFreeBehind};
ghost use Rattle.laws_chip.specs.Calls.{Call};
ghost use Rattle.laws_chip.specs.Identifying.{IsIdBegun, StaysUnder};
ghost use Rattle.laws_chip.specs.Lasting.{AreAt};
ghost use Rattle.laws_chip.specs.Sound.{IsSound};
ghost use Rattle.laws_chip.specs.Told.{Tells};

/// A READ ID begins if the inner controller is free. Suppose that its results report no error, and that a medium stayed
/// in from its last byte on. Then the sector ID in the results stands in an address field of the track under its head.
pub fn a_read_id_tells_a_key_of_the_track()
    ensures begins { (old new : ChipState) → IsSound new → code_of old.order.code ≡ Some (ReadId true) → IsFreeBehind old.front → Obeys (ReadId true) old new
        → IsIdBegun old.order.unit new }
    ensures tells { (place : Place) (unit : ℕ) (calls : List Call) (begun last new : ChipState) (results : Results) (at : AreAt (Busy Sent) calls begun last) → IsSound begun
        → IsIdBegun unit begun → StaysUnder place (Busy Sent) calls begun last at → StepsChip last new → Tells results new → results.st1.0 ≡ 0
        → (spot : ℕ) × IsAddressAt (track_at place (head_of unit)) spot results.key }
{}
