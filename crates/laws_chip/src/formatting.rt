// What FORMAT TRACK leaves of the medium. The bodies are empty: the contracts say what follows from what each call
// does.
ghost use Rattle.std.specs.Prelude.{◌≡◌, ℕ, true, List};
ghost use Rattle.laws_chip.specs.Common.{Numbers, Outset, drive_at, ChipState, Obeys, is_size, StepsChip, FormatTrack, Busy, Sent};
ghost use Rattle.laws_chip.specs.Beginning.{IsFreeBehind};
ghost use Rattle.laws_chip.specs.Calls.{Call};
ghost use Rattle.laws_chip.specs.FormatTracks.{GiveAll, IsFormatBegun, LaysKeys, LetDrives, TurnsAtSpeed, numbers_of};
ghost use Rattle.laws_chip.specs.Lasting.{AreAt};
ghost use Rattle.laws_chip.specs.Sound.{IsSound};

/// A FORMAT TRACK that this medium can have begins if the inner controller is free. Take one over a medium at speed
/// that nobody touches. While it is executed, and after the device step that ends it, the words written are the first
/// of a layout. This is the layout of the sector IDs that the channel or the data port gave. The words stand on the
/// track under its head, and nothing else of the medium changes.
pub fn a_format_lays_the_keys_given()
    ensures begins { (old new : ChipState) → is_size old.order.key.c ≡ true → IsFreeBehind old.front → Obeys (FormatTrack true) old new
        → IsFormatBegun old.order.unit (numbers_of old.order) new }
    ensures lays { (outset : Outset) (bay unit : ℕ) (numbers : Numbers) (calls : List Call) (begun last new : ChipState) (at : AreAt (Busy Sent) calls begun last) (step : StepsChip last new)
        → IsSound begun → IsFormatBegun unit numbers begun → TurnsAtSpeed outset bay unit begun → LetDrives calls
        → (given : List ℕ) × GiveAll (Busy Sent) calls begun last at given × LaysKeys outset unit numbers given step.between.adapter.controller (drive_at step.between.adapter bay) }
{}
