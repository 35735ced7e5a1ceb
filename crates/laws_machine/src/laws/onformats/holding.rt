// What follows of requests that are granted in time. The bodies are empty.
ghost use Rattle.std.specs.Prelude.{◌≡◌, ◌⊎◌, ℕ, true};
ghost use Rattle.laws_machine.specs.Common.{is_gated, Numbers, Low, Board, controller_of, holds_of, Outputs};
ghost use Rattle.laws_machine.specs.OnOrders.Orders.{CanBegin, Track, Write};
ghost use Rattle.laws_machine.specs.OnReads.Timely.{Stalled};
ghost use Rattle.laws_machine.specs.OnReads.Scenes.{Scene};
ghost use Rattle.laws_machine.specs.OnWrites.Timely.{IsOnTime};

/// A FORMAT TRACK that begins with the FIFO on, threshold 8, DRQ let out and no request left from before is on time, or
/// a late DMA is counted.
pub fn a_format_begins_on_time()
    ensures { (scene : Scene) (numbers : Numbers) (byte : ℕ) (old new : Board) → Outputs 0x3F5 byte old new → CanBegin (Write (Track numbers)) scene byte old
        → (controller_of old).fifo.on ≡ true → (controller_of old).fifo.threshold ≡ 8 → is_gated (controller_of old) ≡ true
        → (holds_of old).request ≡ Low → IsOnTime new ⊎ Stalled old new }
{}
