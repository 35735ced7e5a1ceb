// What follows of requests that are granted in time. The bodies are empty.
ghost use Rattle.std.specs.Prelude.{◌≡◌, ◌⊎◌, Bool, ℕ, true};
ghost use Rattle.laws_machine.specs.Common.{is_gated, Low, Board, controller_of, holds_of, Outputs};
ghost use Rattle.laws_machine.specs.OnSteps.Stalls.{Keeping, Stalled};
ghost use Rattle.laws_machine.specs.OnReads.Scenes.{Scene};
ghost use Rattle.laws_machine.specs.OnOrders.Orders.{CanBegin, Window, Write};
ghost use Rattle.laws_machine.specs.OnWrites.Timely.{IsOnTime};

/// In each device step, a WRITE DATA, WRITE DELETED or FORMAT TRACK that is on time stays on time and doesn't end with
/// OR, or else a late DMA is counted.
#[tactic(auto, using(crate::proofs::OnWrites::IdlePorts::on_time))]
pub fn device_steps_are_on_time()
    ensures { Keeping IsOnTime }
{}

/// A write that begins with the FIFO on, threshold 8, DRQ let out and no request left from before is on time, or a late
/// DMA is counted.
pub fn a_write_begins_on_time()
    ensures { (scene : Scene) (deleted : Bool) (byte : ℕ) (old new : Board) → Outputs 0x3F5 byte old new → CanBegin (Write (Window deleted)) scene byte old
        → (controller_of old).fifo.on ≡ true → (controller_of old).fifo.threshold ≡ 8 → is_gated (controller_of old) ≡ true
        → (holds_of old).request ≡ Low → IsOnTime new ⊎ Stalled old new }
{}
