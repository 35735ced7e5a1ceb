// What follows of the machine's steps. The bodies are empty.
ghost use Rattle.std.specs.Prelude.{◌≡◌, ◌≤◌, ℕ, true, false, ◌==◌};
ghost use Rattle.laws_machine.specs.Common.{is_executing, data_commands_of, AreShort, counted, Board, controller_of, holds_of, irq_taken, Inputs, Outputs};
ghost use Rattle.laws_machine.specs.OnAwaits.Awaits.{IsAwaited, IsLetOut};
ghost use Rattle.laws_machine.specs.OnAwaits.Goes.{GoesOn, StandsReady};
ghost use Rattle.laws_machine.specs.OnOrders.Orders.{CanBegin, Order};
ghost use Rattle.laws_machine.specs.OnQuiet.Quiet.{IsHushed};
ghost use Rattle.laws_machine.specs.OnReads.Ends.{most_steps_of, steps_taken};
ghost use Rattle.laws_machine.specs.OnReads.Scenes.{Scene};
ghost use Rattle.laws_machine.specs.OnSteps.Steady.{Steady};

/// A data command that begins while INT is low, and the latch saw the line low, counts as one. It sets the latch when
/// it ends, whatever spurious interrupts come and are taken before. What was set stays until then.
#[tactic(auto, using(crate::proofs::OnAwaits::Awaiting::awaiting, crate::proofs::OnAwaits::Accesses::stray_awaits))]
pub fn a_data_command_is_awaited()
    ensures begins { (order : Order) (scene : Scene) (byte : ℕ) (old new : Board) → Outputs 0x3F5 byte old new → CanBegin order scene byte old
        → IsLetOut (controller_of old) → IsHushed old → IsAwaited (counted (data_commands_of (controller_of old))) old new }
    ensures steady { (begun : ℕ) (start : Board) → Steady (IsAwaited begun start) }
    ensures read { (begun port value : ℕ) (start old new : Board) → (port == 0x3F5) ≡ false → Inputs port old value new
        → IsAwaited begun start old → IsAwaited begun start new }
    ensures strays { (begun : ℕ) (start old : Board) → is_executing (controller_of old).phase ≡ true → IsAwaited begun start old
        → IsAwaited begun start (record old { bus = irq_taken old.bus }) }
{}

/// A data command that begins with INT and DRQ let out, INT low, the FIFO on with threshold 8, and no request left from
/// before goes on until its end is reported. It goes on through device steps, waits, spurious interrupts that are
/// taken, and reads of MSR. If all DMA latencies were below 256 when it began, a READ DATA ends soon after its field,
/// whatever late DMAs are counted.
#[tactic(auto, using(crate::proofs::OnAwaits::Accesses::going))]
pub fn a_data_command_goes_on()
    ensures begins { (order : Order) (scene : Scene) (byte : ℕ) (old new : Board) → Outputs 0x3F5 byte old new → CanBegin order scene byte old
        → StandsReady old → GoesOn order scene old new }
    ensures steady { (order : Order) (scene : Scene) (start : Board) → Steady (GoesOn order scene start) }
    ensures status { (order : Order) (scene : Scene) (start : Board) (value : ℕ) (old new : Board) → Inputs 0x3F4 old value new
        → GoesOn order scene start old → GoesOn order scene start new }
    ensures strays { (order : Order) (scene : Scene) (start old : Board) → is_executing (controller_of old).phase ≡ true → GoesOn order scene start old
        → GoesOn order scene start (record old { bus = irq_taken old.bus }) }
{}

/// If all DMA latencies were below 256 when it began, such a data command takes no more device steps than two
/// revolutions of the track have words, and 258 more. It is a READ DATA that may need the 258: it waits for the grant
/// of its last bytes.
#[tactic(auto, using(crate::proofs::OnAwaits::Accesses::few))]
pub fn a_data_command_takes_few_steps()
    ensures { (order : Order) (scene : Scene) (start now : Board) → GoesOn order scene start now → AreShort (holds_of start)
        → steps_taken (controller_of now).phase ≤ most_steps_of scene.disk.words_per_track }
{}
