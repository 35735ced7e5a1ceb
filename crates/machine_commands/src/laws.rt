// What follows of boards. The bodies are empty.
ghost use Rattle.machine_commands.specs.Common.{is_held, CanSetUp, Code, Rate, AreShort, Lasts, AreSetIfEmpty, Board, controller_of, holds_of};
ghost use Rattle.laws_machine.specs.OnAwaits.Goes.{GoesOn};
ghost use Rattle.laws_machine.specs.OnOrders.Orders.{Order};
ghost use Rattle.laws_machine.specs.OnReads.Ends.{most_steps_of};
ghost use Rattle.laws_machine.specs.OnReads.Scenes.{Scene};
ghost use Rattle.laws_machine.specs.OnSteps.Uses.{Uses};
ghost use Rattle.machine_commands.specs.Asked.{ReadsLine, Resets, SendsRecalibrate, SendsSeek, SensesDrive, StartsMotor};
ghost use Rattle.machine_commands.specs.Awaited.{Finishes, Prepares, SetsChannel};
ghost use Rattle.machine_commands.specs.Sending.{Sends};
ghost use Rattle.machine_commands.specs.declared.motors.Motors.{Motors};
ghost use Rattle.machine_commands.specs.declared.results.Done.{Done};
ghost use Rattle.machine_commands.specs.Shown.{rig_of};
ghost use Rattle.machine_commands.specs.Started.{IsFreshBoard};
ghost use Rattle.pc_bus.specs.Calls.{AreCalled};
ghost use Rattle.std.specs.Prelude.{◌≡◌, ◌+◌, ℕ, Bool, false, List, Result, length};

/// A driver can be set up on every machine that was new and was then used in any way, because each empty drive has its
/// change line set.
pub fn a_machine_can_be_set_up()
    ensures shown { (board : Board) → AreSetIfEmpty board → CanSetUp (rig_of board) }
    ensures used { (calls : ℕ) (made board : Board) → IsFreshBoard made → AreCalled calls made board → CanSetUp (rig_of board) }
{}

/// How many device steps each command lasts at most, apart from those of the gaps after its port accesses. The bounds
/// hold whatever the gaps, the spurious interrupts and the DMA latencies are.
///
/// A data command that goes on with a medium at speed ends, and its results are taken, within 261 device steps more
/// than two revolutions have words. Spurious interrupts don't add to this: a watch that such an interrupt ends finds no
/// results, and the steps of that watch are steps of the command.
pub fn commands_last()
    ensures resets { (old new : Board) → Resets old new → Lasts 2 old new }
    ensures asks_line { (motors : Motors) (bay : ℕ) (changed : Bool) (old new : Board) → ReadsLine motors bay old changed new → Lasts 0 old new }
    ensures asks_drive { (motors : Motors) (bay status : ℕ) (old new : Board) → SensesDrive motors bay old status new → Lasts 0 old new }
    ensures motor { (motors : Motors) (bay : ℕ) (old new : Board) → StartsMotor motors bay old new → Lasts 6250 old new }
    ensures recalibrates { (motors : Motors) (bay status : ℕ) (old new : Board) → SendsRecalibrate motors bay old status new → Lasts 81 old new }
    ensures seeks { (motors : Motors) (bay target : ℕ) (old new : Board) → SendsSeek motors bay target old new → Lasts 81 old new }
    ensures prepares { (motors : Motors) (bay : ℕ) (rate : Rate) (old new : Board) → Prepares motors bay rate old new → Lasts 0 old new }
    ensures sends { (bytes : List ℕ) (old new : Board) → Sends bytes old new → Lasts 0 old new }
    ensures channel { (mode address last : ℕ) (old new : Board) → SetsChannel mode address last old new → Lasts 0 old new }
    ensures finishes { (order : Order) (scene : Scene) (start : Board) → is_held (controller_of start) ≡ false → AreShort (holds_of start)
        → (outcome : Result Done Code) (sent new : Board) → GoesOn order scene start sent → Finishes sent outcome new
        → Lasts (most_steps_of scene.disk.words_per_track + 3) sent new }
{}

/// How many port accesses each command makes at most, and one more for each interrupt that it takes, as the gaps that are
/// used up show.
///
/// The end of a data command that goes on with a medium at speed makes 8: it looks at MSR once, and reads seven results.
/// A watch that a spurious interrupt ends looks at MSR once more, and took that interrupt.
pub fn commands_use_few_gaps()
    ensures resets { (old new : Board) → Resets old new → Uses 22 old new }
    ensures asks_line { (motors : Motors) (bay : ℕ) (changed : Bool) (old new : Board) → ReadsLine motors bay old changed new → Uses 2 old new }
    ensures asks_drive { (motors : Motors) (bay status : ℕ) (old new : Board) → SensesDrive motors bay old status new → Uses 4 old new }
    ensures motor { (motors : Motors) (bay : ℕ) (old new : Board) → StartsMotor motors bay old new → Uses 1 old new }
    ensures recalibrates { (motors : Motors) (bay status : ℕ) (old new : Board) → SendsRecalibrate motors bay old status new → Uses 6 old new }
    ensures seeks { (motors : Motors) (bay target : ℕ) (old new : Board) → SendsSeek motors bay target old new → Uses 7 old new }
    ensures prepares { (motors : Motors) (bay : ℕ) (rate : Rate) (old new : Board) → Prepares motors bay rate old new → Uses 2 old new }
    ensures sends { (bytes : List ℕ) (old new : Board) → Sends bytes old new → Uses (length bytes) old new }
    ensures channel { (mode address last : ℕ) (old new : Board) → SetsChannel mode address last old new → Uses 10 old new }
    ensures finishes { (order : Order) (scene : Scene) (start : Board) → is_held (controller_of start) ≡ false → AreShort (holds_of start)
        → (outcome : Result Done Code) (sent new : Board) → GoesOn order scene start sent → Finishes sent outcome new → Uses 8 sent new }
{}
