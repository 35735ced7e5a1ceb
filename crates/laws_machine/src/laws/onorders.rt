// What follows of the machine's steps. The bodies are empty.
ghost use Rattle.std.specs.Prelude.{◌≡◌, ◌⊎◌, ◌≤◌, ◌+◌, ℕ, false, length};
ghost use Rattle.laws_machine.specs.Common.{is_executing, Command, Board, controller_of, memory_of, Inputs, Outputs, Runs};
ghost use Rattle.laws_machine.specs.OnOrders.Orders.{CanBegin, Leaves, Order, Underway};
ghost use Rattle.laws_machine.specs.OnOrders.Outside.{CanFetch, IsFetching};
ghost use Rattle.laws_machine.specs.OnQuiet.Quiet.{StandsStill};
ghost use Rattle.laws_machine.specs.OnReads.Results.{StaysOutside};
ghost use Rattle.laws_machine.specs.OnReads.Scenes.{Scene};
ghost use Rattle.laws_machine.specs.OnSteps.Steady.{Steady};
ghost use Rattle.laws_machine.specs.OnWrites.Guards.{LeavesOthers};
ghost use Rattle.laws_machine.specs.OnWrites.Heads.{IsIdle, RestsIdle, StaysStill};

/// Each device step keeps what is known of a READ ID, a READ DATA, a write or a FORMAT TRACK, whatever DMA latencies,
/// spurious interrupts, gaps and faults of the drive there are. So does each call that leaves the chips and the drives
/// as they are, for example one that takes the latch.
///
/// The port write that completes the bytes of the command begins it, and moves no heads. A read of a port keeps what is
/// known of the command until the last result byte was read. So does a write that leaves DOR, the rate and the channel,
/// for example a byte to the data port, or a write that clears the channel's flip-flop.
#[tactic(auto, using(crate::proofs::OnOrders::Steps::underway, crate::proofs::OnOrders::Steps::still_keeps, crate::proofs::OnOrders::Accesses::leaves_data))]
pub fn a_data_command_stays_underway()
    ensures steady { (order : Order) (scene : Scene) → Steady (Underway order scene) }
    ensures stands { (order : Order) (scene : Scene) (old new : Board) → StandsStill old new → Underway order scene old → Underway order scene new }
    ensures begins { (order : Order) (scene : Scene) (byte : ℕ) (old new : Board) → Outputs 0x3F5 byte old new → CanBegin order scene byte old → Underway order scene new }
    ensures still { (order : Order) (scene : Scene) (byte : ℕ) (old new : Board) → Outputs 0x3F5 byte old new → CanBegin order scene byte old → StaysStill old new }
    ensures leaves { (order : Order) (scene : Scene) (byte : ℕ) (old new : Board) → Outputs 0x3F5 byte old new → CanBegin order scene byte old → LeavesOthers old new }
    ensures reads { (order : Order) (scene : Scene) (port value : ℕ) (old new : Board) → Inputs port old value new → Underway order scene old
        → Underway order scene new ⊎ ((controller_of new).phase ≡ Command) }
    ensures writes { (order : Order) (scene : Scene) (port value : ℕ) (old new : Board) → Outputs port value old new → Leaves port value old → Underway order scene old
        → Underway order scene new }
    ensures ignores { (value : ℕ) (board : Board) → Leaves 0x3F5 value board }
    ensures flips { (value : ℕ) (board : Board) → Leaves 0x0C value board }
{}

/// From the write that begins a READ DATA on, no device step changes a byte outside the range that the channel was set
/// to. This holds whatever the drive is: absent, empty, spinning up, or another one selected. Nor is such a byte
/// changed by a call that leaves the chips, by a read of a port, or by a write that leaves DOR, the rate, and the
/// channel but for its flip-flop.
///
/// Once the READ DATA gives its results, the machine is idle, and it is idle after the last result byte too. While the
/// machine is idle, no byte moves at all.
#[tactic(auto, using(crate::proofs::OnOrders::Punctual::fetching, crate::proofs::OnOrders::Punctual::outside, crate::proofs::OnOrders::Punctual::still_fetching, crate::proofs::OnOrders::Punctual::idles))]
pub fn a_read_moves_bytes_of_its_range_alone()
    ensures outside { (scene : Scene) (byte n : ℕ) (old between new : Board) → CanFetch scene byte old → Outputs 0x3F5 byte old between → Runs n between new
        → StaysOutside scene (memory_of new) }
    ensures begins { (scene : Scene) (byte : ℕ) (old new : Board) → Outputs 0x3F5 byte old new → CanFetch scene byte old → IsFetching scene new }
    ensures steady { (scene : Scene) → scene.address + scene.size ≤ length scene.memory → Steady (IsFetching scene) }
    ensures ranges { (scene : Scene) (board : Board) → IsFetching scene board → StaysOutside scene (memory_of board) }
    ensures stands { (scene : Scene) (old new : Board) → StandsStill old new → IsFetching scene old → IsFetching scene new }
    ensures reads { (scene : Scene) (port value : ℕ) (old new : Board) → scene.address + scene.size ≤ length scene.memory
        → Inputs port old value new → IsFetching scene old → IsFetching scene new ⊎ ((controller_of new).phase ≡ Command) }
    ensures keeps { (scene : Scene) (port value : ℕ) (old new : Board) → scene.address + scene.size ≤ length scene.memory
        → Inputs port old value new → IsFetching scene old → StaysOutside scene (memory_of new) }
    ensures over { (scene : Scene) (port value : ℕ) (old new : Board) → scene.address + scene.size ≤ length scene.memory
        → Inputs port old value new → IsFetching scene old → (controller_of new).phase ≡ Command → RestsIdle old new }
    ensures idles { (scene : Scene) (board : Board) → IsFetching scene board → is_executing (controller_of board).phase ≡ false → IsIdle board }
    ensures writes { (scene : Scene) (port value : ℕ) (old new : Board) → scene.address + scene.size ≤ length scene.memory
        → Outputs port value old new → Leaves port value old → IsFetching scene old → IsFetching scene new }
{}
