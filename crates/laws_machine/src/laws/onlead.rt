// What follows of the machine's steps. The bodies are empty.
ghost use Rattle.std.specs.Prelude.{◌≡◌, ◌⊎◌, ◌*◌, ℕ, Bool, List};
ghost use Rattle.laws_machine.specs.Common.{Results, Long, Command, Result, Done, Numbers, Chrn, Board, controller_of, memory_of, Inputs, Outputs, IsSizeCode, content_size};
ghost use Rattle.laws_machine.specs.OnFormats.Results.{AreKeysOf, FormatEnded};
ghost use Rattle.laws_machine.specs.OnLead.Leads.{CanWarm, WarmsUp};
ghost use Rattle.laws_machine.specs.OnOrders.Orders.{CanBegin, Identify, Laid, Leaves, Order, Read, Track, Window, Write};
ghost use Rattle.laws_machine.specs.OnOrders.Results.{IsFor, Only};
ghost use Rattle.laws_machine.specs.OnQuiet.Quiet.{StandsStill};
ghost use Rattle.laws_machine.specs.OnReads.Ids.{IdEnded};
ghost use Rattle.laws_machine.specs.OnReads.Results.{ReadEnded, StaysOutside};
ghost use Rattle.laws_machine.specs.OnReads.Scenes.{Scene};
ghost use Rattle.laws_machine.specs.OnSteps.Steady.{Steady};
ghost use Rattle.laws_machine.specs.OnWrites.Results.{WriteEnded};

/// A READ ID, READ DATA, write or FORMAT TRACK whose medium may not be at speed yet when its last byte is written
/// begins and goes on as any other. It goes on through device steps, reads of ports, and writes that leave DOR, the
/// rate and the channel. If its results say IC 00, they mean what they mean at speed. For a READ DATA, a sector of the
/// key is on the track and in memory; for a READ ID, the key is that of an address field. If the drive had no fault,
/// the whole window of a write stands, and the whole revolution of a FORMAT TRACK is laid out. At any time, a READ DATA
/// has changed memory in its range alone. A command that writes has left the medium as it was, or the first words of
/// what it writes stand there.
#[tactic(auto, using(crate::proofs::OnLead::Laying::warming, crate::proofs::OnLead::Spinning::read_outside, crate::proofs::OnLead::Written::only, crate::proofs::OnLead::Laying::still_keeps, crate::proofs::OnLead::Laying::can_warm, crate::proofs::OnLead::Spinning::id_memory))]
pub fn a_command_begun_before_speed()
    ensures steady { (order : Order) (scene : Scene) → Steady (WarmsUp order scene) }
    ensures stands { (order : Order) (scene : Scene) (old new : Board) → StandsStill old new → WarmsUp order scene old → WarmsUp order scene new }
    ensures can_begin { (order : Order) (scene : Scene) (byte : ℕ) (board : Board) → CanBegin order scene byte board → CanWarm order scene byte board }
    ensures begins { (order : Order) (scene : Scene) (byte : ℕ) (old new : Board) → Outputs 0x3F5 byte old new → CanWarm order scene byte old → WarmsUp order scene new }
    ensures reads { (order : Order) (scene : Scene) (port value : ℕ) (old new : Board) → Inputs port old value new → WarmsUp order scene old
        → WarmsUp order scene new ⊎ ((controller_of new).phase ≡ Command) }
    ensures writes { (order : Order) (scene : Scene) (port value : ℕ) (old new : Board) → Outputs port value old new → Leaves port value old → WarmsUp order scene old
        → WarmsUp order scene new }
    ensures found { (scene : Scene) (board : Board) (deleted : Bool) (results : Results) (taken : ℕ) → IsSizeCode scene.sent.key.n → scene.size ≡ content_size scene.sent.key.n
        → WarmsUp Read scene board → (controller_of board).phase ≡ Result (Long (Done deleted) results taken) → ReadEnded scene board }
    ensures outside { (scene : Scene) (board : Board) → WarmsUp Read scene board → StaysOutside scene (memory_of board) }
    ensures unmoved { (scene : Scene) (board : Board) → WarmsUp Identify scene board → memory_of board ≡ scene.memory }
    ensures identified { (scene : Scene) (board : Board) (deleted : Bool) (results : Results) (taken : ℕ) → WarmsUp Identify scene board
        → (controller_of board).phase ≡ Result (Long (Done deleted) results taken) → IdEnded scene board }
    ensures written { (scene : Scene) (deleted : Bool) (board : Board) (marked : Bool) (results : Results) (taken : ℕ) → scene.size ≡ content_size scene.sent.key.n
        → WarmsUp (Write (Window deleted)) scene board → (controller_of board).phase ≡ Result (Long (Done marked) results taken) → WriteEnded scene deleted board }
    ensures laid { (scene : Scene) (numbers : Numbers) (keys : List Chrn) (board : Board) (marked : Bool) (results : Results) (taken : ℕ) → scene.size ≡ 4 * numbers.sectors
        → AreKeysOf scene numbers keys → WarmsUp (Write (Track numbers)) scene board → (controller_of board).phase ≡ Result (Long (Done marked) results taken)
        → FormatEnded scene numbers keys board }
    ensures only { (laid : Laid) (scene : Scene) (keys : List Chrn) (board : Board) → IsFor laid scene keys → WarmsUp (Write laid) scene board → Only laid scene keys board }
{}
