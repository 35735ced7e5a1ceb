// What follows of the machine's steps. The bodies are empty.
ghost use Rattle.std.specs.Prelude.{◌≡◌, ℕ, false};
ghost use Rattle.laws_machine.specs.OnOrders.Orders.{CanBegin, Identify, Underway};
ghost use Rattle.laws_machine.specs.OnReads.Ids.{IdEnded, IsSetForId, id_scene};
ghost use Rattle.laws_machine.specs.Common.{counted, Board, controller_of, memory_of, Outputs, Disk};
ghost use Rattle.laws_machine.specs.OnQuiet.Quiet.{GoesQuietly};
ghost use Rattle.laws_machine.specs.OnQuiet.Settings.{Setting, Stands};
ghost use Rattle.laws_machine.specs.OnReads.Begins.{IsReadyIn};
ghost use Rattle.laws_machine.specs.OnReads.Scenes.{Scene};

/// A READ ID can begin on a machine at rest with a medium at speed, if all its bytes but the last were sent. The last
/// byte begins the command, and counts one data command.
#[tactic(auto, using(crate::proofs::OnReads::Beginnings::id_can_begin))]
pub fn a_read_id_begins()
    ensures can_begin { (start board : Board) (set : Setting) (head_drive bay byte : ℕ) (disk : Disk) → IsReadyIn bay disk start → Stands set start board
        → IsSetForId head_drive byte set → CanBegin Identify (id_scene head_drive bay disk board) byte board }
    ensures begins { (scene : Scene) (byte : ℕ) (old new : Board) → Outputs 0x3F5 byte old new → CanBegin Identify scene byte old → Underway Identify scene new }
    ensures counts { (begun : ℕ) (start : Board) (scene : Scene) (byte : ℕ) (old new : Board) → Outputs 0x3F5 byte old new → CanBegin Identify scene byte old
        → GoesQuietly begun start old → GoesQuietly (counted begun) start new }
{}

/// What the results of a READ ID say of the track under the head. Memory is as it was, and DRQ is low.
#[tactic(auto, using(crate::proofs::OnOrders::Ends::id_memory, crate::proofs::OnOrders::Ends::id_low))]
pub fn a_read_id_tells_of_the_track()
    ensures ended { (scene : Scene) (board : Board) → Underway Identify scene board → IdEnded scene board }
    ensures memory { (scene : Scene) (board : Board) → Underway Identify scene board → memory_of board ≡ scene.memory }
    ensures low { (scene : Scene) (board : Board) → Underway Identify scene board → (controller_of board).asking ≡ false }
{}
