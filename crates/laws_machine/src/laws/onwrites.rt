// What follows of the machine's steps. The bodies are empty.
ghost use Rattle.std.specs.Prelude.{◌≡◌, Bool, ℕ, false};
ghost use Rattle.laws_machine.specs.Common.{content_size, Disk, Change, IsChange, Result, is_overrun, Long, Ending, Results, IsCalm, Board, controller_of, drive_in};
ghost use Rattle.laws_machine.specs.OnOrders.Orders.{Underway, Window, Write};
ghost use Rattle.laws_machine.specs.OnReads.Scenes.{Scene, head_sent};
ghost use Rattle.laws_machine.specs.OnWrites.Results.{ChangesTo, WriteEnded, WritesOnly, WritesWell, written_in};

mod guarding;
mod heads;
mod holding;

pub use guarding::{
    device_steps_gate_writes, device_steps_guard_media, device_steps_leave_other_media,
};
pub use heads::{
    an_idle_machine_stays, device_steps_move_no_heads, port_accesses_leave_an_idle_machine,
};
pub use holding::{a_write_begins_on_time, device_steps_are_on_time};

/// What a write leaves, if the channel was set to as many bytes as the sector has. At any time memory is as it was. The
/// medium is as it was too, or it has one change: a first part of the window of those bytes stands behind an address
/// field of the key.
///
/// The results say how much of the window stands, or what the track under the head is. With no fault of the drive and
/// no OR, the whole window stands wherever it is inside the track. If the command's head is that of the key, this is a
/// change of the disk.
#[tactic(auto, using(crate::proofs::OnWrites::Results::changes_disk))]
pub fn a_write_tells_of_the_medium()
    ensures only { (scene : Scene) (deleted : Bool) (board : Board) → scene.size ≡ content_size scene.sent.key.n → Underway (Write (Window deleted)) scene board
        → WritesOnly scene deleted board }
    ensures ended { (scene : Scene) (deleted : Bool) (board : Board) → scene.size ≡ content_size scene.sent.key.n → Underway (Write (Window deleted)) scene board
        → WriteEnded scene deleted board }
    ensures undisturbed { (scene : Scene) (deleted : Bool) (board : Board) (ending : Ending) (results : Results) (read : ℕ)
        → scene.size ≡ content_size scene.sent.key.n → Underway (Write (Window deleted)) scene board → (controller_of board).phase ≡ Result (Long ending results read)
        → IsCalm scene.faults (drive_in board scene.bay).faults → is_overrun (controller_of board).phase ≡ false → WritesWell scene deleted (drive_in board scene.bay) }
    ensures change { (scene : Scene) (deleted : Bool) (change : Change) (after : Disk) → head_sent scene.sent ≡ scene.sent.key.h
        → ChangesTo scene deleted change after → IsChange (written_in scene deleted) scene.disk change after }
{}
