// What follows of the machine's steps. The bodies are empty.
ghost use Rattle.std.specs.Prelude.{◌≡◌, ◌⊎◌, ℕ, ◌+◌, ◌%◌, ◌<◌, ◌≤◌, Bool, false, length, Some};
ghost use Rattle.laws_machine.specs.Common.{Channel, Sent, is_executing, counted, Disk, IsAddressAt, IsSizeCode, content_size, Board, controller_of, memory_of, Outputs, Rate, Chrn, met_in};
ghost use Rattle.dma_8237.specs.SetUp.{IsSetUp};
ghost use Rattle.laws_machine.specs.OnOrders.Orders.{CanBegin, Read, Underway};
ghost use Rattle.laws_machine.specs.OnQuiet.Quiet.{GoesQuietly};
ghost use Rattle.laws_machine.specs.OnQuiet.Settings.{Setting, Stands};
ghost use Rattle.laws_machine.specs.OnReads.Begins.{IsReadyIn, IsSetFor, scene_of};
ghost use Rattle.laws_machine.specs.OnReads.Results.{ReadEnded, StaysOutside};
ghost use Rattle.laws_machine.specs.OnReads.Scenes.{IsRecorded, Scene, data_rate, head_sent, track_met};
ghost use Rattle.laws_machine.specs.OnReads.Underway.{IsSet};

mod ending;
mod holding;
mod identifying;

pub use ending::{
    a_missing_mark_is_not_on_the_track, a_read_ends_in_time, a_read_is_prompt_until_a_stall,
};
pub use holding::{a_read_overruns_only_by_a_stall, a_served_request_falls};
pub use identifying::{a_read_id_begins, a_read_id_tells_of_the_track};

/// A READ DATA can begin on a machine at rest, if port accesses have set all that the command needs. The write of its
/// last byte counts one data command.
#[tactic(auto, using(crate::proofs::OnReads::Beginnings::is_set, crate::proofs::OnReads::Beginnings::can_begin))]
pub fn a_read_begins()
    ensures set { (address left : ℕ) (channel : Channel) → IsSetUp 0x46 address left channel → address % 65536 + left < 65536 → IsSet channel address left }
    ensures can_begin { (start board : Board) (set : Setting) (sent : Sent) (bay address left byte : ℕ) (disk : Disk) → IsReadyIn bay disk start → Stands set start board
        → IsSetFor sent address left byte set → address + (left + 1) ≤ length (memory_of start) → CanBegin Read (scene_of sent bay disk address (left + 1) board) byte board }
    ensures counts { (begun : ℕ) (start : Board) (scene : Scene) (byte : ℕ) (old new : Board) → Outputs 0x3F5 byte old new → CanBegin Read scene byte old
        → GoesQuietly begun start old → GoesQuietly (counted begun) start new }
{}

/// The track under the head is the one that a command meets at the rate that the controller is set to. If it has an
/// address field, it is a track of the medium, at the medium's own rate.
#[tactic(auto, using(crate::proofs::OnReads::TrackMet::met_is, crate::proofs::OnReads::TrackMet::rate_is))]
pub fn the_track_is_met()
    ensures met { (scene : Scene) (rate : Rate) → scene.rate ≡ data_rate rate → track_met scene ≡ met_in (Some scene.disk) rate scene.cylinder (head_sent scene.sent) }
    ensures recorded { (scene : Scene) (p : ℕ) (key : Chrn) → IsAddressAt (track_met scene) p key → IsRecorded scene }
    ensures rate { (scene : Scene) (rate : Rate) → scene.rate ≡ data_rate rate → IsRecorded scene → scene.disk.rate ≡ rate }
{}

/// What the results of a READ DATA say of the track under the head, if the channel was set to as many bytes as the
/// sector has. What else there is in memory stays as it was, however the command ends. DRQ is low after the command.
#[tactic(auto, using(crate::proofs::OnOrders::Ends::read_outside, crate::proofs::OnOrders::Ends::read_low))]
pub fn a_read_tells_of_the_track()
    ensures ended { (scene : Scene) (board : Board) → IsSizeCode scene.sent.key.n → scene.size ≡ content_size scene.sent.key.n
        → Underway Read scene board → ReadEnded scene board }
    ensures outside { (scene : Scene) (board : Board) → Underway Read scene board → StaysOutside scene (memory_of board) }
    ensures low { (scene : Scene) (board : Board) → Underway Read scene board → is_executing (controller_of board).phase ≡ false → (controller_of board).asking ≡ false }
{}
