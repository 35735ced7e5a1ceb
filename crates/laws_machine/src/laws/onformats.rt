// What follows of the machine's steps. The bodies are empty.
ghost use Rattle.std.specs.Prelude.{◌≡◌, ◌*◌, List};
ghost use Rattle.flop_base.specs.Standard.{standard_code};
ghost use Rattle.laws_machine.specs.Common.{Chrn, Disk, Numbers, Board};
ghost use Rattle.sector_map.specs.Layings.{Format, IsLaying, Laying, format_keys};
ghost use Rattle.laws_machine.specs.OnFormats.Results.{AreKeysOf, FormatEnded, FormatsOnly, LaysTo};
ghost use Rattle.laws_machine.specs.OnOrders.Orders.{Track, Underway, Write};
ghost use Rattle.laws_machine.specs.OnReads.Scenes.{Scene, head_sent};

mod holding;

pub use holding::a_format_begins_on_time;

/// What a FORMAT leaves, if the channel was set to the bytes of the keys. At any time memory is as it was. The medium
/// is as it was too, or the first words of the layout stand on the track under the head. The results say whether the
/// layout fits, and that the whole revolution was laid out. If the keys are those of a format of the cylinder and head,
/// this is a laying of the disk.
#[tactic(auto, using(crate::proofs::OnFormats::Results::lays_disk))]
pub fn a_format_tells_of_the_medium()
    ensures only { (scene : Scene) (numbers : Numbers) (keys : List Chrn) (board : Board) → scene.size ≡ 4 * numbers.sectors → AreKeysOf scene numbers keys
        → Underway (Write (Track numbers)) scene board → FormatsOnly scene numbers keys board }
    ensures ended { (scene : Scene) (numbers : Numbers) (keys : List Chrn) (board : Board) → scene.size ≡ 4 * numbers.sectors → AreKeysOf scene numbers keys
        → Underway (Write (Track numbers)) scene board → FormatEnded scene numbers keys board }
    ensures laying { (scene : Scene) (numbers : Numbers) (keys : List Chrn) (laying : Laying) (after : Disk) (format : Format) → head_sent scene.sent ≡ format.h
        → keys ≡ format_keys format → numbers.n ≡ standard_code → numbers.gap3 ≡ format.gap3 → numbers.fill ≡ format.fill
        → LaysTo scene numbers keys laying after → IsLaying format scene.disk laying after }
{}
