// A revolution, from the index to the index, that is fed to a separator.
ghost use Rattle.std.specs.Prelude.{◌≡◌, ◌↔◌, IsTrue, ◌<◌, ℕ, [], length, take};
ghost use Rattle.sector_map.specs.Common.{Chrn, IsSizeCode, content_size, IsPlain, SFollows};
ghost use Rattle.track_separator.specs.Waits.{SWaits};
ghost use Rattle.sector_map.specs.Turned.{IsHuntOver, IsPassedWithin, IsReadOver, IsTurnRead};

use flop_base::Chrn;
use track_separator::{Seen, Separator};

/// What a revolution that is fed to a separator gives of a sector.
#[derive(Clone, Copy, Debug, PartialEq, Eq)]
pub enum TurnRead {
    /// An intact data field. `deleted` says that its mark is F8.
    Found { deleted: bool },
    /// The revolution has no address mark.
    NoMark,
    /// The revolution has address marks, but no intact address field of the key.
    NoSector,
    /// The address field has no data field inside the revolution.
    NoData,
    /// The data field is there, but its CRC is wrong, or some of its cells weren't recorded.
    BadCrc,
}

/// How a hunt over a revolution ended.
#[derive(Clone, Copy)]
enum HuntEnd {
    /// The address field of the key ends in the last of this many words.
    Passed { words: usize },
    /// The revolution has no address field of the key.
    Missed { has_mark: bool },
}

/// Whether two keys are the same.
fn is_key(found: Chrn, key: Chrn) -> bool
    ensures { IsTrue result ↔ (found ≡ key) }
{
    found == key
}

/// Hunts for the first address field of the key.
fn hunt_for(separator: &mut Separator, words: &[u16], key: Chrn) -> HuntEnd
    ensures over { SFollows separator.old [] → IsPlain words.now → IsHuntOver words.now key separator.new result }
    ensures inside { IsPassedWithin words.now result }
{
    let mut has_mark = false;
    for (i, word) in words.iter().enumerate() {
        match separator.feed(*word, i + 1 == words.len()) {
            Seen::Mark => has_mark = true,
            Seen::Address { key: found } => {
                if is_key(found, key) {
                    return HuntEnd::Passed { words: i + 1 };
                }
            }
            _ => {}
        }
    }
    HuntEnd::Missed { has_mark }
}

/// Reads the data field that the separator was asked for, from word `from` on.
fn read_behind(
    separator: &mut Separator,
    words: &[u16],
    from: usize,
    content: &mut [u8],
) -> TurnRead
    requires inside { from < length words.now }
    ensures { (p n : ℕ) → IsSizeCode n → length content.old ≡ content_size n
        → SWaits separator.old (take from words.now) p (length content.old)
        → IsReadOver words.now p n content.new result }
{
    let mut taken = 0;
    let mut deleted = false;
    for i in from..words.len() {
        match separator.feed(words[i], i + 1 == words.len()) {
            Seen::Mode { deleted: mode } => deleted = mode,
            Seen::Byte { value } => {
                if taken < content.len() {
                    content[taken] = value;
                    taken += 1;
                }
            }
            Seen::End { good } => {
                if good {
                    return TurnRead::Found { deleted };
                }
                return TurnRead::BadCrc;
            }
            Seen::NoData => return TurnRead::NoData,
            _ => {}
        }
    }
    TurnRead::NoData
}

/// Feeds a whole revolution, from the index on, to a separator, and reads the first sector of the key into `content`.
/// The content counts only after the answer `Found`.
pub fn read_turn(words: &[u16], key: Chrn, content: &mut [u8]) -> TurnRead
    requires coded { IsSizeCode key.n }
    requires sized { length content.old ≡ content_size key.n }
    ensures { IsPlain words.now → IsTurnRead words.now key content.new result }
{
    let mut separator = Separator::new();
    match hunt_for(&mut separator, words, key) {
        HuntEnd::Passed { words: count } => {
            if count == words.len() {
                return TurnRead::NoData;
            }
            separator.want(content.len());
            read_behind(&mut separator, words, count, content)
        }
        HuntEnd::Missed { has_mark: true } => TurnRead::NoSector,
        HuntEnd::Missed { has_mark: false } => TurnRead::NoMark,
    }
}
