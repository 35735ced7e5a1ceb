// The stages of a reading.
ghost use Rattle.std.specs.Prelude.{◌≡◌, ◌≤◌, ℕ, Bool, true, false, List, [], length, Some, IfSome, IsNone};
ghost use Rattle.fdc_stages.specs.Common.{IsSizeCode, content_size, IsAddressAt, Chrn};
ghost use Rattle.fdc_stages.specs.History.{Past, begun, heard};
ghost use Rattle.fdc_stages.specs.Searches.{IsMet, IsSearching};
ghost use Rattle.fdc_stages.specs.Readings.{IsOver, IsWaitingAt, IsContentAt, IsReading, HasRead, read_outcome, HasHeard, FailsWell, IsFailure, KeepsMark, PassesBy, HearsByte, IsContent, IsWhole};

use crate::ending::Ending;
use crate::searching::{Search, Searched};
use flop_base::{Chrn, sector_size};
use track_separator::{Seen, Separator};

/// A stage of READ DATA as words pass (82077AA, READ DATA).
#[derive(Clone, Copy)]
pub enum ReadStage {
    /// The address field is searched for.
    Search(Search),
    /// The data mark is awaited.
    Wait(Separator),
    /// The data field is read. `deleted` says that its mark is F8.
    Content { separator: Separator, deleted: bool },
    /// The data field is over. `good` says that it is whole.
    Over { deleted: bool, good: bool },
}

/// What a word gives a reading.
#[derive(Clone, Copy)]
pub enum ReadHeard {
    /// The reading goes on.
    On,
    /// The next byte of the content came.
    Byte { value: u8 },
    /// The reading failed: NoMark, NoSector, or NoField if there is no data field.
    Ended(Ending),
}

impl ReadStage {
    /// The first stage.
    pub fn new() -> ReadStage
        ensures { (key : Chrn) → IsReading begun key [] result }
    {
        ReadStage::Search(Search::new())
    }

    /// Hears a word of the track, for the sector of this sector ID. `index` says that the index pulse follows the word.
    #[inline(always)]
    pub fn hear(&mut self, key: Chrn, word: u16, index: bool) -> ReadHeard
        requires { IsSizeCode key.n }
        ensures hears { (past : Past) (told : List ℕ) → IsReading past key told self.old
            → HasHeard (heard index word past) key told (read_outcome self.new result) }
        ensures well { FailsWell (read_outcome self.new result) }
        ensures mark { KeepsMark self.old (read_outcome self.new result) }
    {
        match self {
            ReadStage::Search(search) => match search.hear(Some(key), word, index) {
                Searched::On => ReadHeard::On,
                Searched::Met { .. } => self.meet(key, index),
                Searched::Missed(ending) => ReadHeard::Ended(ending),
            },
            ReadStage::Wait(_separator) => self.hear_wait(word, index),
            ReadStage::Content { separator, deleted } => match separator.feed(word, index) {
                Seen::Byte { value } => ReadHeard::Byte { value },
                Seen::End { good } => {
                    let deleted = *deleted;
                    *self = ReadStage::Over { deleted, good };
                    ReadHeard::On
                }
                Seen::NoData => ReadHeard::Ended(Ending::NoField),
                _ => ReadHeard::On,
            },
            ReadStage::Over { .. } => ReadHeard::On,
        }
    }

    /// Hears a word of a search if nothing is seen in it and no index pulse follows it, and says whether this was so.
    /// Otherwise nothing changes, and `hear` has to hear the word.
    #[inline(always)]
    pub fn pass_by(&mut self, word: u16, index: bool) -> bool
        ensures passed { result ≡ true → (index ≡ false) × PassesBy word self.old self.new }
        ensures others { result ≡ false → self.new ≡ self.old }
    {
        match self {
            ReadStage::Search(search) => search.pass_by(word, index),
            _ => false,
        }
    }

    /// Hears a word after which no index pulse comes, if bytes of a content are left, and gives its byte. Otherwise
    /// nothing changes, and `hear` has to hear the word.
    #[inline(always)]
    pub fn next_byte(&mut self, word: u16) -> Option<u8>
        ensures heard { IfSome result (λ value. HearsByte word value self.old self.new) }
        ensures others { IsNone result → self.new ≡ self.old }
        ensures whole { IsNone result → IsContent self.old → IsWhole self.old }
    {
        match self {
            ReadStage::Content { separator, .. } => separator.next_byte(word),
            _ => None,
        }
    }

    /// Hears a word while the data mark is awaited.
    #[inline(never)]
    fn hear_wait(&mut self, word: u16, index: bool) -> ReadHeard
        ensures hears { (key : Chrn) (past : Past) (told : List ℕ) (separator : Separator) → self.old ≡ ReadStage.Wait separator
            → IsReading past key told self.old → HasHeard (heard index word past) key told (read_outcome self.new result) }
        ensures well { FailsWell (read_outcome self.new result) }
    {
        match self {
            ReadStage::Wait(separator) => match separator.feed(word, index) {
                Seen::Mode { deleted } => {
                    let separator = *separator;
                    *self = ReadStage::Content { separator, deleted };
                    ReadHeard::On
                }
                Seen::NoData => ReadHeard::Ended(Ending::NoField),
                _ => ReadHeard::On,
            },
            _ => ReadHeard::On,
        }
    }

    /// Begins to wait for the data field of the address field that a search met. An address field that ended with its
    /// revolution has no data field.
    #[inline(never)]
    fn meet(&mut self, key: Chrn, index: bool) -> ReadHeard
        requires { IsSizeCode key.n }
        ensures hears { (past : Past) (search : Search) → self.old ≡ ReadStage.Search search → IsMet index past key search.separator
            → HasHeard past key [] (read_outcome self.new result) }
        ensures well { FailsWell (read_outcome self.new result) }
    {
        match self {
            ReadStage::Search(search) => {
                if index {
                    return ReadHeard::Ended(Ending::NoField);
                }
                let mut separator = search.separator;
                separator.want(sector_size(key.n));
                *self = ReadStage::Wait(separator);
                ReadHeard::On
            }
            _ => ReadHeard::On,
        }
    }
}
