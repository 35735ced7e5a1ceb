// The search for an address field.
ghost use Rattle.std.specs.Prelude.{◌≡◌, ◌≤◌, ◌⊎◌, ◌↔◌, ℕ, Bool, true, false, IsTrue, MatchBool, MatchOption, Option, List, length, take};
ghost use Rattle.fdc_stages.specs.Common.{Chrn};
ghost use Rattle.fdc_stages.specs.History.{Past, begun, heard};
ghost use Rattle.fdc_stages.specs.Searches.{Wants, IsSearching, IsPassed, IsMissed, HasMissed, HasMarkIn, search_outcome, HasSearched, IsMiss, MissesWell, HearsNothingIn};

use crate::ending::Ending;
use flop_base::Chrn;
use track_separator::{Seen, Separator};

/// A search for an address field. It begins anywhere in a revolution, and ends at the second index pulse (82077AA, READ
/// DATA).
#[derive(Clone, Copy)]
pub struct Search {
    pub(crate) separator: Separator,
    /// Whether an index pulse has passed.
    pub(crate) turned: bool,
    /// Whether an address mark was heard.
    pub(crate) marked: bool,
}

/// What a word gives a search.
#[derive(Clone, Copy)]
pub enum Searched {
    /// The search goes on.
    On,
    /// An address field that is wanted ended in this word. Its data field may be asked for.
    Met { key: Chrn },
    /// The second index pulse has passed. The ending is NoMark if no address mark was heard, and else NoSector.
    Missed(Ending),
}

/// Whether the search wants an address field of this sector ID. Without a wanted sector ID it wants each one.
#[inline(never)]
fn is_wanted(wanted: Option<Chrn>, key: Chrn) -> bool
    ensures { IsTrue result ↔ Wants wanted key }
{
    match wanted {
        Some(only) => key == only,
        None => true,
    }
}

/// The sector ID of the address field that ended in a word, if it is wanted.
fn met_key(wanted: Option<Chrn>, seen: Seen) -> Option<Chrn>
    ensures { MatchOption result ((key : Chrn) → seen ≡ Seen.Address key → Wants wanted key → ⊥)
        (λ key. (seen ≡ Seen.Address key) × Wants wanted key) }
{
    match seen {
        Seen::Address { key } => {
            if is_wanted(wanted, key) {
                Some(key)
            } else {
                None
            }
        }
        _ => None,
    }
}

/// Whether an address mark was heard by now.
fn is_marked(before: bool, seen: Seen) -> bool
    ensures { MatchBool result ((before ≡ true) ⊎ (seen ≡ Seen.Mark)) ((before ≡ false) × (seen ≡ Seen.Mark → ⊥)) }
{
    match seen {
        Seen::Mark => true,
        _ => before,
    }
}

/// How a search that met nothing ends the command.
fn missed(marked: bool) -> Ending
    ensures is { (past : Past) (wanted : Option Chrn) → HasMissed past wanted
        → MatchBool marked (HasMarkIn past.turns past.seen) (HasMarkIn past.turns past.seen → ⊥)
        → IsMissed past wanted result }
    ensures well { IsMiss result }
{
    if marked {
        Ending::NoSector
    } else {
        Ending::NoMark
    }
}

impl Search {
    /// A search that begins.
    pub fn new() -> Search
        ensures { (wanted : Option Chrn) → IsSearching begun wanted result }
    {
        Search {
            separator: Separator::new(),
            turned: false,
            marked: false,
        }
    }

    /// Hears a word. `index` says that the index pulse follows the word. Without a wanted sector ID, any intact address
    /// field is met.
    #[inline(always)]
    pub fn hear(&mut self, wanted: Option<Chrn>, word: u16, index: bool) -> Searched
        ensures hears { (past : Past) → IsSearching past wanted self.old → HasSearched index (heard index word past) wanted (search_outcome self.new result) }
        ensures well { MissesWell (search_outcome self.new result) }
    {
        let seen = self.separator.feed(word, index);
        match met_key(wanted, seen) {
            Some(key) => Searched::Met { key },
            None => {
                self.marked = is_marked(self.marked, seen);
                self.go_on(index)
            }
        }
    }

    /// Hears a word if nothing is seen in it and no index pulse follows it, and says whether this was so. Otherwise
    /// nothing changes, and `hear` has to hear the word.
    #[inline(always)]
    pub fn pass_by(&mut self, word: u16, index: bool) -> bool
        ensures passed { result ≡ true → (index ≡ false)
            × ((past : Past) (wanted : Option Chrn) → IsSearching past wanted self.old → IsSearching (heard false word past) wanted self.new) }
        ensures others { result ≡ false → self.new ≡ self.old }
    {
        if index {
            return false;
        }
        self.separator.pass_by(word)
    }

    /// Hears the first of these words, for as long as nothing is seen in them, and says how many it heard. No index
    /// pulse follows any of the words.
    #[inline(always)]
    pub fn pass_many(&mut self, words: &[u16]) -> usize
        ensures within { result ≤ length words.now }
        ensures passed { HearsNothingIn (take result words.now) self.old self.new }
    {
        self.separator.hunt_many(words)
    }

    /// Goes on searching after a word in which nothing was met, unless the second index pulse followed the word.
    fn go_on(&mut self, index: bool) -> Searched
        ensures hears { (past : Past) (word : ℕ) (wanted : Option Chrn)
            → IsPassed index past word wanted self.old.separator self.old.turned self.old.marked
            → HasSearched index (heard index word past) wanted (search_outcome self.new result) }
        ensures well { MissesWell (search_outcome self.new result) }
    {
        if !index {
            return Searched::On;
        }
        if self.turned {
            return Searched::Missed(missed(self.marked));
        }
        self.turned = true;
        Searched::On
    }

    /// The separator that heard the address field that was met.
    pub fn separator(&self) -> Separator
        ensures { result ≡ self.now.separator }
    {
        self.separator
    }
}
