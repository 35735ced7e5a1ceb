// The stages of a writing.
ghost use Rattle.std.specs.Prelude.{◌≡◌, ◌+◌, ◌-◌, ◌≤◌, ℕ, Bool, true, false, Some, List, [], length};
ghost use Rattle.fdc_stages.specs.Common.{Separator, Chrn, IsSizeCode, content_size};
ghost use Rattle.fdc_stages.specs.Windows as windows;
ghost use Rattle.fdc_stages.specs.Windows.{lead_left, lead_behind};
ghost use Rattle.fdc_stages.specs.History.{Past, begun, heard, wrote};
ghost use Rattle.fdc_stages.specs.Searches.{IsMet};
ghost use Rattle.fdc_stages.specs.Writings.{bytes_ahead, count_ahead, is_open, opens, is_due, needs_byte, lead_of, handed_with, heard_where, IsInWindow, IsWriting, IsNextWord, HasBegun, HasWhole, HasWritten, HasNext, FailsWell, EndsWell, IsEnd, LeadsOn, write_heard, is_last, rest_behind};

use crate::{Ending, Search, Searched, Window};
use flop_base::{Chrn, sector_size};

/// The words between an address field and its window.
const GAP_WORDS: u8 = 22;

/// A stage of WRITE DATA and WRITE DELETED DATA as words pass (82077AA).
#[derive(Clone, Copy)]
pub enum WriteStage {
    /// The address field is searched for.
    Search(Search),
    /// The address field has passed. This many words are heard before the first word of the window.
    Gap { left: u8 },
    /// The write gate is open, and words of the window are written.
    Window(Window),
}

/// What a word, heard or written, gives a writing.
#[derive(Clone, Copy)]
pub enum WriteNext {
    /// The writing goes on.
    On(WriteStage),
    /// The writing is over, and an open write gate closes: NoMark, NoSector, NoField, Done or NoCount.
    Ended(Ending),
}

/// A word to be written.
#[derive(Clone, Copy)]
pub struct WriteWord {
    /// The word's sixteen cells, the first in bit 15.
    pub word: u16,
    /// The words of the window after this one, or none if it is the last.
    pub rest: Option<Window>,
}

impl WriteStage {
    /// The first stage.
    pub fn new() -> WriteStage
        ensures begins { (key : Chrn) (deleted : Bool) → IsWriting begun key deleted [] result }
        ensures lead { lead_of result ≡ 39 }
    {
        WriteStage::Search(Search::new())
    }

    /// Whether the next word is one of the window.
    pub fn is_due(&self) -> bool
        ensures { result ≡ is_due self.now }
    {
        matches!(self, WriteStage::Gap { left: 0 } | WriteStage::Window(_))
    }

    /// Whether the write gate is to be opened before the next word, which is then the first of the window.
    pub fn opens(&self) -> bool
        ensures { result ≡ opens self.now }
    {
        matches!(self, WriteStage::Gap { left: 0 })
    }

    /// Whether the write gate is open.
    pub fn is_open(&self) -> bool
        ensures { result ≡ is_open self.now }
    {
        matches!(self, WriteStage::Window(_))
    }

    /// Whether the next word is the last of the window.
    pub fn is_last(&self) -> bool
        ensures { result ≡ is_last self.now }
    {
        match self {
            WriteStage::Window(window) => window.is_last(),
            _ => false,
        }
    }

    /// Whether the next word is a byte of the content. If it is, the caller hands the byte to `write`.
    pub fn needs_byte(&self) -> bool
        ensures is { result ≡ needs_byte self.now }
        ensures lead { result ≡ true → lead_of self.now ≡ 0 }
    {
        match self {
            WriteStage::Window(window) => window.needs_byte(),
            _ => false,
        }
    }

    /// How many words pass before the last of the window, and before one that needs a byte after so many others. It is 0
    /// while the address field is searched for.
    pub fn words_with(&self, key: Chrn, bytes: usize) -> usize
        requires { IsSizeCode key.n }
        ensures { result ≡ windows.words_with bytes (bytes_ahead (content_size key.n) self.now) (count_ahead (content_size key.n) self.now) }
    {
        match self {
            WriteStage::Search(_) => 0,
            WriteStage::Gap { left } => {
                let window = Window::new(false, sector_size(key.n) as u16);
                usize::from(*left) + window.words_with(bytes)
            }
            WriteStage::Window(window) => window.words_with(bytes),
        }
    }

    /// Hears a word of the track, and gives how the writing ended, if it did. `index` says that the index pulse follows
    /// the word. If the first word of the window is due, hearing a word means that the write gate could not be opened.
    /// While the write gate is open, no word is heard.
    #[inline(always)]
    pub fn hear(&mut self, key: Chrn, word: u16, index: bool) -> Option<Ending>
        ensures hears { (past : Past) (deleted : Bool) (handed : List ℕ) → is_open self.old ≡ false
            → IsWriting past key deleted handed self.old
            → HasNext (heard_where (opens self.old) index word past) key deleted handed (write_heard self.new result) }
        ensures well { FailsWell (write_heard self.new result) }
        ensures lead { LeadsOn (lead_of self.old) (write_heard self.new result) }
        ensures stays { is_open self.old ≡ true → write_heard self.new result ≡ WriteNext.On self.old }
        ensures waits { (left : ℕ) → 1 ≤ left → self.old ≡ WriteStage.Gap left → index ≡ false
            → write_heard self.new result ≡ WriteNext.On (WriteStage.Gap (left - 1)) }
    {
        match self {
            WriteStage::Search(search) => {
                if search.pass_by(word, index) {
                    return None;
                }
                match search.hear(Some(key), word, index) {
                    Searched::On => None,
                    Searched::Met { .. } => self.meet(index),
                    Searched::Missed(ending) => Some(ending),
                }
            }
            WriteStage::Gap { left } => {
                let left = *left;
                self.wait_on(left, index)
            }
            WriteStage::Window(_) => None,
        }
    }

    /// Begins to count the words after the address field. If the index pulse follows the field, there is no window.
    #[inline(never)]
    fn meet(&mut self, index: bool) -> Option<Ending>
        ensures hears { (past : Past) (key : Chrn) (deleted : Bool) (separator : Separator) → past.place ≡ length past.seen
            → past.words ≡ [] → IsMet index past key separator → HasNext past key deleted [] (write_heard self.new result) }
        ensures well { FailsWell (write_heard self.new result) }
        ensures lead { LeadsOn 39 (write_heard self.new result) }
    {
        if index {
            return Some(Ending::NoField);
        }
        *self = WriteStage::Gap { left: GAP_WORDS };
        None
    }

    /// Hears a word after the address field. There is no window if the index pulse follows the word, or if the word
    /// stands in place of the first word of the window.
    fn wait_on(&mut self, left: u8, index: bool) -> Option<Ending>
        ensures hears { (past : Past) (word : ℕ) (key : Chrn) (deleted : Bool) (handed : List ℕ)
            → IsWriting past key deleted handed (WriteStage.Gap left)
            → HasNext (heard_where (opens (WriteStage.Gap left)) index word past) key deleted handed (write_heard self.new result) }
        ensures well { FailsWell (write_heard self.new result) }
        ensures lead { LeadsOn (left + 16) (write_heard self.new result) }
        ensures waits { 1 ≤ left → index ≡ false → write_heard self.new result ≡ WriteNext.On (WriteStage.Gap (left - 1)) }
    {
        if left == 0 {
            return Some(Ending::NoField);
        }
        if index {
            return Some(Ending::NoField);
        }
        *self = WriteStage::Gap { left: left - 1 };
        None
    }

    /// The word that is written next, if one is due. If `needs_byte` says so, `byte` is the byte that the word records.
    pub fn write(self, key: Chrn, deleted: bool, byte: u8) -> WriteWord
        requires { IsSizeCode key.n }
        ensures writes { (past : Past) (handed : List ℕ) → is_due self ≡ true → IsWriting past key deleted handed self
            → IsNextWord past key deleted (handed_with (needs_byte self) byte handed) result.word result.rest }
        ensures lead { is_due self ≡ true → lead_of self ≤ lead_behind result.rest + 1 }
    {
        let given = self.window(key, deleted).next(byte);
        WriteWord {
            word: given.word,
            rest: given.rest,
        }
    }

    /// Gives the word that `write` gives, and moves this stage on in place. The write gate is open.
    #[inline(always)]
    pub fn put(&mut self, byte: u8) -> u16
        ensures writes { (past : Past) (key : Chrn) (deleted : Bool) (handed : List ℕ) → is_open self.old ≡ true
            → IsWriting past key deleted handed self.old
            → IsNextWord past key deleted (handed_with (needs_byte self.old) byte handed) result (rest_behind (is_last self.old) self.new) }
        ensures lead { is_open self.old ≡ true → lead_of self.old ≤ lead_behind (rest_behind (is_last self.old) self.new) + 1 }
        ensures opened { is_open self.new ≡ is_open self.old }
    {
        match self {
            WriteStage::Window(window) => window.put(byte),
            _ => 0,
        }
    }

    /// How the writing ended after a word of the window was written, if it ended. `last` says that the word was the
    /// last, `index` that the index pulse follows it, and `counted` that the terminal count came. After the last word
    /// the writing is over; it ends normally only if the terminal count came. An index pulse after another word cuts
    /// the window.
    #[inline(always)]
    pub fn end(&self, last: bool, index: bool, counted: bool) -> Option<Ending>
        ensures goes_on { (past : Past) (key : Chrn) (deleted : Bool) (handed : List ℕ) (word : ℕ) → is_open self.now ≡ true
            → past.counted ≡ counted → IsNextWord past key deleted handed word (rest_behind last self.now)
            → HasNext (wrote index word past) key deleted handed (write_heard self.now result) }
        ensures well { EndsWell (write_heard self.now result) }
        ensures lead { (before : ℕ) → is_open self.now ≡ true → before ≤ lead_behind (rest_behind last self.now) + 1
            → LeadsOn before (write_heard self.now result) }
    {
        if last {
            return Some(whole_ending(counted));
        }
        if index {
            return Some(Ending::NoField);
        }
        None
    }

    /// The words of the window that are still to come.
    fn window(self, key: Chrn, deleted: bool) -> Window
        requires { IsSizeCode key.n }
        ensures is { (past : Past) (handed : List ℕ) → is_due self ≡ true → IsWriting past key deleted handed self
            → (p : ℕ) × IsInWindow past.seen past.words key deleted handed (Some result) p }
        ensures needs { is_due self ≡ true → windows.needs_byte result ≡ needs_byte self }
        ensures lead { is_due self ≡ true → lead_left result ≡ lead_of self }
    {
        match self {
            WriteStage::Window(window) => window,
            _ => Window::new(deleted, sector_size(key.n) as u16),
        }
    }
}

impl WriteWord {
    /// What the word gives the writing after it was written. `index` says that the index pulse follows the word, and
    /// `counted` that the terminal count came.
    pub fn after(self, index: bool, counted: bool) -> WriteNext
        ensures goes_on { (past : Past) (key : Chrn) (deleted : Bool) (handed : List ℕ) → past.counted ≡ counted
            → IsNextWord past key deleted handed self.word self.rest
            → HasNext (wrote index self.word past) key deleted handed result }
        ensures well { EndsWell result }
        ensures lead { (before : ℕ) → before ≤ lead_behind self.rest + 1 → LeadsOn before result }
    {
        match self.rest {
            None => WriteNext::Ended(whole_ending(counted)),
            Some(window) => {
                if index {
                    WriteNext::Ended(Ending::NoField)
                } else {
                    WriteNext::On(WriteStage::Window(window))
                }
            }
        }
    }
}

/// How a writing ends after its whole window was written. The result of a write never says that data were deleted.
fn whole_ending(counted: bool) -> Ending
    ensures is { (past : Past) (key : Chrn) (deleted : Bool) (handed : List ℕ) → past.counted ≡ counted
        → HasWhole past key deleted handed → HasBegun past key deleted handed
        → HasWritten past key deleted handed result }
    ensures well { IsEnd result }
{
    if counted {
        Ending::Done { deleted: false }
    } else {
        Ending::NoCount
    }
}
