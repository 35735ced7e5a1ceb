// The stages of a format.
ghost use Rattle.std.specs.Prelude.{◌≡◌, ◌-◌, ◌≤◌, ℕ, Bool, true, false, List, []};
ghost use Rattle.fdc_stages.specs.Common.{Chrn};
ghost use Rattle.fdc_stages.specs.History.{Past, begun, heard, wrote};
ghost use Rattle.fdc_stages.specs.Writings.{handed_with, heard_where};
ghost use Rattle.fdc_stages.specs.Formats.{Numbers, is_open, opens, is_due, Takes, IsLaid, IsLastKey, IsFormatting, IsNextLaid, IsUnopened, HasNext, FailsWell, EndsWell, IsEnd, format_next};
ghost use Rattle.fdc_stages.specs.Leads.{StreamLeads, HasLead, LeadsOn};

use crate::Ending;
use flop_base::Chrn;
use track_format::FormatStream;

/// No sector ID. This is in the result of a format that failed, or of one without sectors.
const NO_KEY: Chrn = Chrn {
    c: 0,
    h: 0,
    r: 0,
    n: 0,
};

/// What a format does with the next word.
#[derive(Clone, Copy)]
pub enum FormatPart {
    /// The word is heard, and the index pulse is awaited.
    Await,
    /// The index pulse has passed, and the word is the first of the layout.
    Due,
    /// The write gate is open, and the word is one of the layout.
    Lay,
    /// The write gate could not be opened. The word is heard, and the second index pulse is awaited.
    Barred,
}

/// A stage of FORMAT TRACK as words pass (82077AA).
#[derive(Clone, Copy)]
pub struct FormatStage {
    pub(crate) part: FormatPart,
    /// The words of the layout that are still to come.
    pub(crate) stream: FormatStream,
    /// The last four bytes of sector IDs that were handed in.
    pub(crate) key: Chrn,
}

/// What a word, heard or written, gives a format.
#[derive(Clone, Copy)]
pub enum FormatNext {
    /// The format goes on.
    On(FormatStage),
    /// The format is over, and an open write gate closes. The ending is NoMark, NoField or Done. `key` is the sector ID
    /// of the result.
    Ended { ending: Ending, key: Chrn },
}

/// How a format is over.
#[derive(Clone, Copy)]
pub struct FormatEnd {
    pub ending: Ending,
    /// The sector ID of the result.
    pub key: Chrn,
}

/// A word to be written.
#[derive(Clone, Copy)]
pub struct FormatWord {
    /// The word's sixteen cells, the first in bit 15.
    pub word: u16,
    /// The words of the layout after this one.
    pub stream: FormatStream,
    /// The last four bytes of sector IDs that were handed in.
    pub key: Chrn,
}

impl FormatStage {
    /// The first stage, for this many sectors of size code `n`, each followed by `gap3` bytes.
    pub fn new(n: u8, sectors: u8, gap3: u8, fill: u8) -> FormatStage
        requires at_least { 1 ≤ n }
        requires at_most { n ≤ 6 }
        ensures begins { IsFormatting begun (record { n = n; sectors = sectors; gap3 = gap3; fill = fill }) [] result }
        ensures lead { HasLead result 162 }
    {
        FormatStage {
            part: FormatPart::Await,
            stream: FormatStream::new(n, sectors, gap3, fill),
            key: NO_KEY,
        }
    }

    /// Whether the next word is one of the layout.
    pub fn is_due(&self) -> bool
        ensures { result ≡ is_due self.now }
    {
        matches!(self.part, FormatPart::Due | FormatPart::Lay)
    }

    /// Whether the write gate is to be opened before the next word, which is then the first of the layout.
    pub fn opens(&self) -> bool
        ensures { result ≡ opens self.now }
    {
        matches!(self.part, FormatPart::Due)
    }

    /// Whether the write gate is open.
    pub fn is_open(&self) -> bool
        ensures { result ≡ is_open self.now }
    {
        matches!(self.part, FormatPart::Lay)
    }

    /// Whether the next word is a byte of a sector ID. If it is, the caller hands the byte to `write`.
    pub fn needs_byte(&self) -> bool
        ensures takes { is_due self.now ≡ true → Takes self.now result }
        ensures open { is_open self.now ≡ false → result ≡ false }
        ensures lead { (lead : ℕ) → HasLead self.now lead → result ≡ true → lead ≡ 0 }
    {
        match self.part {
            FormatPart::Lay => self.stream.needs_byte(),
            _ => false,
        }
    }

    /// Hears a word of the track, and gives how the format is over, if it is. `index` says that the index pulse follows
    /// the word. If the first word of the layout is due, hearing a word means that the write gate could not be opened.
    /// While the write gate is open, no word is heard.
    #[inline(always)]
    pub fn hear(&mut self, index: bool) -> Option<FormatEnd>
        ensures hears { (past : Past) (numbers : Numbers) (handed : List ℕ) (word : ℕ) → is_open self.old ≡ false
            → IsFormatting past numbers handed self.old
            → HasNext (heard_where (opens self.old) index word past) numbers handed (format_next self.new result) }
        ensures well { FailsWell (format_next self.new result) }
        ensures lead { (lead : ℕ) → HasLead self.old lead → LeadsOn lead (format_next self.new result) }
        ensures stays { is_open self.old ≡ true → format_next self.new result ≡ FormatNext.On self.old }
    {
        match self.part {
            FormatPart::Await => self.wait(index),
            FormatPart::Due => self.listen(index),
            FormatPart::Barred => self.listen(index),
            FormatPart::Lay => None,
        }
    }

    /// The word that is written next, if one is due. If `needs_byte` says so, `byte` is the byte that the word records.
    pub fn write(self, byte: u8) -> FormatWord
        ensures writes { (past : Past) (numbers : Numbers) (handed : List ℕ) (takes : Bool) → is_due self ≡ true
            → IsFormatting past numbers handed self → Takes self takes
            → IsNextLaid past numbers (handed_with takes byte handed) result.word result.stream result.key }
        ensures lead { (lead : ℕ) → HasLead self lead → StreamLeads result.stream (lead - 1) }
    {
        let mut stage = self;
        let word = stage.lay(byte);
        FormatWord {
            word,
            stream: stage.stream,
            key: stage.key,
        }
    }

    /// Gives the word that `write` gives, and moves this stage on in place.
    pub fn lay(&mut self, byte: u8) -> u16
        ensures writes { (past : Past) (numbers : Numbers) (handed : List ℕ) (takes : Bool) → is_due self.old ≡ true
            → IsFormatting past numbers handed self.old → Takes self.old takes
            → IsNextLaid past numbers (handed_with takes byte handed) result self.new.stream self.new.key }
        ensures lead { (lead : ℕ) → HasLead self.old lead → HasLead self.new (lead - 1) }
        ensures part { self.new.part ≡ self.old.part }
    {
        let key = key_behind(self.stream.needs_byte(), self.key, byte);
        self.key = key;
        self.stream.next(byte)
    }

    /// How the format is over after a word of the layout was written, if it is. `index` says that the index pulse
    /// follows the word. At the index pulse the format is over. It ends normally if the whole layout was written,
    /// whether the terminal count came or not: EN (end of cylinder) is for commands that name a sector and the last one
    /// of its track. A layout that is longer than the revolution has no data field for each sector ID, so the ending is
    /// NoField.
    #[inline(always)]
    pub fn end(&self, index: bool) -> Option<FormatEnd>
        ensures goes_on { (past : Past) (numbers : Numbers) (handed : List ℕ) (word : ℕ) → is_open self.now ≡ true
            → IsNextLaid past numbers handed word self.now.stream self.now.key
            → HasNext (wrote index word past) numbers handed (format_next self.now result) }
        ensures well { EndsWell (format_next self.now result) }
        ensures lead { (lead : ℕ) → HasLead self.now lead → LeadsOn lead (format_next self.now result) }
    {
        if !index {
            return None;
        }
        Some(self.end_at_index())
    }

    /// How the format is over at the index pulse.
    #[inline(never)]
    fn end_at_index(&self) -> FormatEnd
        ensures goes_on { (past : Past) (numbers : Numbers) (handed : List ℕ) (word : ℕ)
            → IsNextLaid past numbers handed word self.now.stream self.now.key
            → HasNext (wrote true word past) numbers handed (FormatNext.Ended result.ending result.key) }
        ensures well { IsEnd result.ending }
    {
        if !self.stream.is_whole() {
            return FormatEnd {
                ending: Ending::NoField,
                key: NO_KEY,
            };
        }
        FormatEnd {
            ending: Ending::Done { deleted: false },
            key: self.key,
        }
    }

    /// Awaits the index pulse at which the layout begins.
    #[inline(always)]
    fn wait(&mut self, index: bool) -> Option<FormatEnd>
        ensures hears { (past : Past) (numbers : Numbers) (handed : List ℕ) (word : ℕ) → self.old.part ≡ FormatPart.Await
            → IsFormatting past numbers handed self.old → HasNext (heard index word past) numbers handed (format_next self.new result) }
        ensures well { FailsWell (format_next self.new result) }
        ensures lead { (lead : ℕ) → HasLead self.old lead → LeadsOn lead (format_next self.new result) }
    {
        if index {
            self.part = FormatPart::Due;
        }
        None
    }

    /// Awaits the second index pulse without an open write gate.
    #[inline(never)]
    fn listen(&mut self, index: bool) -> Option<FormatEnd>
        ensures hears { (past : Past) (numbers : Numbers) (handed : List ℕ) → IsUnopened index past
            → IsLaid past.words numbers handed self.old.stream → IsLastKey handed self.old.key
            → HasNext past numbers handed (format_next self.new result) }
        ensures well { FailsWell (format_next self.new result) }
        ensures lead { (lead : ℕ) → HasLead self.old lead → LeadsOn lead (format_next self.new result) }
    {
        if index {
            return Some(FormatEnd {
                ending: Ending::NoMark,
                key: NO_KEY,
            });
        }
        self.part = FormatPart::Barred;
        None
    }
}

impl FormatWord {
    /// What the word gives the format after it was written. `index` says that the index pulse follows the word.
    pub fn after(self, index: bool) -> FormatNext
        ensures goes_on { (past : Past) (numbers : Numbers) (handed : List ℕ)
            → IsNextLaid past numbers handed self.word self.stream self.key
            → HasNext (wrote index self.word past) numbers handed result }
        ensures well { EndsWell result }
        ensures lead { (lead : ℕ) → StreamLeads self.stream lead → LeadsOn lead result }
    {
        let stage = FormatStage {
            part: FormatPart::Lay,
            stream: self.stream,
            key: self.key,
        };
        match stage.end(index) {
            None => FormatNext::On(stage),
            Some(end) => FormatNext::Ended {
                ending: end.ending,
                key: end.key,
            },
        }
    }
}

/// The last four bytes of sector IDs after a word, which takes a byte or doesn't.
fn key_behind(takes: bool, key: Chrn, byte: u8) -> Chrn
    ensures { (handed : List ℕ) → IsLastKey handed key → IsLastKey (handed_with takes byte handed) result }
{
    if !takes {
        return key;
    }
    Chrn {
        c: key.h,
        h: key.r,
        r: key.n,
        n: byte,
    }
}
