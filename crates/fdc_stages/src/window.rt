// The words of a window, one by one.
ghost use Rattle.std.specs.Prelude.{◌≡◌, ◌+◌, ◌≤◌, ℕ, List, false, Some, None};
ghost use Rattle.fdc_stages.specs.Common.{data_byte, window};
ghost use Rattle.fdc_stages.specs.Windows.{Gives, words_left, bytes_left, count_left, lead_left, needs_byte, is_last, window_behind, words_with};

use track_model::{crc_step, encode_byte, mark_crc};

/// The cells of a mark A1, in which one clock cell is lost.
const MARK: u16 = 0x4489;

/// The number of bytes 00 before the marks less one, and the number of marks less one.
const MORE_SYNC: u8 = 11;

const MORE_MARKS: u8 = 2;

/// The number of marks.
const MARK_WORDS: usize = 3;

/// The words of a CRC.
const CRC_WORDS: usize = 2;

/// The part of a window that its next word belongs to.
#[derive(Clone, Copy)]
pub enum Part {
    /// A byte 00, with this many more after it.
    Sync { more: u8 },
    /// A mark A1, with this many more after it.
    Marks { more: u8 },
    /// The mark byte.
    Mark,
    /// A byte of the content, with this many more after it.
    Content { more: u16 },
    /// The high byte of the CRC.
    High,
    /// The low byte of the CRC.
    Low,
}

/// The words that are written over a data field and are still to come. The bytes of the content are handed in one by
/// one.
#[derive(Clone, Copy)]
pub struct Window {
    pub(crate) deleted: bool,
    /// The size of the content, less one.
    pub(crate) more: u16,
    pub(crate) part: Part,
    /// The CRC of the field so far.
    pub(crate) check: u16,
    /// The last bit of the word before.
    pub(crate) last: bool,
}

/// A word of a window.
#[derive(Clone, Copy)]
pub struct Given {
    /// The word's sixteen cells, the first in bit 15.
    pub word: u16,
    /// The words of the window after this one, or none if it is the last.
    pub rest: Option<Window>,
}

impl Window {
    /// The window of a content of this many bytes. It has 18 words, and one more for each byte (IBM System 34).
    pub fn new(deleted: bool, size: u16) -> Window
        requires { 1 ≤ size }
        ensures words { (content : List ℕ) → words_left result content ≡ window deleted content }
        ensures bytes { bytes_left result ≡ size }
        ensures count { count_left result ≡ size + 18 }
        ensures lead { lead_left result ≡ 16 }
        ensures begins { needs_byte result ≡ false }
    {
        Window {
            deleted,
            more: size - 1,
            part: Part::Sync { more: MORE_SYNC },
            check: 0,
            last: false,
        }
    }

    /// Whether the next word is a byte of the content. If it is, the caller hands the byte to `next`.
    pub fn needs_byte(&self) -> bool
        ensures { result ≡ needs_byte self.now }
    {
        matches!(self.part, Part::Content { .. })
    }

    /// Whether the next word is the last.
    pub fn is_last(&self) -> bool
        ensures { result ≡ is_last self.now }
    {
        matches!(self.part, Part::Low)
    }

    /// How many words are still to come.
    fn words_left(&self) -> usize
        ensures count { result ≡ count_left self.now }
        ensures some { 1 ≤ result }
    {
        match self.part {
            Part::Sync { more } => usize::from(more) + 1 + MARK_WORDS + self.field_words(),
            Part::Marks { more } => usize::from(more) + 1 + self.field_words(),
            Part::Mark => self.field_words(),
            Part::Content { more } => usize::from(more) + 1 + CRC_WORDS,
            Part::High => CRC_WORDS,
            Part::Low => CRC_WORDS - 1,
        }
    }

    /// The words after the marks: the mark byte, the content and the CRC.
    fn field_words(&self) -> usize
        ensures { result ≡ self.now.more + 4 }
    {
        1 + usize::from(self.more) + 1 + CRC_WORDS
    }

    /// How many bytes of the content are still to come. The CRC follows the last.
    fn bytes_left(&self) -> usize
        ensures bytes { result ≡ bytes_left self.now }
        ensures behind { 1 ≤ result → result + 2 ≤ count_left self.now }
    {
        match self.part {
            Part::Content { more } => usize::from(more) + 1,
            Part::High | Part::Low => 0,
            _ => usize::from(self.more) + 1,
        }
    }

    /// How many words come before the last, and before one that needs a byte after so many others.
    pub fn words_with(&self, bytes: usize) -> usize
        ensures { result ≡ words_with bytes (bytes_left self.now) (count_left self.now) }
    {
        let words = self.words_left();
        let more = self.bytes_left();
        if bytes < more {
            words - CRC_WORDS - (more - bytes)
        } else {
            words - 1
        }
    }

    /// The next word. If `needs_byte` says so, `byte` is the byte that the word records; otherwise `byte` isn't used.
    pub fn next(self, byte: u8) -> Given
        ensures { Gives self.part self byte result.word result.rest }
    {
        let last = self.is_last();
        let mut after = self;
        let word = after.put(byte);
        if last {
            return Given { word, rest: None };
        }
        Given {
            word,
            rest: Some(after),
        }
    }

    /// Gives the word that `next` gives, and moves this window on in place.
    pub fn put(&mut self, byte: u8) -> u16
        ensures { Gives self.old.part self.old byte result (window_behind (is_last self.old) self.new) }
    {
        match self.part {
            Part::Sync { more } => self.give_sync(more),
            Part::Marks { more } => self.give_mark_word(more),
            Part::Mark => self.give_mark(),
            Part::Content { more } => self.give_byte(more, byte),
            Part::High => self.give_high(),
            Part::Low => self.give_low(),
        }
    }

    fn give_sync(&mut self, more: u8) -> u16
        ensures { (byte : ℕ) → Gives (Part.Sync more) self.old byte result (Some self.new) }
    {
        let word = encode_byte(false, 0);
        if more == 0 {
            self.part = Part::Marks { more: MORE_MARKS };
            return word;
        }
        self.part = Part::Sync { more: more - 1 };
        word
    }

    fn give_mark_word(&mut self, more: u8) -> u16
        ensures { (byte : ℕ) → Gives (Part.Marks more) self.old byte result (Some self.new) }
    {
        if more == 0 {
            self.part = Part::Mark;
            return MARK;
        }
        self.part = Part::Marks { more: more - 1 };
        MARK
    }

    fn give_mark(&mut self) -> u16
        ensures { (byte : ℕ) → Gives Part.Mark self.old byte result (Some self.new) }
    {
        let mark = mark_byte(self.deleted);
        let check = mark_crc(mark);
        self.part = Part::Content { more: self.more };
        self.check = check;
        self.last = mark % 2 == 1;
        encode_byte(true, mark)
    }

    fn give_byte(&mut self, more: u16, byte: u8) -> u16
        ensures { Gives (Part.Content more) self.old byte result (Some self.new) }
    {
        let word = encode_byte(self.last, byte);
        let check = crc_step(self.check, byte);
        self.check = check;
        self.last = byte % 2 == 1;
        if more == 0 {
            self.part = Part::High;
            return word;
        }
        self.part = Part::Content { more: more - 1 };
        word
    }

    fn give_high(&mut self) -> u16
        ensures { (byte : ℕ) → Gives Part.High self.old byte result (Some self.new) }
    {
        let high = (self.check / 256) as u8;
        let word = encode_byte(self.last, high);
        self.part = Part::Low;
        self.last = high % 2 == 1;
        word
    }

    fn give_low(&self) -> u16
        ensures { (byte : ℕ) → Gives Part.Low self.now byte result None }
    {
        let low = (self.check % 256) as u8;
        encode_byte(self.last, low)
    }
}

/// The mark byte of a data field.
fn mark_byte(deleted: bool) -> u8
    ensures { result ≡ data_byte deleted }
{
    if deleted { 0xF8 } else { 0xFB }
}
