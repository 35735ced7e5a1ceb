// The bytes of a data field.
ghost use Rattle.std.specs.Prelude.{◌≡◌, ◌≢◌, ◌<◌, ◌≤◌, ◌↔◌, ℕ, List, Bool, true, false, IsTrue, IfSome, IsNone};

use crate::register::{check_before, last_byte, shifted};
use crate::state::{Seen, Separator, Stage};
use track_model::crc_step;

/// Whether some cells of the field, up to this word, weren't recorded.
fn is_touched(before: bool, word: u16) -> bool
    ensures clean { result ≡ false → (before ≡ false) × (word ≢ 0) }
    ensures touched { result ≡ true → before ≡ false → word ≡ 0 }
{
    before || word == 0
}

/// Whether all of the field was recorded, and its stored CRC is the computed one.
fn is_good(touched: bool, stored: u16, check: u16) -> bool
    ensures { IsTrue result ↔ ((touched ≡ false) × (stored ≡ check)) }
{
    !touched && stored == check
}

impl Separator {
    ghost use Rattle.track_separator.specs.Parts.{with_word};
    ghost use Rattle.track_separator.specs.Waits.{IsReading, ReadSeenIn, SReads, SReadSeen};
    ghost use Rattle.track_separator.specs.Turns.{SAwaitsByte, SFed, IsTold};

    /// Takes one word of a data field, after `taken` bytes behind its mark.
    #[inline(always)]
    pub(crate) fn read_word(
        &mut self,
        word: u16,
        size: u16,
        taken: u16,
        check: u16,
        before: bool,
    ) -> Seen
        requires { size ≤ 8192 }
        ensures { (fed : List ℕ) (p q : ℕ) (deleted : Bool)
            → IsReading fed self.old.cells self.old.back p q deleted size taken check before
            → ReadSeenIn (with_word fed word) p q deleted size taken self.new.cells self.new.back self.new.stage result }
    {
        if taken >= size {
            return self.read_check(word, size, taken, check, before);
        }
        let value = self.content_byte(word, size, taken, check, before);
        Seen::Byte { value }
    }

    /// Takes a word that isn't the last of the revolution, if bytes of a content are left, and gives the byte of the
    /// word. Otherwise nothing changes, and the result is `None`.
    #[inline(always)]
    pub fn next_byte(&mut self, word: u16) -> Option<u8>
        ensures reads { IfSome result (λ value. (fed : List ℕ) (p q : ℕ) (deleted : Bool) (size taken : ℕ)
            → SReads self.old fed p q deleted size taken
            → SReadSeen (with_word fed word) p q deleted size taken self.new (Seen.Byte value)) }
        ensures others { IsNone result → self.new ≡ self.old }
        ensures whole { IsNone result → (fed : List ℕ) (p q : ℕ) (deleted : Bool) (size taken : ℕ)
            → SReads self.old fed p q deleted size taken → size ≤ taken }
        ensures awaited { IfSome result (λ _. SAwaitsByte self.old) }
        ensures any { IfSome result (λ _. (fed : List ℕ) → SFed self.old fed → SFed self.new (with_word fed word)) }
        ensures told { IfSome result (λ value. (fed : List ℕ) → SFed self.old fed → IsTold (with_word fed word) (Seen.Byte value)) }
    {
        match self.stage {
            Stage::Content {
                size,
                taken,
                check,
                touched,
            } => {
                if taken >= size {
                    return None;
                }
                Some(self.content_byte(word, size, taken, check, touched))
            }
            _ => None,
        }
    }

    /// Takes one word of the content, and gives its byte.
    #[inline(always)]
    fn content_byte(&mut self, word: u16, size: u16, taken: u16, check: u16, before: bool) -> u8
        requires small { size ≤ 8192 }
        requires left { taken < size }
        ensures { (fed : List ℕ) (p q : ℕ) (deleted : Bool)
            → IsReading fed self.old.cells self.old.back p q deleted size taken check before
            → ReadSeenIn (with_word fed word) p q deleted size taken self.new.cells self.new.back self.new.stage (Seen.Byte result) }
    {
        self.cells = shifted(self.cells, word);
        let value = last_byte(self.cells, self.back);
        self.stage = Stage::Content {
            size,
            taken: taken + 1,
            check: crc_step(check, value),
            touched: is_touched(before, word),
        };
        value
    }

    /// Takes one word of the CRC, after all bytes of the content.
    #[inline(never)]
    fn read_check(&mut self, word: u16, size: u16, taken: u16, check: u16, before: bool) -> Seen
        requires small { size ≤ 8192 }
        requires over { size ≤ taken }
        ensures { (fed : List ℕ) (p q : ℕ) (deleted : Bool)
            → IsReading fed self.old.cells self.old.back p q deleted size taken check before
            → ReadSeenIn (with_word fed word) p q deleted size taken self.new.cells self.new.back self.new.stage result }
    {
        self.cells = shifted(self.cells, word);
        let touched = is_touched(before, word);
        if taken == size {
            self.stage = Stage::Content {
                size,
                taken: taken + 1,
                check,
                touched,
            };
            return Seen::Nothing;
        }
        let good = is_good(touched, check_before(self.cells, self.back), check);
        self.hunt();
        Seen::End { good }
    }
}
