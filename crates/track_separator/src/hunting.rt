// The hunt for address marks and address fields.
ghost use Rattle.std.specs.Prelude.{◌≡◌, ◌≤◌, ◌++◌, ℕ, List, length, take, true, false};

use crate::passing::{cells_behind, count_passing};
use crate::register::{byte_before, ends_no_run, key_before, next_cells, run_end};
use crate::state::{Seen, Separator, Stage};

/// The byte of an address mark.
const ADDRESS_BYTE: u8 = 0xFE;

/// How many bytes of an address field are read before the last byte of its CRC.
const BYTES_BEFORE_LAST: u8 = 6;

impl Separator {
    ghost use Rattle.track_separator.specs.Hunts.{IsAtByte, IsByteTaken};
    ghost use Rattle.track_separator.specs.Past.{HuntsPast};
    ghost use Rattle.track_separator.specs.Parts.{with_word};
    ghost use Rattle.track_separator.specs.Turns.{IsHunted, SBegins, SFed};

    /// Takes one word while the separator hunts for a run of marks.
    #[inline(always)]
    pub(crate) fn hunt_on(&mut self, word: u16) -> Seen
        requires { self.old.stage ≡ Stage.Hunting }
        ensures { IsHunted self.old word self.new result }
    {
        let cells = next_cells(self.cells, word);
        if ends_no_run(cells) {
            self.cells = cells;
            return Seen::Nothing;
        }
        self.hunt_word(word)
    }

    /// Takes a word that isn't the last of the revolution, if the separator hunts for a run of marks and no run ends in
    /// the word. Nothing is seen in such a word. The result says whether the word was taken; in a search, nearly every
    /// word is.
    #[inline(always)]
    pub fn pass_by(&mut self, word: u16) -> bool
        ensures passed { result ≡ true → IsHunted self.old word self.new Seen.Nothing }
        ensures others { result ≡ false → self.new ≡ self.old }
        ensures hunts { result ≡ true → SBegins self.old }
        ensures any { (fed : List ℕ) → result ≡ true → SFed self.old fed → SFed self.new (with_word fed word) }
    {
        match self.stage {
            Stage::Hunting => {
                let cells = next_cells(self.cells, word);
                if !ends_no_run(cells) {
                    return false;
                }
                self.cells = cells;
                true
            }
            _ => false,
        }
    }

    /// Takes the first of these words, all inside the revolution, for as long as the separator hunts for a run of marks
    /// and no run ends in them. The result is how many words it took. Nothing is seen in them.
    #[inline(never)]
    #[tactic(auto, unfolding(crate::specs::Past::HuntsPast))]
    pub fn hunt_many(&mut self, words: &[u16]) -> usize
        ensures within { result ≤ length words.now }
        ensures past { HuntsPast (take result words.now) self.old self.new }
        ensures hunts { 1 ≤ result → SBegins self.old }
        ensures any { (fed : List ℕ) → SFed self.old fed → SFed self.new (fed ++ take result words.now) }
    {
        match self.stage {
            Stage::Hunting => {
                let count = count_passing(self.cells, words);
                self.cells = cells_behind(self.cells, words, count);
                count
            }
            _ => 0,
        }
    }

    /// Takes one word while the separator hunts for address marks. A run that ends in the word begins a new field.
    #[inline(never)]
    pub(crate) fn hunt_word(&mut self, word: u16) -> Seen
        ensures { IsHunted self.old word self.new result }
    {
        self.cells = next_cells(self.cells, word);
        if let Some(back) = run_end(self.cells) {
            self.back = back;
            self.stage = Stage::Reading { bytes: 0 };
            return Seen::Nothing;
        }
        match self.stage {
            Stage::Reading { bytes } if word != 0 => self.take_byte(bytes),
            _ => {
                self.stage = Stage::Hunting;
                Seen::Nothing
            }
        }
    }

    /// Takes the byte of an address field that has just come into the register, after `bytes` bytes of the field.
    fn take_byte(&mut self, bytes: u8) -> Seen
        ensures kept { self.new.cells ≡ self.old.cells }
        ensures taken { (fed : List ℕ) (p : ℕ) → IsAtByte fed self.old.cells p bytes self.old.back
            → IsByteTaken fed p bytes self.old.back self.new.cells self.new.back self.new.stage result }
    {
        if bytes == 0 {
            if byte_before(self.cells, self.back) != ADDRESS_BYTE {
                self.stage = Stage::Hunting;
                return Seen::Nothing;
            }
            self.stage = Stage::Reading { bytes: 1 };
            return Seen::Mark;
        }
        if bytes < BYTES_BEFORE_LAST {
            self.stage = Stage::Reading { bytes: bytes + 1 };
            return Seen::Nothing;
        }
        match key_before(self.cells, self.back) {
            Some(key) => {
                self.stage = Stage::Addressed;
                Seen::Address { key }
            }
            None => {
                self.stage = Stage::Hunting;
                Seen::Nothing
            }
        }
    }
}
