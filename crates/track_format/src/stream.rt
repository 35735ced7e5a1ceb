// A formatted track word by word.
ghost use Rattle.std.specs.Prelude.{◌≡◌, ℕ, ◌+◌, ◌*◌, ◌<◌, ◌≤◌, ◌↔◌, Bool, false, List, [], IsTrue, length, drop};
ghost use Rattle.flop_base.specs.declared.key.Chrn.{Chrn};
ghost use Rattle.track_model.specs.declared.symbol.Symbol.{Symbol};
ghost use Rattle.track_model.specs.declared.symbol.Symbol.TheVariants.{Key};
ghost use Rattle.track_model.specs.Layouts.{word_after, symbol_bit, next_symbol, track_symbols};
ghost use Rattle.track_format.specs.Streams.{Gives, AsksKey, KeyIs, HasSectors, IsInPart, words_of_part};

mod saving;

use crate::gap::START_WORDS;
use crate::symbols::{
    FIELD_START, GAP, check_behind, field_symbol, last_bit_of, start_symbol, word_of,
};
use flop_base::sector_size;
use track_model::Symbol;

/// The words of an address field with gap 2.
const ADDRESS_WORDS: usize = 44;

/// The words of a data field without its content and gap 3.
const DATA_WORDS: usize = 18;

/// The bytes of an address field before its CRC: its mark byte and the key.
const ADDRESS_BYTES: usize = 5;

/// The parts of a track.
#[derive(Clone, Copy)]
enum TrackPart {
    /// Before the first sector.
    Start,
    /// An address field and gap 2.
    Address,
    /// A data field and gap 3.
    Data,
    /// Gap 4b.
    End,
}

/// The words of a formatted track one by one, and then the word of 4E for ever.
///
/// The keys of the address fields are handed in byte by byte, when they are asked for.
#[derive(Clone, Copy)]
pub struct FormatStream {
    size: u16,
    gap3: u8,
    fill: u8,
    // the sectors that haven't begun
    sectors: usize,
    part: TrackPart,
    // how many words of the part were given
    place: usize,
    // the CRC of the field so far
    check: u16,
    last: bool,
}

impl FormatStream {
    /// The track of `sectors` sectors of size code `n` (IBM System 34). Their content is `fill` bytes, with `gap3`
    /// bytes 4E behind each sector.
    pub fn new(n: u8, sectors: u8, gap3: u8, fill: u8) -> FormatStream
        requires at_least { 1 ≤ n }
        requires at_most { n ≤ 6 }
        ensures { (keys : List Chrn) → length keys ≡ sectors
            → Gives result false (track_symbols keys n gap3 fill) }
    {
        FormatStream::of_sectors(n, usize::from(sectors), gap3, fill)
    }

    /// The track of `sectors` sectors as with `new`, for any number of sectors.
    pub(crate) fn of_sectors(n: u8, sectors: usize, gap3: u8, fill: u8) -> FormatStream
        requires at_least { 1 ≤ n }
        requires at_most { n ≤ 6 }
        ensures { (keys : List Chrn) → length keys ≡ sectors
            → Gives result false (track_symbols keys n gap3 fill) }
    {
        FormatStream {
            size: sector_size(n) as u16,
            gap3,
            fill,
            sectors,
            part: TrackPart::Start,
            place: 0,
            check: 0,
            last: false,
        }
    }

    /// Whether the next word is a byte of the key of an address field. `next` has to be handed that byte.
    pub fn needs_byte(&self) -> bool
        ensures { (last : Bool) (left : List Symbol) → Gives self.now last left
            → IsTrue result ↔ AsksKey left }
    {
        match self.part {
            TrackPart::Address => is_key_place(self.place),
            _ => false,
        }
    }

    /// Whether all words up to the end of the last sector's gap 3 were given.
    pub fn is_whole(&self) -> bool
        ensures { (last : Bool) (left : List Symbol) → Gives self.now last left
            → IsTrue result ↔ left ≡ [] }
    {
        matches!(self.part, TrackPart::End)
    }

    /// The next word. If `needs_byte` says that a byte is needed, the word records `byte`; otherwise `byte` isn't used.
    pub fn next(&mut self, byte: u8) -> u16
        ensures { (last : Bool) (left : List Symbol) → Gives self.old last left → KeyIs left byte
            → (result ≡ word_after last (next_symbol left))
            × Gives self.new (symbol_bit (next_symbol left)) (drop 1 left) }
    {
        let symbol = self.symbol(byte);
        let word = word_of(self.last, symbol);
        self.last = last_bit_of(symbol);
        self.check = self.next_check(symbol);
        self.advance();
        word
    }

    // What the next word records.
    fn symbol(&self, byte: u8) -> Symbol
        ensures { (last : Bool) (left : List Symbol) → Gives self.now last left → KeyIs left byte
            → result ≡ next_symbol left }
    {
        let is_first = self.place == FIELD_START;
        match self.part {
            TrackPart::Start => start_symbol(self.place),
            TrackPart::Address => {
                let inner = if is_first {
                    Symbol::Byte(0xFE)
                } else {
                    Symbol::Key(byte)
                };
                field_symbol(self.place, ADDRESS_BYTES, inner, self.check)
            }
            TrackPart::Data => {
                let inner = Symbol::Byte(if is_first { 0xFB } else { self.fill });
                field_symbol(self.place, usize::from(self.size) + 1, inner, self.check)
            }
            TrackPart::End => GAP,
        }
    }

    // The CRC after the next symbol.
    fn next_check(&self, symbol: Symbol) -> u16
        ensures { (last : Bool) (left : List Symbol) → Gives self.now last left
            → symbol ≡ next_symbol left
            → IsInPart self.now.part self.now.sectors self.now.size self.now.gap3 self.now.fill
            (self.now.place + 1) result (drop 1 left) }
    {
        match self.part {
            TrackPart::Address => check_behind(self.place, ADDRESS_BYTES, symbol, self.check),
            TrackPart::Data => check_behind(
                self.place,
                usize::from(self.size) + 1,
                symbol,
                self.check,
            ),
            TrackPart::Start | TrackPart::End => self.check,
        }
    }

    // How many words the part has.
    fn part_words(&self) -> usize
        ensures counted { result ≡ words_of_part self.now.part self.now.size self.now.gap3 }
        ensures some { 1 ≤ result }
    {
        match self.part {
            TrackPart::Start => START_WORDS,
            TrackPart::Address => ADDRESS_WORDS,
            TrackPart::Data => DATA_WORDS + usize::from(self.size) + usize::from(self.gap3),
            TrackPart::End => 1,
        }
    }

    // Goes on to the next word, and after the last word of a part to the next part.
    fn advance(&mut self)
        ensures { (left : List Symbol)
            → self.old.place < words_of_part self.old.part self.old.size self.old.gap3
            → IsInPart self.old.part self.old.sectors self.old.size self.old.gap3 self.old.fill
            (self.old.place + 1) self.old.check left
            → Gives self.new self.old.last left }
    {
        if self.place < self.part_words() - 1 {
            self.place += 1;
            return;
        }
        self.place = 0;
        match self.part {
            TrackPart::Address => self.part = TrackPart::Data,
            TrackPart::Start | TrackPart::Data => self.begin_sector(),
            TrackPart::End => {}
        }
    }

    // Goes on to the address field of the next sector, or to gap 4b.
    fn begin_sector(&mut self)
        ensures { (left : List Symbol) → self.old.place ≡ 0
            → HasSectors self.old.sectors self.old.size self.old.gap3 self.old.fill left
            → Gives self.new self.old.last left }
    {
        if self.sectors == 0 {
            self.part = TrackPart::End;
        } else {
            self.sectors -= 1;
            self.part = TrackPart::Address;
        }
    }
}

/// Whether a byte of the key stands at a place of an address field.
fn is_key_place(place: usize) -> bool
    ensures { IsTrue result ↔ (15 < place) × (place < 20) }
{
    FIELD_START < place && place < FIELD_START + ADDRESS_BYTES
}
