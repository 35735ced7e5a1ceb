// The symbols of a track, and the words that record them.
ghost use Rattle.std.specs.Prelude.{◌≡◌, ℕ, ◌+◌, ◌-◌, ◌^◌, ◌<◌, ◌≤◌, List, length, slice_index_or};
ghost use Rattle.track_model.specs.Layouts.{word_after, symbol_bit, symbol_byte, before_sectors, field_symbols};
ghost use Rattle.track_format.specs.Streams.{GoesOn};
ghost use Rattle.track_model.specs.declared.symbol.Symbol.{Symbol};
ghost use Rattle.track_model.specs.declared.symbol.Symbol.TheVariants.{Byte};

use track_model::{Symbol, crc_step, decode_word, encode_byte};

/// The byte of all gaps.
pub(crate) const GAP: Symbol = Symbol::Byte(0x4E);

/// The byte of a sync.
const SYNC: Symbol = Symbol::Byte(0x00);

/// The words of a field before its bytes: sync and marks.
pub(crate) const FIELD_START: usize = 15;

// The mark A1, the CRC of three of them, and the mark C2.
const MARK_A1: u16 = 0x4489;

const MARKS_CRC: u16 = 0xCDB4;

const MARK_C2: u16 = 0x5224;

/// The word that records a symbol after a bit `last`.
pub(crate) fn word_of(last: bool, symbol: Symbol) -> u16
    ensures { result ≡ word_after last symbol }
{
    match symbol {
        Symbol::Byte(byte) | Symbol::Key(byte) => encode_byte(last, byte),
        Symbol::Mark(cells) => cells,
    }
}

/// The last bit of a symbol.
pub(crate) fn last_bit_of(symbol: Symbol) -> bool
    ensures { result ≡ symbol_bit symbol }
{
    match symbol {
        Symbol::Byte(byte) | Symbol::Key(byte) => byte % 2 == 1,
        Symbol::Mark(cells) => cells % 2 == 1,
    }
}

/// What stands at a place before the first sector.
pub(crate) fn start_symbol(place: usize) -> Symbol
    ensures { result ≡ slice_index_or before_sectors place (Byte 0x4E) }
{
    if place < 80 {
        GAP
    } else if place < 92 {
        SYNC
    } else if place < 95 {
        Symbol::Mark(MARK_C2)
    } else if place == 95 {
        Symbol::Byte(0xFC)
    } else {
        GAP
    }
}

/// The byte of a symbol.
fn byte_of(symbol: Symbol) -> u8
    ensures { result ≡ symbol_byte symbol }
{
    match symbol {
        Symbol::Byte(byte) | Symbol::Key(byte) => byte,
        Symbol::Mark(cells) => decode_word(cells),
    }
}

/// What stands at a place of a field of `count` symbols. `inner` is the symbol at that place, if the place is one of
/// these symbols. `check` is the CRC so far, over the symbols before the place.
pub(crate) fn field_symbol(place: usize, count: usize, inner: Symbol, check: u16) -> Symbol
    requires { count < 2 ^ 32 }
    ensures { (symbols : List Symbol) (behind : ℕ) → length symbols ≡ count
        → (15 ≤ place → place < 15 + count
        → inner ≡ slice_index_or symbols (place - 15) (Byte 0x4E))
        → GoesOn place check symbols
        → result ≡ slice_index_or (field_symbols symbols behind) place (Byte 0x4E) }
{
    let end = FIELD_START + count;
    if place < 12 {
        SYNC
    } else if place < FIELD_START {
        Symbol::Mark(MARK_A1)
    } else if place < end {
        inner
    } else if place == end {
        Symbol::Byte((check >> 8) as u8)
    } else if place == end + 1 {
        Symbol::Byte((check % 256) as u8)
    } else {
        GAP
    }
}

/// The CRC so far of a field of `count` symbols, after the symbol at a place.
pub(crate) fn check_behind(place: usize, count: usize, symbol: Symbol, check: u16) -> u16
    requires { count < 2 ^ 32 }
    ensures { (symbols : List Symbol) (behind : ℕ) → length symbols ≡ count
        → symbol ≡ slice_index_or (field_symbols symbols behind) place (Byte 0x4E)
        → GoesOn place check symbols → GoesOn (place + 1) result symbols }
{
    if place < FIELD_START {
        MARKS_CRC
    } else if place < FIELD_START + count {
        crc_step(check, byte_of(symbol))
    } else {
        check
    }
}
