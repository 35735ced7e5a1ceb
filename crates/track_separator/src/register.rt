// The register: the last 128 cells, the last in bit 0.
ghost use Rattle.std.specs.Prelude.{◌≡◌, ℕ, ◌<◌, ◌≤◌, Bool, true, MatchOption};
ghost use Rattle.flop_base.specs.declared.key.Chrn.{Chrn};
ghost use Rattle.track_model.specs.Marks.{data_byte};
ghost use Rattle.track_separator.specs.Register.{IsShifted, IsNext, HasRunBits, register_byte, register_check, IsKeyIn};

use flop_base::Chrn;
use track_model::{decode_word, field_crc};

/// The register when no cell is known.
pub(crate) const BLANK: u128 = u128::MAX;

/// The cells of three marks A1 in a row.
const RUN: u64 = 0x4489_4489_4489;

/// As many ones as a run has cells.
const RUN_MASK: u64 = 0xFFFF_FFFF_FFFF;

/// The register after a word was shifted in.
pub(crate) fn shifted(cells: u128, word: u16) -> u128
    ensures { IsShifted cells word result }
{
    cells << 16 | u128::from(word)
}

/// The register after a word. A word 0000 leaves nothing in the register.
pub(crate) fn next_cells(cells: u128, word: u16) -> u128
    ensures { IsNext cells word result }
{
    if word == 0 {
        BLANK
    } else {
        shifted(cells, word)
    }
}

/// Whether no sixteen cells that end in the last word have the ones of a mark A1. If so, no run ends in that word.
fn has_no_mark_ones(recent: u64) -> bool
    ensures { result ≡ true → (back : ℕ) → back < 16 → HasRunBits recent back → ⊥ }
{
    // The ones of a mark stand 3, 4, 3 and 4 cells apart: a pair, another pair seven cells further, and the last one.
    let pairs = recent & recent >> 3;
    let fours = pairs & pairs >> 7;
    fours & recent >> 14 & 0xFFFF == 0
}

/// Whether the register has none of the ones by which a run would end in the last word. If so, no run ends in that
/// word.
pub(crate) fn ends_no_run(cells: u128) -> bool
    ensures { result ≡ true → (back : ℕ) → back < 16 → HasRunBits cells back → ⊥ }
{
    has_no_mark_ones((cells & 0xFFFF_FFFF_FFFF_FFFF) as u64)
}

/// How many cells stand behind a run that ends in the last word.
pub(crate) fn run_end(cells: u128) -> Option<u16>
    ensures { MatchOption result ((back : ℕ) → back < 16 → HasRunBits cells back → ⊥)
        (λ back. (back < 16) × HasRunBits cells back) }
{
    if ends_no_run(cells) {
        return None;
    }
    let recent = (cells & 0xFFFF_FFFF_FFFF_FFFF) as u64;
    for back in 0u16..16 {
        if recent >> back & RUN_MASK == RUN {
            return Some(back);
        }
    }
    None
}

/// The byte that has `back` cells behind it.
pub(crate) fn byte_before(cells: u128, back: u16) -> u8
    requires { back ≤ 112 }
    ensures { result ≡ register_byte cells back }
{
    decode_word((cells >> back & 0xFFFF) as u16)
}

/// The byte that has `back` cells behind it, and so ends in the last word.
pub(crate) fn last_byte(cells: u128, back: u16) -> u8
    requires { back < 16 }
    ensures { result ≡ register_byte cells back }
{
    let recent = (cells & 0xFFFF_FFFF) as u32;
    decode_word((recent >> back & 0xFFFF) as u16)
}

/// The CRC that has `back` cells behind it: two bytes.
pub(crate) fn check_before(cells: u128, back: u16) -> u16
    requires { back ≤ 96 }
    ensures { result ≡ register_check cells back }
{
    u16::from(byte_before(cells, back + 16)) << 8 | u16::from(byte_before(cells, back))
}

/// Whether the byte that has `back` cells behind it is that of a data mark. If it is, the result says whether the field
/// is deleted.
pub(crate) fn data_mark_before(cells: u128, back: u16) -> Option<bool>
    requires { back ≤ 112 }
    ensures { MatchOption result ((deleted : Bool) → register_byte cells back ≡ data_byte deleted → ⊥)
        (λ deleted. register_byte cells back ≡ data_byte deleted) }
{
    match byte_before(cells, back) {
        0xFB => Some(false),
        0xF8 => Some(true),
        _ => None,
    }
}

/// The key of an address field that has `back` cells behind it, if its CRC is right.
pub(crate) fn key_before(cells: u128, back: u16) -> Option<Chrn>
    requires { back < 16 }
    ensures { MatchOption result ((key : Chrn) → IsKeyIn cells back key → ⊥)
        (λ key. IsKeyIn cells back key) }
{
    let key = Chrn {
        c: byte_before(cells, back + 80),
        h: byte_before(cells, back + 64),
        r: byte_before(cells, back + 48),
        n: byte_before(cells, back + 32),
    };
    let check = field_crc(&[0xA1, 0xA1, 0xA1, 0xFE, key.c, key.h, key.r, key.n]);
    if check_before(cells, back) == check {
        Some(key)
    } else {
        None
    }
}
