// Intact address fields.
ghost use Rattle.std.specs.Prelude.{MatchOption, IfOk};
ghost use Rattle.sector_map.specs.Common.{IsTrackSized, IsInside, IsAddressAt, AreAddresses, Chrn};

use crate::bytes::{byte_at_cell, is_checked};
use crate::marks::{MARK_CELLS, is_address_mark, touches_no_zero};
use flop_base::{Chrn, NoMemory};
use std::alloc::Global;
use track_model::Field;

/// The cells of an address field, from its marks to its CRC.
pub(crate) const ADDRESS_CELLS: usize = 160;

/// The key of the intact address field at cell `p`.
pub(crate) fn address_at(words: &[u16], p: usize) -> Option<Chrn>
    requires sized { IsTrackSized words.now }
    requires inside { IsInside words.now p 64 }
    ensures { MatchOption result ((key : Chrn) → IsAddressAt words.now p key → ⊥)
        (λ key. IsAddressAt words.now p key) }
{
    if p + ADDRESS_CELLS > 16 * words.len() || !is_address_mark(words, p) {
        return None;
    }
    if !touches_no_zero(words, p, ADDRESS_CELLS) || !is_checked(words, p + 48, 5) {
        return None;
    }
    Some(Chrn {
        c: byte_at_cell(words, p + 64),
        h: byte_at_cell(words, p + 80),
        r: byte_at_cell(words, p + 96),
        n: byte_at_cell(words, p + 112),
    })
}

/// All intact address fields, in order of place.
pub fn list_fields(alloc: Global, words: &[u16]) -> Result<Vec<Field>, NoMemory>
    requires { IsTrackSized words.now }
    ensures { IfOk result (λ fields. AreAddresses words.now fields.items) }
{
    let mut fields = Vec::new(alloc);
    for place in 0..16 * words.len() - (MARK_CELLS - 1) {
        if let Some(key) = address_at(words, place) {
            fields.push(Field { place, key })?;
        }
    }
    Ok(fields)
}
