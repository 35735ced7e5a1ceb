// The address fields of a track, each with what is found behind it.
ghost use Rattle.std.specs.Prelude.{IfOk, ◌≤◌, ◌↔◌, IsTrue};
ghost use Rattle.remaster.specs.Common.{IsTrackSized, IsAddressAt, IsSizeCode, LookAt};
ghost use Rattle.remaster.specs.Looked.{AreLooked};

use flop_base::NoMemory;
use sector_map::{Field, Look, list_fields, look_at};
use std::alloc::Global;

/// An intact address field, and the look at it.
#[derive(Clone, Copy, Debug, PartialEq, Eq)]
pub struct LookedField {
    pub field: Field,
    /// The look at the field. It is `NoData` if the size code names no size.
    pub look: Look,
}

/// Whether a size code names a size.
pub(crate) fn is_size_code(n: u8) -> bool
    ensures { IsTrue result ↔ IsSizeCode n }
{
    1 <= n && n <= 6
}

fn look_of(words: &[u16], field: Field) -> Look
    requires sized { IsTrackSized words.now }
    requires address { IsAddressAt words.now field.place field.key }
    ensures { LookAt words.now field.place field.key.n result }
{
    if is_size_code(field.key.n) {
        look_at(words, field.place, field.key.n)
    } else {
        Look::NoData
    }
}

/// All intact address fields in order of place, each with the look at it.
pub fn list_looked(alloc: Global, words: &[u16]) -> Result<Vec<LookedField>, NoMemory>
    requires { IsTrackSized words.now }
    ensures { IfOk result (λ looked. AreLooked words.now looked.items) }
{
    let fields = list_fields(alloc, words)?;
    let mut looked = Vec::with_capacity(alloc, fields.len())?;
    for field in &fields {
        let look = look_of(words, *field);
        looked.push(LookedField {
            field: *field,
            look,
        })?;
    }
    Ok(looked)
}
