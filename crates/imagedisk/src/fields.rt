// The sectors of a track: its address fields and the data behind them.
ghost use Rattle.std.specs.Prelude.{◌≡◌, ◌+◌, ◌*◌, ◌<◌, ◌≤◌, ℕ, List, All, OnOk, IfOk, MatchOption, length};
ghost use Rattle.imagedisk.specs.Common.{Chrn, IsTrackSized, IsInside, IsAddressAt, IsSizeCode, AreAddresses, content_size, content_at, LookAt, BadCrc};
ghost use Rattle.imagedisk.specs.Images.{IsImdSector};
ghost use Rattle.imagedisk.specs.Taken.{intact_kind, damaged_kind, Holds, IsSectorAt, AreSectorsAt, AreUniform};

use crate::{ImdKind, ImdSector, ImdSectors};
use flop_base::{Bytes, NoMemory, sector_size};
use sector_map::{Field, Look, content_byte, data_at, look_at};
use std::alloc::Global;

/// The size code of all address fields, if they all have the same one, from 1 to 6, and aren't too many for a track.
pub(crate) fn size_code_of(fields: &[Field]) -> Option<u8>
    requires { 0 < length fields.now }
    ensures { MatchOption result ((n : ℕ) → AreUniform fields.now n → ⊥) (λ n. AreUniform fields.now n) }
{
    let n = fields[0].key.n;
    if n < 1 || n > 6 || fields.len() > 255 {
        return None;
    }
    for field in fields {
        if field.key.n != n {
            return None;
        }
    }
    Some(n)
}

/// The bytes of a sector of size code `n` whose content begins at cell `place`.
#[tactic(auto, using(track_model::proofs::Sizes::content_size_bound))]
fn content_bytes(alloc: Global, words: &[u16], place: usize, n: u8) -> Result<Bytes, NoMemory>
    requires sized { IsTrackSized words.now }
    requires coded { IsSizeCode n }
    requires inside { IsInside words.now place (16 * content_size n) }
    ensures { IfOk result (λ content. content ≡ content_at words.now place n) }
{
    let size = sector_size(n);
    let mut content = Vec::with_capacity(alloc, size)?;
    for i in 0..size {
        content.push(content_byte(words, place, i))?;
    }
    Ok(Bytes::of(content))
}

fn intact_kind(deleted: bool) -> ImdKind
    ensures { result ≡ intact_kind deleted }
{
    if deleted {
        ImdKind::Deleted
    } else {
        ImdKind::Good
    }
}

fn damaged_kind(deleted: bool) -> ImdKind
    ensures { result ≡ damaged_kind deleted }
{
    if deleted {
        ImdKind::BadDeleted
    } else {
        ImdKind::Bad
    }
}

/// The bytes behind the first data mark of an address field whose data field is damaged.
fn damaged_data(alloc: Global, words: &[u16], field: Field) -> Result<(ImdKind, Bytes), NoMemory>
    requires sized { IsTrackSized words.now }
    requires address { IsAddressAt words.now field.place field.key }
    requires coded { IsSizeCode field.key.n }
    requires damaged { LookAt words.now field.place field.key.n BadCrc }
    ensures { IfOk result (λ x. Holds words.now field.place field.key.n x.0 x.1) }
{
    match data_at(words, field.place) {
        Some((deleted, place)) => {
            let content = content_bytes(alloc, words, place, field.key.n)?;
            Ok((damaged_kind(deleted), content))
        }
        // A damaged data field always has a mark.
        None => Err(NoMemory),
    }
}

/// What was found of an address field's data: their kind and their bytes.
fn data_of(alloc: Global, words: &[u16], field: Field) -> Result<(ImdKind, Bytes), NoMemory>
    requires sized { IsTrackSized words.now }
    requires address { IsAddressAt words.now field.place field.key }
    requires coded { IsSizeCode field.key.n }
    ensures { IfOk result (λ x. Holds words.now field.place field.key.n x.0 x.1) }
{
    match look_at(words, field.place, field.key.n) {
        Look::Found { deleted, place } => {
            let content = content_bytes(alloc, words, place, field.key.n)?;
            Ok((intact_kind(deleted), content))
        }
        Look::BadCrc => damaged_data(alloc, words, field),
        _ => Ok((ImdKind::Absent, Bytes::copy(alloc, &[])?)),
    }
}

/// The sector of an address field.
fn sector_of(alloc: Global, words: &[u16], field: Field) -> Result<ImdSector, NoMemory>
    requires sized { IsTrackSized words.now }
    requires address { IsAddressAt words.now field.place field.key }
    requires coded { IsSizeCode field.key.n }
    ensures at { IfOk result (λ sector. IsSectorAt words.now field sector) }
    ensures valid { IfOk result (λ sector. IsImdSector field.key.n sector) }
{
    let (kind, content) = data_of(alloc, words, field)?;
    Ok(ImdSector {
        key: field.key,
        kind,
        content,
    })
}

/// The sectors of the address fields of a track.
pub(crate) fn sectors_of(
    alloc: Global,
    words: &[u16],
    fields: &[Field],
    n: u8,
) -> Result<ImdSectors, NoMemory>
    requires sized { IsTrackSized words.now }
    requires addresses { AreAddresses words.now fields.now }
    requires uniform { AreUniform fields.now n }
    ensures at { IfOk result (λ sectors. AreSectorsAt words.now fields.now sectors) }
    ensures valid { IfOk result (λ sectors. All (IsImdSector n) sectors) }
{
    let mut sectors = ImdSectors::new(alloc);
    for field in fields {
        sectors.push(sector_of(alloc, words, *field)?)?;
    }
    Ok(sectors)
}
