// The sectors of a track, with their contents.
ghost use Rattle.std.specs.Prelude.{◌≡◌, ◌++◌, ◌*◌, ◌+◌, OnOk, IfOk, All};
ghost use Rattle.remaster.specs.Common.{IsTrackSized, IsInside, IsSizeCode, IsAddressAt, content_size, content_at};
ghost use Rattle.remaster.specs.Looked.{HasLook};
ghost use Rattle.remaster.specs.Sectors.{AreSectors, found_at};
ghost use Rattle.remaster.specs.Fit.{HasSize};

use crate::looked::{LookedField, list_looked};
use flop_base::{Bytes, Chrn, NoMemory, sector_size};
use sector_map::{Look, content_byte};
use std::alloc::Global;

/// A sector that was found on a track: its key, whether it is marked as deleted, and its content.
#[derive(Drop)]
pub struct Sector {
    pub key: Chrn,
    pub deleted: bool,
    pub content: Bytes,
}

/// The content of a sector of size code `n` that begins at cell `place`.
fn copy_content(alloc: Global, words: &[u16], place: usize, n: u8) -> Result<Bytes, NoMemory>
    requires sized { IsTrackSized words.now }
    requires coded { IsSizeCode n }
    requires inside { IsInside words.now place (16 * (content_size n + 2)) }
    ensures { IfOk result (λ content. content ≡ content_at words.now place n) }
{
    let size = sector_size(n);
    let mut bytes = Vec::with_capacity(alloc, size)?;
    for i in 0..size {
        bytes.push(content_byte(words, place, i))?;
    }
    Ok(Bytes::of(bytes))
}

/// Adds what was found behind an address field, if it is a sector.
fn push_found(
    sectors: &mut Vec<Sector>,
    alloc: Global,
    words: &[u16],
    one: LookedField,
) -> Result<(), NoMemory>
    requires sized { IsTrackSized words.now }
    requires look { HasLook words.now one }
    ensures { OnOk result (sectors.new.items ≡ sectors.old.items ++ found_at words.now one) }
{
    let key = one.field.key;
    match one.look {
        Look::Found { deleted, place } => {
            let content = copy_content(alloc, words, place, key.n)?;
            sectors.push(Sector {
                key,
                deleted,
                content,
            })?;
        }
        Look::NoMark | Look::NoSector | Look::NoData | Look::BadCrc => {}
    }
    Ok(())
}

/// The sectors of a track in order of place. They are those of its address fields whose data are whole.
pub fn list_sectors(alloc: Global, words: &[u16]) -> Result<Vec<Sector>, NoMemory>
    requires { IsTrackSized words.now }
    ensures exact { IfOk result (λ sectors. AreSectors words.now sectors.items) }
    ensures sized { IfOk result (λ sectors. All HasSize sectors.items) }
{
    let looked = list_looked(alloc, words)?;
    let mut sectors = Vec::with_capacity(alloc, looked.len())?;
    for one in &looked {
        push_found(&mut sectors, alloc, words, *one)?;
    }
    Ok(sectors)
}
