// A track laid out anew from its sectors.
ghost use Rattle.std.specs.Prelude.{◌≡◌, ◌+◌, ◌*◌, ◌<◌, ◌≤◌, length, map, IfOk, OnOk, All, [], ◌≢◌};
ghost use Rattle.remaster.specs.Common.{words_at, IsTrackSized, IsSizeCode, IsAddressAt, content_size, sector_place, IsKey, with_window, IsSpaced, IsRegular};
ghost use Rattle.track_model.specs.Kept.{KeepsOthers};
ghost use Rattle.remaster.specs.Sectors.{AreSectors};
ghost use Rattle.remaster.specs.Fit.{HasSize, IsPlanned};
ghost use Rattle.remaster.specs.Relaid.{key_of, laid_with, HoldsSector};

use crate::sectors::Sector;
use flop_base::standard::FILL;
use flop_base::{Chrn, NoMemory, Rate, sector_size};
use sector_map::laws::cut_keeps;
use sector_map::{field_words, place_window};
use std::alloc::Global;
use track_format::laws::lay_reads;
use track_format::{LayoutError, layout};

/// The words of a sector without its content and gap 3.
const SECTOR_WORDS: usize = 62;

/// The words before the first address field: gap 4a, the index mark, gap 1 and sync.
const FIRST_FIELD: usize = 158;

/// The first cell of the address field of sector `i` of the layout, counted from 0.
fn place_of(n: u8, gap3: u8, i: usize) -> usize
    requires coded { IsSizeCode n }
    requires few { i ≤ 255 }
    ensures { result ≡ sector_place n gap3 i }
{
    16 * (FIRST_FIELD + i * (SECTOR_WORDS + sector_size(n) + usize::from(gap3)))
}

/// A key. Its parts are made known to be bytes.
fn bytes_of(key: Chrn) -> Chrn
    ensures same { result ≡ key }
    ensures bytes { IsKey result }
{
    key
}

/// The keys of sectors.
fn keys_of(alloc: Global, sectors: &[Sector]) -> Result<Vec<Chrn>, NoMemory>
    ensures keys { IfOk result (λ keys. keys.items ≡ map key_of sectors.now) }
    ensures bytes { IfOk result (λ keys. All IsKey keys.items) }
{
    let mut keys = Vec::with_capacity(alloc, sectors.len())?;
    for sector in sectors {
        keys.push(bytes_of(sector.key))?;
    }
    Ok(keys)
}

/// Writes a sector over the data field of the address field at cell `place`.
fn write_sector(
    alloc: Global,
    track: &mut [u16],
    place: usize,
    sector: &Sector,
) -> Result<(), NoMemory>
    requires sized { IsTrackSized track.old }
    requires spaced { IsSpaced track.old }
    requires address { IsAddressAt track.old place sector.now.key }
    requires size { HasSize sector.now }
    ensures written { OnOk result (track.new ≡ with_window track.old place sector.now.deleted sector.now.content) }
    ensures keeps { OnOk result (KeepsOthers track.old track.new place) }
    ensures holds { OnOk result (HoldsSector track.new place sector.now) }
{
    let content = sector.content.as_slice();
    let window = field_words(alloc, sector.deleted, content)?;
    cut_keeps(track, place, sector.deleted, content, window.len());
    place_window(track, place, &window, window.len());
    Ok(())
}

/// The track of these sectors. It is formatted with their keys, and then each sector is written.
pub(crate) fn relay(
    alloc: Global,
    sectors: &[Sector],
    n: u8,
    gap3: u8,
    rate: Rate,
    c: u8,
    h: u8,
) -> Result<Vec<u16>, NoMemory>
    requires coded { IsSizeCode n }
    requires sized { All HasSize sectors.now }
    requires planned { IsPlanned rate c h sectors.now n gap3 }
    ensures laid { IfOk result (λ track. track.items ≡ laid_with rate n gap3 sectors.now) }
    ensures long { IfOk result (λ track. length track.items ≡ words_at rate) }
    ensures regular { IfOk result (λ track. IsRegular track.items c h) }
    ensures sectors { IfOk result (λ track. AreSectors track.items sectors.now) }
{
    let keys = keys_of(alloc, sectors)?;
    let words = usize::from(rate.words());
    lay_reads(&keys, n, gap3, FILL, words);
    let mut track = match layout(alloc, &keys, n, gap3, FILL, words) {
        Ok(track) => track,
        Err(LayoutError::DoesNotFit | LayoutError::NoMemory) => return Err(NoMemory),
    };
    for (i, sector) in sectors.iter().enumerate() {
        write_sector(alloc, &mut track, place_of(n, gap3, i), sector)?;
    }
    Ok(track)
}
