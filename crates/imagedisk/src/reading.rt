// Reading an ImageDisk file.
ghost use Rattle.std.specs.Prelude.{◌≡◌, ◌+◌, ◌*◌, ◌^◌, ◌<◌, ◌≤◌, false, All, IfOk, IfSome, length, slice_index_or};
ghost use Rattle.imagedisk.specs.Images.{AreBytes, IsImdSector, IsImdTrack, IsImdImage};
ghost use Rattle.imagedisk.specs.Headers.{has_track};
ghost use Rattle.imagedisk.specs.Left.{rest_of, Gives};
ghost use Rattle.imagedisk.specs.Reading.{text_end, tracks_begin, map_at, key_at, kind_of, content_at, sector_at, sectors_at, track_at, image_of};

use crate::header::{Header, read_header};
use crate::image::{ImdImage, ImdTracks};
use crate::left::Left;
use crate::sector::{ImdKind, ImdSector, ImdSectors};
use crate::track::ImdTrack;
use flop_base::{Bytes, Chrn, NoMemory, Rate, sector_size};
use raw_image::ImageError;
use std::alloc::Global;

/// The byte that ends the text before the tracks.
pub(crate) const TEXT_END: u8 = 0x1A;

/// The maps of a track. A map has one byte for each sector, or is empty if the track has no such map.
#[derive(Clone, Copy)]
struct Maps<'a> {
    numbers: &'a [u8],
    cylinders: &'a [u8],
    heads: &'a [u8],
}

/// Where the text before the tracks ends.
fn text_end(bytes: &[u8]) -> Option<usize>
    ensures value { result ≡ text_end bytes.now }
    ensures within { IfSome result (λ end. end < length bytes.now) }
{
    bytes.iter().position(|byte| *byte == TEXT_END)
}

/// What follows the text of a file.
fn tracks_begin(bytes: &[u8]) -> Result<Left<'_>, ImageError>
    ensures { Gives rest_of result (tracks_begin bytes.now) }
{
    if !bytes.starts_with(b"IMD ") {
        return Err(ImageError::BadMagic);
    }
    let have = bytes.len();
    let need = have + 1;
    let end = text_end(bytes).ok_or(ImageError::TooShort { need, have })?;
    let (_, tracks) = bytes.split_at(end + 1);
    Ok(Left {
        offset: end + 1,
        bytes: tracks,
    })
}

/// A map of the track. It is empty if the track has none.
fn read_map<'a>(
    is_there: bool,
    count: u8,
    left: Left<'a>,
) -> Result<(&'a [u8], Left<'a>), ImageError>
    ensures read { Gives (λ x. (x.0.now, rest_of x.1)) result (map_at is_there count (rest_of left.entry)) }
    ensures shorter { IfOk result (λ x. length x.1.bytes.now ≤ length left.entry.bytes.now) }
{
    if is_there {
        left.part(usize::from(count))
    } else {
        Ok((&[], left))
    }
}

/// The byte of a map for sector `i`, or `default` if there is no map.
fn byte_or(map: &[u8], i: u8, default: u8) -> u8
    ensures { result ≡ slice_index_or map.now i default }
{
    map.get(usize::from(i)).copied().unwrap_or(default)
}

/// The key of sector `i`.
fn key_at(header: Header, maps: Maps, i: u8) -> Chrn
    ensures { result ≡ key_at header maps.entry.numbers.now maps.entry.cylinders.now maps.entry.heads.now i }
{
    Chrn {
        c: byte_or(maps.cylinders, i, header.c),
        h: byte_or(maps.heads, i, header.h),
        r: byte_or(maps.numbers, i, 0),
        n: header.n,
    }
}

fn kind_of(type_byte: u8) -> Option<ImdKind>
    ensures { result ≡ kind_of type_byte }
{
    match type_byte {
        0 => Some(ImdKind::Absent),
        1 | 2 => Some(ImdKind::Good),
        3 | 4 => Some(ImdKind::Deleted),
        5 | 6 => Some(ImdKind::Bad),
        7 | 8 => Some(ImdKind::BadDeleted),
        _ => None,
    }
}

/// A copy of a part of the file. The copy is known to consist of bytes.
fn copy_part(alloc: Global, part: &[u8]) -> Result<Bytes, NoMemory>
    ensures same { IfOk result (λ copy. copy ≡ part.now) }
    ensures bytes { IfOk result AreBytes }
{
    Bytes::copy(alloc, part)
}

/// Reads the data of a sector of this type.
fn read_content<'a>(
    alloc: Global,
    type_byte: u8,
    size: usize,
    left: Left<'a>,
) -> Result<(Bytes, Left<'a>), ImageError>
    requires { size ≤ 8192 }
    ensures read { Gives (λ x. (x.0, rest_of x.1)) result (content_at type_byte size (rest_of left.entry)) }
    ensures bytes { IfOk result (λ x. AreBytes x.0) }
    ensures shorter { IfOk result (λ x. length x.1.bytes.now ≤ length left.entry.bytes.now) }
{
    if type_byte == 0 {
        return Ok((Bytes::copy(alloc, &[])?, left));
    }
    if type_byte % 2 == 0 {
        let (fill, after) = left.part(1)?;
        let content = vec![in alloc; fill[0]; size]?;
        return Ok((Bytes::of(content), after));
    }
    let (content, after) = left.part(size)?;
    Ok((copy_part(alloc, content)?, after))
}

/// Reads a sector. It has this key.
#[tactic(auto, unfolding(crate::specs::Reading::sector_at))]
fn read_sector<'a>(
    alloc: Global,
    key: Chrn,
    left: Left<'a>,
) -> Result<(ImdSector, Left<'a>), ImageError>
    requires at_least { 1 ≤ key.n }
    requires at_most { key.n ≤ 6 }
    ensures read { Gives (λ x. (x.0, rest_of x.1)) result (sector_at key (rest_of left.entry)) }
    ensures valid { IfOk result (λ x. IsImdSector key.n x.0) }
    ensures shorter { IfOk result (λ x. length x.1.bytes.now ≤ length left.entry.bytes.now) }
{
    let offset = left.offset;
    let (type_byte, after) = left.part(1)?;
    let kind = kind_of(type_byte[0]).ok_or(ImageError::BadField { offset })?;
    let (content, after) = read_content(alloc, type_byte[0], sector_size(key.n), after)?;
    let sector = ImdSector { key, kind, content };
    Ok((sector, after))
}

/// Reads the sectors of a track.
fn read_sectors<'a>(
    alloc: Global,
    header: Header,
    maps: Maps,
    left: Left<'a>,
) -> Result<(ImdSectors, Left<'a>), ImageError>
    requires at_least { 1 ≤ header.n }
    requires at_most { header.n ≤ 6 }
    ensures read { Gives (λ x. (x.0, rest_of x.1)) result
        (sectors_at (key_at header maps.entry.numbers.now maps.entry.cylinders.now maps.entry.heads.now) 0 header.sectors (rest_of left.entry)) }
    ensures count { IfOk result (λ x. length x.0 ≡ header.sectors) }
    ensures valid { IfOk result (λ x. All (IsImdSector header.n) x.0) }
    ensures shorter { IfOk result (λ x. length x.1.bytes.now ≤ length left.entry.bytes.now) }
{
    let mut sectors = ImdSectors::new(alloc);
    let mut rest = left;
    for i in 0..header.sectors {
        let (sector, after) = read_sector(alloc, key_at(header, maps, i), rest)?;
        sectors.push(sector)?;
        rest = after;
    }
    Ok((sectors, rest))
}

/// Reads a track and its rate. `tracks` are the tracks that came before it.
#[tactic(auto, unfolding(crate::specs::Reading::track_at))]
fn read_track<'a>(
    alloc: Global,
    before: Option<Rate>,
    tracks: &[ImdTrack],
    left: Left<'a>,
) -> Result<(Rate, ImdTrack, Left<'a>), ImageError>
    ensures read { Gives (λ x. (x.0, x.1, rest_of x.2)) result (track_at before tracks.now (rest_of left.entry)) }
    ensures valid { IfOk result (λ x. IsImdTrack x.1) }
    ensures fresh { IfOk result (λ x. has_track tracks.now x.1.c x.1.h ≡ false) }
    ensures shorter { IfOk result (λ x. length x.2.bytes.now < length left.entry.bytes.now) }
{
    let (header, after) = read_header(before, tracks, left)?;
    let count = header.sectors;
    let (numbers, after) = after.part(usize::from(count))?;
    let (cylinders, after) = read_map(header.has_cylinders, count, after)?;
    let (heads, after) = read_map(header.has_heads, count, after)?;
    let maps = Maps {
        numbers,
        cylinders,
        heads,
    };
    let (sectors, after) = read_sectors(alloc, header, maps, after)?;
    let track = ImdTrack {
        c: header.c,
        h: header.h,
        n: header.n,
        sectors,
    };
    Ok((header.rate, track, after))
}

/// The image that an ImageDisk file holds. An error is the first thing that is wrong with the file, part by part.
/// Offsets count bytes from the beginning of the file.
pub fn read_imd(alloc: Global, bytes: &[u8]) -> Result<ImdImage, ImageError>
    ensures exact { Gives (λ image. image) result (image_of bytes.now) }
    ensures valid { IfOk result IsImdImage }
{
    let mut left = tracks_begin(bytes)?;
    let mut rate = None;
    let mut tracks = ImdTracks::new(alloc);
    while !left.bytes.is_empty() {
        let (found, track, after) = read_track(alloc, rate, tracks.as_slice(), left)?;
        tracks.push(track)?;
        rate = Some(found);
        left = after;
    }
    Ok(ImdImage {
        rate: rate.unwrap_or(Rate::R500),
        tracks,
    })
}
