// Writing an ImageDisk file.
ghost use Rattle.std.specs.Prelude.{◌≡◌, ◌++◌, ◌≤◌, Ok, OnOk, IfOk, length};
ghost use Rattle.imagedisk.specs.Common.{flat_map};
ghost use Rattle.imagedisk.specs.Images.{IsImdTrack, IsImdImage};
ghost use Rattle.imagedisk.specs.Reading.{image_of};
ghost use Rattle.imagedisk.specs.Writing.{part_of, map_of, differs, needed_map, head_byte, full_type, is_all, sector_bytes, track_bytes, file_of};

use crate::header::{CYLINDER_MAP, HEAD_MAP, mode_byte};
use crate::image::ImdImage;
use crate::sector::{ImdKind, ImdSector};
use crate::track::ImdTrack;
use flop_base::{Chrn, NoMemory, Rate};
use std::alloc::Global;

/// A part of a key. A map has one byte of such a part for each sector.
#[derive(Clone, Copy)]
enum KeyPart {
    Cylinder,
    Head,
    Number,
}

fn part_of(part: KeyPart, key: Chrn) -> u8
    ensures { result ≡ part_of part key }
{
    match part {
        KeyPart::Cylinder => key.c,
        KeyPart::Head => key.h,
        KeyPart::Number => key.r,
    }
}

/// Whether this part of some sector's key isn't `value`.
fn differs(part: KeyPart, value: u8, sectors: &[ImdSector]) -> bool
    ensures { result ≡ differs part value sectors.now }
{
    sectors
        .iter()
        .any(|sector| part_of(part, sector.key) != value)
}

/// Adds a map.
fn put_map(out: &mut Vec<u8>, part: KeyPart, sectors: &[ImdSector]) -> Result<(), NoMemory>
    ensures { OnOk result (out.new.items ≡ out.old.items ++ map_of part sectors.now) }
{
    for sector in sectors {
        out.push(part_of(part, sector.key))?;
    }
    Ok(())
}

/// The type of a sector that is written with all its bytes.
fn full_type(kind: ImdKind) -> u8
    ensures value { result ≡ full_type kind }
    ensures most { result ≤ 7 }
{
    match kind {
        ImdKind::Absent => 0,
        ImdKind::Good => 1,
        ImdKind::Deleted => 3,
        ImdKind::Bad => 5,
        ImdKind::BadDeleted => 7,
    }
}

/// Whether all bytes are `fill`.
fn is_all(content: &[u8], fill: u8) -> bool
    ensures { result ≡ is_all fill content.now }
{
    content.iter().all(|byte| *byte == fill)
}

/// Adds a sector.
fn put_sector(out: &mut Vec<u8>, sector: &ImdSector) -> Result<(), NoMemory>
    ensures { OnOk result (out.new.items ≡ out.old.items ++ sector_bytes sector.now) }
{
    let full = full_type(sector.kind);
    if full == 0 {
        out.push(0)?;
        return Ok(());
    }
    let content = sector.content.as_slice();
    let first = content.first().copied().unwrap_or(0);
    if is_all(content, first) {
        out.push(full + 1)?;
        out.push(first)?;
    } else {
        out.push(full)?;
        out.extend_from_slice(content)?;
    }
    Ok(())
}

/// Adds the sectors of a track.
fn put_sectors(out: &mut Vec<u8>, sectors: &[ImdSector]) -> Result<(), NoMemory>
    ensures { OnOk result (out.new.items ≡ out.old.items ++ flat_map sector_bytes sectors.now) }
{
    for sector in sectors {
        put_sector(out, sector)?;
    }
    Ok(())
}

/// Adds a map, if one is needed.
fn put_needed_map(
    out: &mut Vec<u8>,
    part: KeyPart,
    value: u8,
    sectors: &[ImdSector],
) -> Result<(), NoMemory>
    ensures { OnOk result (out.new.items ≡ out.old.items ++ needed_map part value sectors.now) }
{
    if differs(part, value, sectors) {
        put_map(out, part, sectors)?;
    }
    Ok(())
}

/// The head byte of a track.
fn head_byte(track: &ImdTrack) -> u8
    requires { track.now.h ≤ 1 }
    ensures { result ≡ head_byte track.now }
{
    let sectors = track.sectors.as_slice();
    let mut byte = track.h;
    if differs(KeyPart::Cylinder, track.c, sectors) {
        byte += CYLINDER_MAP;
    }
    if differs(KeyPart::Head, track.h, sectors) {
        byte += HEAD_MAP;
    }
    byte
}

/// Adds a track.
fn put_track(out: &mut Vec<u8>, rate: Rate, track: &ImdTrack) -> Result<(), NoMemory>
    requires { IsImdTrack track.now }
    ensures { OnOk result (out.new.items ≡ out.old.items ++ track_bytes rate track.now) }
{
    let sectors = track.sectors.as_slice();
    out.push(mode_byte(rate))?;
    out.push(track.c)?;
    out.push(head_byte(track))?;
    out.push(sectors.len() as u8)?;
    out.push(track.n)?;
    put_map(out, KeyPart::Number, sectors)?;
    put_needed_map(out, KeyPart::Cylinder, track.c, sectors)?;
    put_needed_map(out, KeyPart::Head, track.h, sectors)?;
    put_sectors(out, sectors)
}

/// The ImageDisk file of an image. A sector whose bytes are all equal is written with that byte alone, and a map is
/// written only if it is needed. It fails if memory runs out.
pub fn write_imd(alloc: Global, image: &ImdImage) -> Result<Vec<u8>, NoMemory>
    requires { IsImdImage image.now }
    ensures spelled { IfOk result (λ bytes. bytes.items ≡ file_of image.now) }
    // Reading the file gives the image again.
    ensures again { IfOk result (λ bytes. image_of bytes.items ≡ Ok image.now) }
{
    let mut out = Vec::new(alloc);
    out.extend_from_slice(b"IMD 1.18: 01/01/2000 00:00:00\r\n\x1A")?;
    for track in image.tracks.as_slice() {
        put_track(&mut out, image.rate, track)?;
    }
    Ok(out)
}
