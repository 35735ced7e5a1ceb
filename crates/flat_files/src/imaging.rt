// The sectors of a flat file, track by track.
ghost use Rattle.std.specs.Prelude.{◌≡◌, ◌+◌, ◌<◌, ◌≤◌, length, IfOk};
ghost use Rattle.flat_files.specs.Common.{IsDensity, IsSector, flat_length, IsImdImage, IsImdSector, IsImdTrack};
ghost use Rattle.flat_files.specs.Flats.{flat_image as flat_image_of, flat_sector as flat_sector_of, flat_track as flat_track_of};

use flop_base::standard::SIZE_CODE;
use flop_base::{Bytes, Chrn, NoMemory, Rate};
use imagedisk::{ImdImage, ImdKind, ImdSector, ImdSectors, ImdTrack, ImdTracks};
use sector_map::flat::place;
use std::alloc::Global;

/// The tracks of a file: 80 cylinders of 2 heads.
const TRACKS: u8 = 160;

/// Sector `i` of a track, counted from 0.
fn flat_sector(
    alloc: Global,
    bytes: &[u8],
    sectors: u8,
    c: u8,
    h: u8,
    i: u8,
) -> Result<ImdSector, NoMemory>
    requires density { IsDensity sectors }
    requires most { sectors ≤ 18 }
    requires whole { length bytes.now ≡ flat_length sectors }
    requires cylinder { c < 80 }
    requires head { h < 2 }
    requires there { i < sectors }
    ensures is { IfOk result (λ sector. sector ≡ flat_sector_of bytes.now sectors c h i) }
    ensures valid { IfOk result (IsImdSector 2) }
{
    let from = place(sectors, c, h, i + 1);
    let content = Bytes::copy(alloc, &bytes[from..from + 512])?;
    let key = Chrn {
        c,
        h,
        r: i + 1,
        n: SIZE_CODE,
    };
    Ok(ImdSector {
        key,
        kind: ImdKind::Good,
        content,
    })
}

/// The track with this number, counted by cylinder, then head.
fn flat_track(alloc: Global, bytes: &[u8], sectors: u8, track: u8) -> Result<ImdTrack, NoMemory>
    requires density { IsDensity sectors }
    requires most { sectors ≤ 18 }
    requires whole { length bytes.now ≡ flat_length sectors }
    requires there { track < 160 }
    ensures is { IfOk result (λ made. made ≡ flat_track_of bytes.now sectors track) }
    ensures valid { IfOk result IsImdTrack }
{
    let c = track / 2;
    let h = track % 2;
    let mut kept = ImdSectors::new(alloc);
    for i in 0..sectors {
        let sector = flat_sector(alloc, bytes, sectors, c, h, i)?;
        kept.push(sector)?;
    }
    Ok(ImdTrack {
        c,
        h,
        n: SIZE_CODE,
        sectors: kept,
    })
}

/// The image of a flat file.
pub(crate) fn flat_image(
    alloc: Global,
    bytes: &[u8],
    sectors: u8,
    rate: Rate,
) -> Result<ImdImage, NoMemory>
    requires density { IsDensity sectors }
    requires most { sectors ≤ 18 }
    requires whole { length bytes.now ≡ flat_length sectors }
    ensures is { IfOk result (λ image. image ≡ flat_image_of bytes.now sectors rate) }
    ensures valid { IfOk result IsImdImage }
{
    let mut tracks = ImdTracks::new(alloc);
    for track in 0..TRACKS {
        let made = flat_track(alloc, bytes, sectors, track)?;
        tracks.push(made)?;
    }
    Ok(ImdImage { rate, tracks })
}
