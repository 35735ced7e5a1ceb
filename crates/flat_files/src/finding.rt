// The sector with a key in the image of a medium.
ghost use Rattle.std.specs.Prelude.{◌≡◌, MatchOption, Some, None, find};
ghost use Rattle.flat_files.specs.Common.{ImdSector};
ghost use Rattle.flat_files.specs.Files.{has_deleted as has_deleted_of, is_deleted as is_deleted_kind, is_plain as is_plain_track, is_track as is_track_of, is_wanted as is_wanted_of, is_whole as is_whole_kind, sector_on, sectors_on as sectors_of_track};

use imagedisk::{ImdKind, ImdSector, ImdTrack};

/// Whether data are there and whole, and not marked as deleted.
fn is_whole(kind: ImdKind) -> bool
    ensures { result ≡ is_whole_kind kind }
{
    matches!(kind, ImdKind::Good)
}

/// Whether data are marked as deleted, be they whole or damaged.
fn is_deleted(kind: ImdKind) -> bool
    ensures { result ≡ is_deleted_kind kind }
{
    matches!(kind, ImdKind::Deleted | ImdKind::BadDeleted)
}

/// Whether the sector is whole, and has this size code and this key.
fn is_wanted(sector: &ImdSector, n: u8, c: u8, h: u8, r: u8) -> bool
    ensures { result ≡ is_wanted_of n c h r sector.now }
{
    is_whole(sector.kind)
        && sector.key.c == c
        && sector.key.h == h
        && sector.key.r == r
        && sector.key.n == n
}

/// Whether the track has this cylinder and head.
fn is_track(track: &ImdTrack, c: u8, h: u8) -> bool
    ensures { result ≡ is_track_of c h track.now }
{
    track.c == c && track.h == h
}

/// The sectors of the track of this cylinder and head.
fn sectors_on(tracks: &[ImdTrack], c: u8, h: u8) -> &[ImdSector]
    ensures { result.now ≡ sectors_of_track tracks.now c h }
{
    for track in tracks {
        if is_track(track, c, h) {
            return track.sectors.as_slice();
        }
    }
    &[]
}

/// Whether one of these is marked as deleted.
fn has_deleted(sectors: &[ImdSector]) -> bool
    ensures { result ≡ has_deleted_of sectors.now }
{
    sectors.iter().any(|sector| is_deleted(sector.kind))
}

/// Whether the track of this cylinder and head has at most this many sectors, and none that is marked as deleted.
pub(crate) fn is_plain(tracks: &[ImdTrack], most: u8, c: u8, h: u8) -> bool
    ensures { result ≡ is_plain_track tracks.now most c h }
{
    let sectors = sectors_on(tracks, c, h);
    sectors.len() <= usize::from(most) && !has_deleted(sectors)
}

/// The first whole sector of these that has this key.
fn wanted(sectors: &[ImdSector], n: u8, c: u8, h: u8, r: u8) -> Option<&ImdSector>
    ensures { MatchOption result (find (is_wanted_of n c h r) sectors.now ≡ None)
        (λ sector. find (is_wanted_of n c h r) sectors.now ≡ Some sector.now) }
{
    for sector in sectors {
        if is_wanted(sector, n, c, h, r) {
            return Some(sector);
        }
    }
    None
}

/// The content of the whole sector with this key.
pub(crate) fn content(tracks: &[ImdTrack], n: u8, c: u8, h: u8, r: u8) -> Option<&[u8]>
    ensures { MatchOption result (sector_on tracks.now n c h r ≡ None)
        (λ content. (sector : ImdSector) × (sector_on tracks.now n c h r ≡ Some sector) × (content.now ≡ sector.content)) }
{
    let sector = wanted(sectors_on(tracks, c, h), n, c, h, r)?;
    Some(sector.content.as_slice())
}
