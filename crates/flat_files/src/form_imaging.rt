// The sectors of a flat file, track by track.
ghost use Rattle.std.specs.Prelude.{◌≡◌, ◌<◌, length, IfOk};
ghost use Rattle.flat_files.specs.Common.{IsImdImage, IsImdSector, IsImdTrack};
ghost use Rattle.flat_files.specs.Forms.{IsForm, file_length, tracks_of};
ghost use Rattle.flat_files.specs.FormMaking.{form_image as form_image_of, form_sector as form_sector_of, form_track as form_track_of};

use crate::form::FlatForm;
use flop_base::{Bytes, Chrn, NoMemory};
use imagedisk::{ImdImage, ImdKind, ImdSector, ImdSectors, ImdTrack, ImdTracks};
use std::alloc::Global;

/// Sector `i` of a track, counted from 0.
fn form_sector(
    alloc: Global,
    bytes: &[u8],
    form: FlatForm,
    track: u8,
    i: u8,
) -> Result<ImdSector, NoMemory>
    requires form { IsForm form }
    requires whole { length bytes.now ≡ file_length form }
    requires track { track < tracks_of form }
    requires there { i < form.sectors }
    ensures is { IfOk result (λ sector. sector ≡ form_sector_of form bytes.now track i) }
    ensures valid { IfOk result (IsImdSector form.n) }
{
    let from = form.place(track, i);
    let content = Bytes::copy(alloc, &bytes[from..from + form.size()])?;
    let key = Chrn {
        c: form.cylinder(track),
        h: form.head(track),
        r: i + 1,
        n: form.n,
    };
    Ok(ImdSector {
        key,
        kind: ImdKind::Good,
        content,
    })
}

/// The track with this number, counted by cylinder, then head.
fn form_track(alloc: Global, bytes: &[u8], form: FlatForm, track: u8) -> Result<ImdTrack, NoMemory>
    requires form { IsForm form }
    requires whole { length bytes.now ≡ file_length form }
    requires there { track < tracks_of form }
    ensures is { IfOk result (λ made. made ≡ form_track_of form bytes.now track) }
    ensures valid { IfOk result IsImdTrack }
{
    let c = form.cylinder(track);
    let h = form.head(track);
    let mut kept = ImdSectors::new(alloc);
    for i in 0..form.sectors {
        let sector = form_sector(alloc, bytes, form, track, i)?;
        kept.push(sector)?;
    }
    Ok(ImdTrack {
        c,
        h,
        n: form.n,
        sectors: kept,
    })
}

/// The image of a flat file of this geometry.
pub(crate) fn form_image(alloc: Global, bytes: &[u8], form: FlatForm) -> Result<ImdImage, NoMemory>
    requires form { IsForm form }
    requires whole { length bytes.now ≡ file_length form }
    ensures is { IfOk result (λ image. image ≡ form_image_of form bytes.now) }
    ensures valid { IfOk result IsImdImage }
{
    let mut tracks = ImdTracks::new(alloc);
    for track in 0..form.tracks() {
        let made = form_track(alloc, bytes, form, track)?;
        tracks.push(made)?;
    }
    Ok(ImdImage {
        rate: form.rate,
        tracks,
    })
}
