// The image of a diskette.
ghost use Rattle.std.specs.Prelude.{◌≡◌, ◌*◌, ◌<◌, ◌≤◌, IfOk};
ghost use Rattle.imagedisk.specs.Common.{HasTrack, track_of, IsTrackSized};
ghost use Rattle.imagedisk.specs.Images.{IsImdTrack, IsImdImage};
ghost use Rattle.imagedisk.specs.Found.{HasImage};
ghost use Rattle.imagedisk.specs.Taken.{told_rate, AreTakenBelow, TakesTrack, TakesPlace, TakesDisk};

use crate::error::ImdError;
use crate::fields::{sectors_of, size_code_of};
use crate::{ImdImage, ImdTrack, ImdTracks};
use flop_base::Rate;
use raw_image::Medium;
use sector_map::list_fields;
use std::alloc::Global;

/// The image's track that these words of a track give, if they have an address field.
fn take_track(alloc: Global, words: &[u16], c: u8, h: u8) -> Result<Option<ImdTrack>, ImdError>
    requires sized { IsTrackSized words.now }
    requires cylinder { c ≤ 79 }
    requires head { h ≤ 1 }
    ensures { TakesTrack words.now c h result }
{
    let listed = list_fields(alloc, words)?;
    let fields = listed.as_slice();
    if fields.is_empty() {
        return Ok(None);
    }
    match size_code_of(fields) {
        None => Err(ImdError::Unfit { c, h }),
        Some(n) => {
            let sectors = sectors_of(alloc, words, fields, n)?;
            Ok(Some(ImdTrack { c, h, n, sectors }))
        }
    }
}

/// The image's track that a track of a diskette gives, if it has an address field.
fn take_at(alloc: Global, medium: &Medium, c: u8, h: u8) -> Result<Option<ImdTrack>, ImdError>
    requires { HasTrack medium.now c h }
    ensures { TakesTrack (track_of medium.now c h) c h result }
{
    match medium.track(c, h) {
        Some(words) => take_track(alloc, words, c, h),
        None => Ok(None),
    }
}

/// Takes the place with this number, counted by cylinder, then head. Adds its track if the track has an address field.
fn take_place(
    alloc: Global,
    medium: &Medium,
    place: u8,
    tracks: &mut ImdTracks,
) -> Result<(), ImdError>
    requires within { place < medium.now.cylinders * medium.now.heads }
    requires taken { AreTakenBelow medium.now place tracks.old }
    ensures { TakesPlace medium.now place tracks.new result }
{
    let heads = medium.heads();
    match take_at(alloc, medium, place / heads, place % heads)? {
        Some(track) => {
            tracks.push(track)?;
            Ok(())
        }
        None => Ok(()),
    }
}

/// The rate of an image with these tracks.
fn told_rate(medium: &Medium, tracks: &[ImdTrack]) -> Rate
    ensures { result ≡ told_rate medium.now tracks.now }
{
    if tracks.is_empty() {
        Rate::R500
    } else {
        medium.rate()
    }
}

/// The image of a diskette. It has each track with an address field, by cylinder, then head. A track is unfit if its
/// address fields have different size codes, or others than 1 to 6, or are more than 255.
pub fn from_medium(alloc: Global, medium: &Medium) -> Result<ImdImage, ImdError>
    ensures taken { TakesDisk medium.now result }
    ensures valid { IfOk result IsImdImage }
    ensures found { IfOk result (λ image. HasImage medium.now image) }
{
    let mut tracks = ImdTracks::new(alloc);
    for place in 0..medium.cylinders() * medium.heads() {
        take_place(alloc, medium, place, &mut tracks)?;
    }
    Ok(ImdImage {
        rate: told_rate(medium, tracks.as_slice()),
        tracks,
    })
}
