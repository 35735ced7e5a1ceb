// The diskette of an image.
ghost use Rattle.std.specs.Prelude.{◌≡◌, ◌<◌, ◌≤◌, ℕ, All, IfOk, length};
ghost use Rattle.imagedisk.specs.Common.{HasTrack, IsWithTrack};
ghost use Rattle.imagedisk.specs.Images.{IsImdTrack, IsImdImage};
ghost use Rattle.imagedisk.specs.Found.{HasImage};
ghost use Rattle.imagedisk.specs.Made.{cylinder_count, has_other_side, head_count, HasShape, HasFirst, PutsTrack, MakesDisk};

use crate::error::ImdError;
use crate::tracks::track_words;
use crate::{ImdImage, ImdTrack};
use flop_base::NoMemory;
use raw_image::Medium;
use std::alloc::Global;

/// How many cylinders the tracks need.
fn cylinder_count(tracks: &[ImdTrack]) -> u8
    requires { All IsImdTrack tracks.now }
    ensures value { result ≡ cylinder_count tracks.now }
    ensures least { 1 ≤ result }
    ensures most { result ≤ 80 }
{
    let mut count = 1;
    for track in tracks {
        count = count.max(track.c + 1);
    }
    count
}

/// Whether there is a track of head 1.
fn has_other_side(tracks: &[ImdTrack]) -> bool
    ensures { result ≡ has_other_side tracks.now }
{
    tracks.iter().any(|track| track.h == 1)
}

/// How many heads the tracks need.
fn head_count(tracks: &[ImdTrack]) -> u8
    ensures value { result ≡ head_count tracks.now }
    ensures least { 1 ≤ result }
    ensures most { result ≤ 2 }
{
    if has_other_side(tracks) { 2 } else { 1 }
}

/// A medium for the image, on which nothing is recorded yet.
fn blank_medium(alloc: Global, image: &ImdImage) -> Result<Medium, NoMemory>
    requires { IsImdImage image.now }
    ensures { IfOk result (λ medium. (least : ℕ) → HasFirst least image.now medium 0) }
{
    let tracks = image.tracks.as_slice();
    let cylinders = cylinder_count(tracks);
    let heads = head_count(tracks);
    let medium = Medium::blank_at(alloc, cylinders, heads, image.rate.words(), image.rate)?;
    // Reading the medium makes known that it is valid.
    let _length = medium.words();
    Ok(medium)
}

/// Replaces the track of a cylinder and a head.
fn store_track(medium: &mut Medium, c: u8, h: u8, words: &[u16])
    requires track { HasTrack medium.old c h }
    requires whole { length words.now ≡ medium.old.words_per_track }
    ensures { IsWithTrack medium.old c h words.now medium.new }
{
    medium.set_words(c, h, 0, words);
}

/// Puts track `i` of the image on its medium.
fn put_track(
    alloc: Global,
    medium: &mut Medium,
    image: &ImdImage,
    i: usize,
    least: u8,
) -> Result<(), ImdError>
    requires valid { IsImdImage image.now }
    requires there { i < length image.now.tracks }
    requires first { HasFirst least image.now medium.old i }
    ensures { PutsTrack least image.now i medium.new result }
{
    let track = &image.tracks.as_slice()[i];
    let words = track_words(alloc, image.rate, track, least)?;
    store_track(medium, track.c, track.h, &words);
    Ok(())
}

/// The diskette of an image. It isn't protected. Its tracks are formatted, and then each data field is written over
/// with what the image has of the sector. A track is unfit if it has no room for its sectors, each so that it could be
/// written over, with a gap 3 of `least` bytes or more.
pub fn to_medium(alloc: Global, image: &ImdImage, least: u8) -> Result<Medium, ImdError>
    requires { IsImdImage image.now }
    ensures made { MakesDisk least image.now result }
    ensures found { IfOk result (λ medium. HasImage medium image.now) }
{
    let mut medium = blank_medium(alloc, image)?;
    for i in 0..image.tracks.as_slice().len() {
        put_track(alloc, &mut medium, image, i, least)?;
    }
    Ok(medium)
}
