// Looks for sectors of a medium, and whether its tracks are regular.
ghost use Rattle.std.specs.Prelude.{◌↔◌, ℕ, IsTrue};
ghost use Rattle.sector_map.specs.Common.{HasTrack, track_of, IsSizeCode, IsRegular};
ghost use Rattle.sector_map.specs.Disks.{LookOn, IsRegularDisk};

use crate::{Look, find_sector, is_regular};
use flop_base::Chrn;
use raw_image::Medium;

/// The look for the key on the track of its cylinder and head. The answer is `NoMark` if the medium has no such track.
pub fn look(medium: &Medium, key: Chrn) -> Look
    requires { IsSizeCode key.n }
    ensures { LookOn medium.now key result }
{
    match medium.track(key.c, key.h) {
        Some(words) => find_sector(words, key),
        None => Look::NoMark,
    }
}

/// Whether a track is regular for its cylinder and head. A track that the medium doesn't have counts as regular.
fn is_regular_track(medium: &Medium, c: u8, h: u8) -> bool
    ensures { IsTrue result ↔ (HasTrack medium.now c h → IsRegular (track_of medium.now c h) c h) }
{
    match medium.track(c, h) {
        Some(words) => is_regular(words, c, h),
        None => true,
    }
}

/// Whether the tracks of a cylinder are regular.
fn is_regular_cylinder(medium: &Medium, c: u8) -> bool
    ensures { IsTrue result
        ↔ ((h : ℕ) → HasTrack medium.now c h → IsRegular (track_of medium.now c h) c h) }
{
    for h in 0..medium.heads() {
        if !is_regular_track(medium, c, h) {
            return false;
        }
    }
    true
}

/// Whether each track of the medium is regular for its cylinder and head.
pub fn is_regular_disk(medium: &Medium) -> bool
    ensures { IsTrue result ↔ IsRegularDisk medium.now }
{
    for c in 0..medium.cylinders() {
        if !is_regular_cylinder(medium, c) {
            return false;
        }
    }
    true
}
