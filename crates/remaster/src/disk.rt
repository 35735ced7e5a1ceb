// A whole medium laid out anew.
ghost use Rattle.std.specs.Prelude.{◌≡◌, ◌≢◌, ◌<◌, ℕ, true, length, IfOk, IfErr, OnOk};
ghost use Rattle.remaster.specs.Common.{words_at, Disk, HasTrack, track_of, IsWithTrack, IsTrackSized};
ghost use Rattle.remaster.specs.Remastered.{HasShapeOf, Remasters, IsTrackRemaster, IsTrackError, IsDone, IsUnfitIn};

use crate::error::RemasterError;
use crate::fit::fitting_gap;
use crate::relaid::relay;
use crate::sectors::list_sectors;
use flop_base::{NoMemory, Rate};
use raw_image::{Medium, read_image, write_image};
use std::alloc::Global;

/// Where an image file has its flags. Bit 0 of the flags is the protection.
const FLAGS: usize = 8;

/// The same medium, protected.
fn protect(alloc: Global, medium: &Medium) -> Result<Medium, NoMemory>
    ensures { IfOk result (λ after. after ≡ record medium.now { protected = true }) }
{
    let mut image = write_image(alloc, medium)?;
    // Reading the medium makes known that it is valid.
    let _words = medium.words();
    image[FLAGS] = 1;
    match read_image(alloc, &image) {
        Ok(after) => Ok(after),
        // The bytes are an image, so the only possible failure is that memory runs out.
        Err(_) => Err(NoMemory),
    }
}

/// A blank medium of the same protection, cylinders, heads and rate. A track of it has as many words as pass in one
/// revolution.
fn blank_like(alloc: Global, medium: &Medium) -> Result<Medium, NoMemory>
    ensures { IfOk result (λ blank. HasShapeOf medium.now blank) }
{
    let rate = medium.rate();
    let blank = Medium::blank_at(
        alloc,
        medium.cylinders(),
        medium.heads(),
        rate.words(),
        rate,
    )?;
    if medium.protected() {
        return protect(alloc, &blank);
    }
    Ok(blank)
}

/// The track of a cylinder and a head laid out anew.
fn remaster_track(
    alloc: Global,
    words: &[u16],
    rate: Rate,
    c: u8,
    h: u8,
) -> Result<Vec<u16>, RemasterError>
    requires { IsTrackSized words.now }
    ensures done { IfOk result (λ track. IsTrackRemaster rate c h words.now track.items) }
    ensures long { IfOk result (λ track. length track.items ≡ words_at rate) }
    ensures unfit { IfErr result (IsTrackError rate c h words.now) }
{
    let sectors = list_sectors(alloc, words)?;
    if sectors.is_empty() {
        return Ok(vec![in alloc; 0; usize::from(rate.words())]?);
    }
    let n = sectors[0].key.n;
    match fitting_gap(&sectors, n, rate, c, h) {
        Some(gap3) => Ok(relay(alloc, &sectors, n, gap3, rate, c, h)?),
        None => Err(RemasterError::Unfit { c, h }),
    }
}

/// Replaces a track.
fn put_track(medium: &mut Medium, c: u8, h: u8, track: &[u16])
    requires track { HasTrack medium.old c h }
    requires long { length track.now ≡ medium.old.words_per_track }
    ensures { IsWithTrack medium.old c h track.now medium.new }
{
    medium.set_words(c, h, 0, track);
}

/// Lays out the track of a cylinder and a head anew, on another medium.
fn remaster_on(
    alloc: Global,
    medium: &Medium,
    after: &mut Medium,
    c: u8,
    h: u8,
) -> Result<(), RemasterError>
    requires track { HasTrack medium.now c h }
    requires shape { HasShapeOf medium.now after.old }
    ensures shape { HasShapeOf medium.now after.new }
    ensures done { OnOk result (IsDone medium.now after.new c h) }
    ensures others { OnOk result ((b g : ℕ) → HasTrack medium.now b g → (b ≡ c → g ≡ h → ⊥)
        → track_of after.new b g ≡ track_of after.old b g) }
    ensures unfit { IfErr result (IsTrackError medium.now.rate c h (track_of medium.now c h)) }
{
    if let Some(words) = medium.track(c, h) {
        let track = remaster_track(alloc, words, medium.rate(), c, h)?;
        put_track(after, c, h, &track);
    }
    Ok(())
}

/// Lays out the tracks of a cylinder anew, on another medium, by head.
fn remaster_cylinder(
    alloc: Global,
    medium: &Medium,
    after: &mut Medium,
    c: u8,
) -> Result<(), RemasterError>
    requires cylinder { c < medium.now.cylinders }
    requires shape { HasShapeOf medium.now after.old }
    ensures shape { HasShapeOf medium.now after.new }
    ensures done { OnOk result ((h : ℕ) → h < medium.now.heads → IsDone medium.now after.new c h) }
    ensures others { OnOk result ((b g : ℕ) → HasTrack medium.now b g → b ≢ c
        → track_of after.new b g ≡ track_of after.old b g) }
    ensures unfit { IfErr result (IsUnfitIn medium.now c) }
{
    for h in 0..medium.heads() {
        remaster_on(alloc, medium, after, c, h)?;
    }
    Ok(())
}

/// The medium laid out anew: a regular disk with the same sectors. Each track is formatted with the keys that were
/// found on it, in order of place, with the largest gap 3 and the fill F6. Then each sector is written with its mark
/// and content. A track on which no sector was found becomes words 0000. A track has as many words as pass in one
/// revolution: 12,500 at 500 kbit/s, and 6,250 at 250 kbit/s.
pub fn remaster(alloc: Global, medium: &Medium) -> Result<Medium, RemasterError>
    ensures { Remasters medium.now result }
{
    let mut after = blank_like(alloc, medium)?;
    for c in 0..medium.cylinders() {
        remaster_cylinder(alloc, medium, &mut after, c)?;
    }
    // Reading the medium makes known that it is valid.
    let _words = after.words();
    Ok(after)
}
