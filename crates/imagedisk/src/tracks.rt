// The words of a track of an image.
ghost use Rattle.std.specs.Prelude.{◌≡◌, ◌+◌, ◌≤◌, All, OnOk, IfOk, length};
ghost use Rattle.imagedisk.specs.Common.{Chrn, standard_fill, words_at, IsTrackSized, laid_words, lay, Fits, sector_place, window_word, window_words, cut_of, Suits};
ghost use Rattle.imagedisk.specs.Images.{IsImdSector, IsImdTrack};
ghost use Rattle.imagedisk.specs.Made.{keys_of, sector_window, laid_track, with_sectors, MakesTrack};

use crate::error::ImdError;
use crate::windows::sector_window;
use crate::{ImdSector, ImdTrack};
use flop_base::standard::FILL;
use flop_base::{Chrn, NoMemory, Rate, sector_size};
use sector_map::place_window;
use std::alloc::Global;
use track_format::{choose_gap, layout};

/// The words of a formatted track before its first sector.
const START_WORDS: usize = 146;

/// The words of a sector of a formatted track without its content and gap 3.
const SECTOR_WORDS: usize = 62;

/// The words of sync before an address field.
const SYNC_WORDS: usize = 12;

/// The keys of sectors.
fn keys_of(alloc: Global, sectors: &[ImdSector]) -> Result<Vec<Chrn>, NoMemory>
    ensures { IfOk result (λ keys. keys.items ≡ keys_of sectors.now) }
{
    Ok(sectors.iter().map(|sector| sector.key).collect(alloc)?)
}

/// The track with these sectors, as it is formatted.
fn formatted(alloc: Global, rate: Rate, track: &ImdTrack, gap3: u8) -> Result<Vec<u16>, NoMemory>
    requires valid { IsImdTrack track.now }
    requires fits { Fits (keys_of track.now.sectors) track.now.n gap3 (words_at rate) }
    ensures laid { IfOk result (λ words. words.items
        ≡ lay (keys_of track.now.sectors) track.now.n gap3 standard_fill (words_at rate)) }
    ensures length { IfOk result (λ words. length words.items ≡ words_at rate) }
{
    let keys = keys_of(alloc, track.sectors.as_slice())?;
    match layout(alloc, &keys, track.n, gap3, FILL, usize::from(rate.words())) {
        Ok(words) => Ok(words),
        // The sectors fit.
        Err(_) => Err(NoMemory),
    }
}

/// The first cell of the address field of sector `i` of a formatted track.
fn sector_place(n: u8, gap3: u8, i: usize) -> usize
    requires at_least { 1 ≤ n }
    requires at_most { n ≤ 6 }
    requires inside { laid_words i n gap3 ≤ 16384 }
    ensures { result ≡ sector_place n gap3 i }
{
    let sector = SECTOR_WORDS + sector_size(n) + usize::from(gap3);
    16 * (START_WORDS + i * sector + SYNC_WORDS)
}

/// Puts the window of a sector behind the address field at cell `place`.
fn put_sector(
    alloc: Global,
    words: &mut [u16],
    place: usize,
    n: u8,
    sector: &ImdSector,
) -> Result<(), NoMemory>
    requires at_least { 1 ≤ n }
    requires at_most { n ≤ 6 }
    requires valid { IsImdSector n sector.now }
    requires sized { IsTrackSized words.old }
    requires inside { window_word place + window_words n ≤ length words.old }
    ensures put { OnOk result (words.new
        ≡ cut_of words.old place (window_words n) (sector_window n sector.now)) }
{
    let window = sector_window(alloc, n, sector)?;
    place_window(words, place, &window, window.len());
    Ok(())
}

/// Puts the windows of sectors on a formatted track.
fn put_sectors(
    alloc: Global,
    words: &mut [u16],
    n: u8,
    gap3: u8,
    sectors: &[ImdSector],
) -> Result<(), NoMemory>
    requires at_least { 1 ≤ n }
    requires at_most { n ≤ 6 }
    requires valid { All (IsImdSector n) sectors.now }
    requires sized { IsTrackSized words.old }
    requires fits { laid_words (length sectors.now) n gap3 ≤ length words.old }
    ensures { OnOk result (words.new ≡ with_sectors n gap3 0 sectors.now words.old) }
{
    for (i, sector) in sectors.iter().enumerate() {
        let place = sector_place(n, gap3, i);
        put_sector(alloc, words, place, n, sector)?;
    }
    Ok(())
}

/// The track of an image, laid with this gap, which leaves room for its sectors.
fn laid_track(alloc: Global, rate: Rate, track: &ImdTrack, gap3: u8) -> Result<Vec<u16>, NoMemory>
    requires valid { IsImdTrack track.now }
    requires gap { Suits track.now.n (length track.now.sectors) (words_at rate) gap3 }
    ensures value { IfOk result (λ words. words.items ≡ laid_track rate track.now gap3) }
    ensures length { IfOk result (λ words. length words.items ≡ words_at rate) }
{
    let mut words = formatted(alloc, rate, track, gap3)?;
    put_sectors(alloc, &mut words, track.n, gap3, track.sectors.as_slice())?;
    Ok(words)
}

/// The words of a track of an image, with a gap 3 of `least` bytes or more. They hold no recording if the track has no
/// sectors.
pub(crate) fn track_words(
    alloc: Global,
    rate: Rate,
    track: &ImdTrack,
    least: u8,
) -> Result<Vec<u16>, ImdError>
    requires { IsImdTrack track.now }
    ensures made { MakesTrack least rate track.now result }
    ensures length { IfOk result (λ words. length words.items ≡ words_at rate) }
{
    let sectors = track.sectors.as_slice();
    if sectors.is_empty() {
        return vec![in alloc; 0; usize::from(rate.words())].map_err(|_| ImdError::NoMemory);
    }
    match choose_gap(track.n, sectors.len() as u8, rate, least) {
        None => Err(ImdError::Unfit {
            c: track.c,
            h: track.h,
        }),
        Some(gap3) => Ok(laid_track(alloc, rate, track, gap3)?),
    }
}
