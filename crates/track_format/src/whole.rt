// A whole formatted track.
ghost use Rattle.std.specs.Prelude.{◌≡◌, ◌≤◌, ◌↔◌, IfOk, length, slice_index};
ghost use Rattle.std.specs.List.{flat_map};
ghost use Rattle.track_model.specs.Layouts.{lay, Fits};
ghost use Rattle.track_format.specs.Keys.{key_bytes};
ghost use Rattle.track_format.specs.declared.whole.LayoutError.TheVariants as cause;

use crate::gap::fits;
use crate::stream::FormatStream;
use flop_base::Chrn;
use std::alloc::{AllocError, AllocFailed, Global};
use thiserror::Error;

/// Why a track wasn't laid out.
#[derive(Clone, Copy, Debug, PartialEq, Eq, Error)]
pub enum LayoutError {
    /// The sectors and what stands before them are longer than the track.
    #[error("the sectors don't fit on the track")]
    DoesNotFit,
    /// There wasn't enough memory.
    #[error("no memory")]
    NoMemory,
}

impl From<AllocError> for LayoutError {
    ghost from_gives = { λ _ e. e ≡ cause.NoMemory };

    fn from(_: AllocError) -> LayoutError {
        LayoutError::NoMemory
    }
}

impl<T: Drop> From<AllocFailed<T>> for LayoutError {
    ghost from_gives = { λ _ e. e ≡ cause.NoMemory };

    fn from(_: AllocFailed<T>) -> LayoutError {
        LayoutError::NoMemory
    }
}

/// Fills the words of a track with those of a formatted one (IBM System 34), from the index on. The formatted track has
/// a sector of size code `n` and `gap3` bytes 4E for each key. What doesn't fit on the track is left out.
pub fn fill_layout(words: &mut [u16], keys: &[Chrn], n: u8, gap3: u8, fill: u8)
    requires at_least { 1 ≤ n }
    requires at_most { n ≤ 6 }
    ensures { words.new ≡ lay keys.now n gap3 fill (length words.old) }
{
    let mut stream = FormatStream::of_sectors(n, keys.len(), gap3, fill);
    let mut asked = 0;
    for i in 0..words.len() {
        let mut byte = 0;
        if stream.needs_byte() {
            byte = key_byte(keys, asked);
            asked += 1;
        }
        words[i] = stream.next(byte);
    }
}

/// The `words` words of a formatted track (IBM System 34), from the index on. The track has a sector of size code `n`
/// and `gap3` bytes 4E for each key.
pub fn layout(
    alloc: Global,
    keys: &[Chrn],
    n: u8,
    gap3: u8,
    fill: u8,
    words: usize,
) -> Result<Vec<u16>, LayoutError>
    requires at_least { 1 ≤ n }
    requires at_most { n ≤ 6 }
    ensures laid { IfOk result (λ track. track.items ≡ lay keys.now n gap3 fill words) }
    ensures refused { result ≡ Err cause.DoesNotFit ↔ (Fits keys.now n gap3 words → ⊥) }
{
    if !fits(keys.len(), n, gap3, words) {
        return Err(LayoutError::DoesNotFit);
    }
    let mut track = vec![in alloc; 0; words]?;
    fill_layout(track.as_mut_slice(), keys, n, gap3, fill);
    Ok(track)
}

/// Byte `i` of the keys, which stand one after the other; 0 after the last byte.
fn key_byte(keys: &[Chrn], i: usize) -> u8
    ensures { result ≡ slice_index (flat_map key_bytes keys.now) i }
{
    if i / 4 >= keys.len() {
        return 0;
    }
    let key = keys[i / 4];
    match i % 4 {
        0 => key.c,
        1 => key.h,
        2 => key.r,
        _ => key.n,
    }
}
