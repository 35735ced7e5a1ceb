// The words of one track, out of a medium and into one.
ghost use Rattle.std.specs.Prelude.{◌≡◌, ⊤};
ghost use Rattle.telwyddus_c.specs.Common.{option_copied};
ghost use Rattle.telwyddus_c.specs.Buffers.{WritesBytes};
ghost use Rattle.telwyddus_c.specs.Slots.{Serves};
ghost use Rattle.telwyddus_c.specs.Tracks.{ReplacesTrack, SetsTrack, WritesTrack};

use crate::code::{DONE, EMPTY, NO_MEDIUM, OUT_OF_RANGE, TOO_SHORT};
use c_slots::{MediumTray, TraySlot};
use raw_image::Medium;
use std::alloc::Global;

/// Writes the words of a track of the medium in a tray to a buffer, and reports how many.
#[unsafe(no_mangle)]
pub extern "C" fn telwyddus_tray_track(
    alloc: Global,
    slot: &mut TraySlot,
    cylinder: u8,
    head: u8,
    out: &mut [u16],
    length: &mut usize,
) -> u32
    ensures { Serves (λ code old new. (new ≡ old) × WritesTrack old.medium cylinder head code out.old out.new length.old length.new)
        ((out.new ≡ out.old) × (length.new ≡ length.old)) result slot.old.held.tray slot.new.held.tray }
{
    let Some(tray) = slot.take(alloc) else {
        return EMPTY;
    };
    let code = write_track(tray.medium.as_ref(), cylinder, head, out, length);
    slot.put(tray);
    code
}

/// Writes the words of a track of a medium to a buffer, if there is a medium.
pub(crate) fn write_track(
    medium: Option<&Medium>,
    cylinder: u8,
    head: u8,
    out: &mut [u16],
    length: &mut usize,
) -> u32
    ensures { WritesTrack (option_copied medium.entry) cylinder head result out.old out.new length.old length.new }
{
    let Some(medium) = medium else {
        return NO_MEDIUM;
    };
    match medium.track(cylinder, head) {
        None => OUT_OF_RANGE,
        Some(track) => write_words(track, out, length),
    }
}

/// Writes words to the beginning of a buffer, and reports how many. If the buffer is too short it stays as it is, and
/// their number is reported all the same.
fn write_words(words: &[u16], out: &mut [u16], length: &mut usize) -> u32
    ensures { WritesBytes words.now result out.old out.new length.new }
{
    *length = words.len();
    if out.len() < words.len() {
        return TOO_SHORT;
    }
    out[..words.len()].copy_from_slice(words);
    DONE
}

/// Replaces the words of a track of the medium in a tray.
#[unsafe(no_mangle)]
pub extern "C" fn telwyddus_tray_set_track(
    alloc: Global,
    slot: &mut TraySlot,
    cylinder: u8,
    head: u8,
    words: &[u16],
) -> u32
    ensures { Serves (SetsTrack cylinder head words.now) ⊤ result slot.old.held.tray slot.new.held.tray }
{
    let Some(mut tray) = slot.take(alloc) else {
        return EMPTY;
    };
    let code = set_track(&mut tray, cylinder, head, words);
    slot.put(tray);
    code
}

/// Replaces the words of a track of the medium that a tray holds.
fn set_track(tray: &mut MediumTray, cylinder: u8, head: u8, words: &[u16]) -> u32
    ensures { SetsTrack cylinder head words.now result tray.old tray.new }
{
    match &mut tray.medium {
        None => NO_MEDIUM,
        Some(medium) => replace_track(medium, cylinder, head, words),
    }
}

/// Replaces the words of a track of a medium. There have to be as many words as its tracks have.
#[tactic(auto, using(crate::proofs::WholeTracks::whole_track))]
fn replace_track(medium: &mut Medium, cylinder: u8, head: u8, words: &[u16]) -> u32
    ensures { ReplacesTrack cylinder head words.now result medium.old medium.new }
{
    let Some(track) = medium.track(cylinder, head) else {
        return OUT_OF_RANGE;
    };
    if track.len() != words.len() {
        return OUT_OF_RANGE;
    }
    medium.set_words(cylinder, head, 0, words);
    DONE
}
