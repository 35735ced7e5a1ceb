// What stands on a medium.
ghost use Rattle.std.specs.Prelude.{◌≡◌, ◌++◌, IfOk, OnOk};
ghost use Rattle.telwyddus_c.specs.Common.{option_copied};
ghost use Rattle.telwyddus_c.specs.Slots.{Serves};
ghost use Rattle.telwyddus_c.specs.Surveys.{WritesSurvey, line_bytes, look_sign, survey_bytes as survey_bytes_of};

use crate::buffer::write_bytes;
use crate::code::{EMPTY, NO_MEDIUM, NO_MEMORY};
use c_slots::TraySlot;
use flop_base::{Chrn, NoMemory};
use raw_image::Medium;
use remaster::{SurveyLine, survey};
use sector_map::Look;
use std::alloc::Global;

/// Writes what stands on the medium in a tray to a buffer, 11 bytes for each address field, and reports their number.
#[unsafe(no_mangle)]
pub extern "C" fn telwyddus_tray_survey(
    alloc: Global,
    slot: &mut TraySlot,
    out: &mut [u8],
    length: &mut usize,
) -> u32
    ensures { Serves (λ code old new. (new ≡ old) × WritesSurvey old.medium code out.old out.new length.old length.new)
        ((out.new ≡ out.old) × (length.new ≡ length.old)) result slot.old.held.tray slot.new.held.tray }
{
    let Some(tray) = slot.take(alloc) else {
        return EMPTY;
    };
    let code = write_survey(alloc, tray.medium.as_ref(), out, length);
    slot.put(tray);
    code
}

/// Writes what stands on a medium to a buffer.
fn write_survey(alloc: Global, medium: Option<&Medium>, out: &mut [u8], length: &mut usize) -> u32
    ensures { WritesSurvey (option_copied medium.entry) result out.old out.new length.old length.new }
{
    let Some(medium) = medium else {
        return NO_MEDIUM;
    };
    let Ok(lines) = survey(alloc, medium) else {
        return NO_MEMORY;
    };
    match survey_bytes(alloc, &lines) {
        Err(_) => NO_MEMORY,
        Ok(bytes) => write_bytes(&bytes, out, length),
    }
}

/// The bytes of a survey.
fn survey_bytes(alloc: Global, lines: &[SurveyLine]) -> Result<Vec<u8>, NoMemory>
    ensures { IfOk result (λ bytes. bytes.items ≡ survey_bytes_of lines.now) }
{
    let mut bytes = Vec::new(alloc);
    for line in lines {
        push_line(&mut bytes, *line)?;
    }
    Ok(bytes)
}

/// Adds the bytes of an address field: cylinder and head of the track, the first cell of the field with the lowest byte
/// first, the sector ID, and a sign of what was found.
fn push_line(bytes: &mut Vec<u8>, line: SurveyLine) -> Result<(), NoMemory>
    ensures { OnOk result (bytes.new.items ≡ bytes.old.items ++ line_bytes line) }
{
    let place = line.field.place;
    let Chrn { c, h, r, n } = line.field.key;
    let spelled = [
        line.cylinder,
        line.head,
        (place % 256) as u8,
        (place / 256 % 256) as u8,
        (place / 65_536 % 256) as u8,
        (place / 16_777_216 % 256) as u8,
        c,
        h,
        r,
        n,
        look_sign(n, line.look),
    ];
    bytes.extend_from_slice(&spelled)?;
    Ok(())
}

/// The sign of what was found. Missing or damaged data has the status code of INT 13h as its sign. A size code that
/// names no size has FF.
fn look_sign(n: u8, look: Look) -> u8
    ensures { result ≡ look_sign n look }
{
    if n < 1 || n > 6 {
        return 0xFF;
    }
    match look {
        Look::Found { deleted: false, .. } => 0x00,
        Look::Found { deleted: true, .. } => 0x01,
        Look::NoMark | Look::NoData => 0x02,
        Look::NoSector => 0x04,
        Look::BadCrc => 0x10,
    }
}
