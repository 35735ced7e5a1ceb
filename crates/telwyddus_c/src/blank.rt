// Media on which nothing is recorded.
ghost use Rattle.std.specs.Prelude.{◌≡◌, ◌≤◌, ◌==◌, IfSome, MatchBool};
ghost use Rattle.telwyddus_c.specs.Blanks.{FillsBlank, blank_asked};

use crate::code::{DONE, FULL, NO_MEMORY, OUT_OF_RANGE};
use crate::rate::rate_named;
use c_slots::{MediumTray, TraySlot};
use flop_base::Rate;
use raw_image::Medium;
use std::alloc::Global;

/// Makes a tray with an unformatted medium of so many cylinders and two heads, at 500 or 250 kbit/s.
#[unsafe(no_mangle)]
pub extern "C" fn telwyddus_tray_blank(
    alloc: Global,
    slot: &mut TraySlot,
    cylinders: u8,
    kilobits: u16,
) -> u32
    ensures { FillsBlank cylinders kilobits result slot.old.held.tray slot.new.held.tray }
{
    if slot.is_full() {
        return FULL;
    }
    let Some(rate) = blank_asked(cylinders, kilobits) else {
        return OUT_OF_RANGE;
    };
    match Medium::blank_at(alloc, cylinders, 2, rate.words(), rate) {
        Ok(medium) => fill(alloc, slot, medium),
        Err(_) => NO_MEMORY,
    }
}

/// The rate of a blank medium that can be asked for.
fn blank_asked(cylinders: u8, kilobits: u16) -> Option<Rate>
    ensures rate { result ≡ blank_asked cylinders kilobits }
    ensures asked { IfSome result (λ _. (1 ≤ cylinders) × (cylinders ≤ 80)) }
{
    if 1 <= cylinders && cylinders <= 80 {
        rate_named(kilobits)
    } else {
        None
    }
}

/// Makes a tray with this medium in an empty slot.
pub(crate) fn fill(alloc: Global, slot: &mut TraySlot, medium: Medium) -> u32
    requires { slot.old.held.tray ≡ None }
    ensures { MatchBool (result == 0) (slot.new.held.tray ≡ Some (record { medium = Some medium }))
        ((result ≡ 3) × (slot.new.held.tray ≡ slot.old.held.tray)) }
{
    let tray = MediumTray {
        medium: Some(medium),
    };
    let Ok(tray) = Box::new(alloc, tray) else {
        return NO_MEMORY;
    };
    slot.put(tray);
    DONE
}
