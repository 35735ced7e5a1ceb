// The write-protect tab of media outside drives.
ghost use Rattle.std.specs.Prelude.{◌==◌, not, ⊤};
ghost use Rattle.telwyddus_c.specs.Slots.{Serves};
ghost use Rattle.telwyddus_c.specs.Tabs.{MovesTab};

use crate::code::{DONE, EMPTY, NO_MEDIUM};
use c_slots::{MediumTray, TraySlot};
use std::alloc::Global;

/// Protects the medium in a tray from writes, or, if `on` is 0, lets it be written.
#[unsafe(no_mangle)]
pub extern "C" fn telwyddus_tray_protect(alloc: Global, slot: &mut TraySlot, on: u8) -> u32
    ensures { Serves (MovesTab (not (on == 0))) ⊤ result slot.old.held.tray slot.new.held.tray }
{
    let Some(mut tray) = slot.take(alloc) else {
        return EMPTY;
    };
    let code = move_tab(&mut tray, on != 0);
    slot.put(tray);
    code
}

/// Moves the tab of the medium in a tray.
fn move_tab(tray: &mut MediumTray, on: bool) -> u32
    ensures { MovesTab on result tray.old tray.new }
{
    let Some(medium) = &mut tray.medium else {
        return NO_MEDIUM;
    };
    medium.set_protected(on);
    DONE
}
