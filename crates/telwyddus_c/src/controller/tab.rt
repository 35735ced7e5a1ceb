// The write-protect tab of media in drives.
ghost use Rattle.std.specs.Prelude.{◌≡◌, ◌≤◌, ◌==◌, not, ⊤};
ghost use Rattle.telwyddus_c.specs.Slots.{Serves, InBay};
ghost use Rattle.telwyddus_c.specs.Tabs.{MovesTabAt};

use crate::code::{DONE, EMPTY, NO_MEDIUM, OUT_OF_RANGE};
use c_slots::{ControllerSlot, WholeController};
use std::alloc::Global;

/// Protects the medium in a bay from writes, or, if `on` is 0, lets it be written. The medium stays in and turns on. A
/// write that is under way isn't ended, but its further words are lost.
#[unsafe(no_mangle)]
pub extern "C" fn telwyddus_controller_protect(
    alloc: Global,
    slot: &mut ControllerSlot,
    bay: u32,
    on: u8,
) -> u32
    ensures { Serves (λ code old new. InBay bay code (new ≡ old) (MovesTabAt bay (not (on == 0)) code old new)) ⊤
        result slot.old.held.controller slot.new.held.controller }
{
    let Some(mut controller) = slot.take(alloc) else {
        return EMPTY;
    };
    let code = move_tab_at(&mut controller, bay, on != 0);
    slot.put(controller);
    code
}

/// Moves the tab of the medium in a bay of a controller.
fn move_tab_at(controller: &mut WholeController, bay: u32, on: bool) -> u32
    ensures { InBay bay result (controller.new ≡ controller.old) (MovesTabAt bay on result controller.old controller.new) }
{
    if bay > 1 {
        return OUT_OF_RANGE;
    }
    move_tab(controller, bay as u8, on)
}

/// Moves the tab of the medium in bay 0 or 1.
fn move_tab(controller: &mut WholeController, bay: u8, on: bool) -> u32
    requires { bay ≤ 1 }
    ensures { MovesTabAt bay on result controller.old controller.new }
{
    let code = if controller.medium(bay).is_some() {
        DONE
    } else {
        NO_MEDIUM
    };
    controller.set_protected(bay, on);
    code
}
