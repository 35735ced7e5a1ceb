// A controller whose media are out of its bays, and back.
ghost use Rattle.std.specs.Prelude.{◌≡◌, ◌≤◌, ◌-◌, true, Some, IfOk, IfErr};
ghost use Rattle.std.specs.Bool.{OnTrue, OnFalse};
ghost use Rattle.telwyddus_c.specs.Common.{option_copied, bay_state, BayWithMedium, same_length};
ghost use Rattle.telwyddus_c.specs.Bare.{stand_in, stand_in_for as stand_in_of, alike as alike_of, media_alike, medium_in, BareBytes, HasMedium, IsBared, IsRefilled};
ghost use Rattle.telwyddus_c.specs.Bare.{same_rate as same_rate_of, with_writes_at, with_writes_of};
ghost use Rattle.telwyddus_c.specs.Drives.{held};

use crate::state::{BARE, save_behind};
use c_bay_drive::BayDrive;
use c_slots::WholeController;
use drive_model::{Drive, Inspect};
use flop_base::{NoMemory, Rate};
use raw_image::Medium;
use std::alloc::Global;
use std::mem;

/// What stands in for the medium of a bay.
fn stand_in_for(alloc: Global, medium: Option<&Medium>) -> Result<Option<Medium>, NoMemory>
    ensures { IfOk result (λ it. it ≡ stand_in_of (option_copied medium.entry)) }
{
    let Some(medium) = medium else {
        return Ok(None);
    };
    let blank = Medium::blank_at(alloc, 1, 1, medium.words(), medium.rate())?;
    Ok(Some(blank))
}

/// Whether both rates are the same.
fn same_rate(one: Rate, other: Rate) -> bool
    ensures { result ≡ same_rate_of one other }
{
    match one {
        Rate::R500 => matches!(other, Rate::R500),
        Rate::R250 => matches!(other, Rate::R250),
    }
}

/// Whether both media are missing, or their tracks have the same length and rate.
fn alike(one: Option<&Medium>, other: Option<&Medium>) -> bool
    ensures { result ≡ alike_of (option_copied one.entry) (option_copied other.entry) }
{
    match one {
        None => other.is_none(),
        Some(one) => match other {
            None => false,
            Some(other) => { other.words() == one.words() && same_rate(one.rate(), other.rate()) }
        },
    }
}

/// The medium in a bay.
fn medium_of(controller: &WholeController, bay: u8) -> Option<&Medium>
    requires { bay ≤ 1 }
    ensures { option_copied result ≡ medium_in controller.now bay }
{
    controller.drive(bay).medium()
}

/// Whether the media of both bays are alike.
fn are_alike(one: &WholeController, other: &WholeController) -> bool
    ensures { result ≡ media_alike one.now other.now }
{
    let first = alike(medium_of(one, 0), medium_of(other, 0));
    let second = alike(medium_of(one, 1), medium_of(other, 1));
    first && second
}

/// Puts a medium in place of the one in a drive, and returns the one that was in.
fn trade(drive: &mut BayDrive, medium: Medium) -> Medium
    requires { same_length medium (bay_state drive.old).medium ≡ true }
    ensures has { BayWithMedium (Some medium) drive.old drive.new }
    ensures before { Some result ≡ (bay_state drive.old).medium }
{
    match drive.exchange(medium) {
        Ok(before) => before,
        Err(back) => back,
    }
}

/// Puts a medium in place of the one in the drive of a bay, and returns the one that was in.
fn replace_medium(
    alloc: Global,
    controller: &mut WholeController,
    bay: u8,
    medium: Medium,
) -> Option<Medium>
    requires bay { bay ≤ 1 }
    requires alike { same_length medium (medium_in controller.old bay) ≡ true }
    ensures has { HasMedium (Some medium) bay controller.old controller.new }
    ensures before { result ≡ medium_in controller.old bay }
{
    let mut drive = BayDrive::new(Vec::new(alloc));
    controller.swap_drive(bay, &mut drive);
    let before = trade(&mut drive, medium);
    controller.swap_drive(bay, &mut drive);
    Some(before)
}

/// Puts a medium in place of the one in a bay, and returns the one that was in. If none is given, none is in, and
/// nothing is done.
fn exchange(
    alloc: Global,
    controller: &mut WholeController,
    bay: u8,
    medium: Option<Medium>,
) -> Option<Medium>
    requires bay { bay ≤ 1 }
    requires alike { alike_of medium (medium_in controller.old bay) ≡ true }
    ensures has { HasMedium medium bay controller.old controller.new }
    ensures before { result ≡ medium_in controller.old bay }
{
    match medium {
        None => None,
        Some(medium) => replace_medium(alloc, controller, bay, medium),
    }
}

/// Takes the medium of a bay out, and leaves its stand-in there.
fn take_out(
    alloc: Global,
    controller: &mut WholeController,
    bay: u8,
) -> Result<Option<Medium>, NoMemory>
    requires { bay ≤ 1 }
    ensures done { IfOk result (λ medium. (medium ≡ medium_in controller.old bay)
        × HasMedium (stand_in_of (medium_in controller.old bay)) bay controller.old controller.new) }
    ensures refused { IfErr result (λ _. controller.new ≡ controller.old) }
{
    let blank = stand_in_for(alloc, medium_of(controller, bay))?;
    Ok(exchange(alloc, controller, bay, blank))
}

/// The bytes of the controller without the medium of bay 1. Afterwards that medium is back.
fn bytes_without_second(
    alloc: Global,
    controller: &mut WholeController,
) -> Result<Vec<u8>, NoMemory>
    ensures same { controller.new ≡ controller.old }
    ensures bytes { IfOk result (λ bytes. BareBytes (HasMedium (stand_in_of (medium_in controller.old 1)) 1 controller.old) bytes.items) }
{
    let second = take_out(alloc, controller, 1)?;
    let bytes = save_behind(alloc, &BARE, controller);
    exchange(alloc, controller, 1, second);
    bytes
}

/// The bytes of the controller without its media. Afterwards they are back.
pub(crate) fn bare_bytes(
    alloc: Global,
    controller: &mut WholeController,
) -> Result<Vec<u8>, NoMemory>
    ensures same { controller.new ≡ controller.old }
    ensures bytes { IfOk result (λ bytes. BareBytes (IsBared controller.old) bytes.items) }
{
    let first = take_out(alloc, controller, 0)?;
    let bytes = bytes_without_second(alloc, controller);
    exchange(alloc, controller, 0, first);
    bytes
}

/// Takes the medium of a bay out of a controller that isn't used any more.
fn take_medium(alloc: Global, controller: &mut WholeController, bay: u8) -> Option<Medium>
    requires { bay ≤ 1 }
    ensures medium { result ≡ medium_in controller.old bay }
    ensures other { held controller.new (1 - bay) ≡ held controller.old (1 - bay) }
{
    let mut drive = BayDrive::new(Vec::new(alloc));
    controller.swap_drive(bay, &mut drive);
    drive.eject()
}

/// Moves the medium of a bay from one controller, which isn't used any more, in place of the one that another has
/// there.
fn move_medium(alloc: Global, from: &mut WholeController, to: &mut WholeController, bay: u8)
    requires bay { bay ≤ 1 }
    requires alike { alike_of (medium_in from.old bay) (medium_in to.old bay) ≡ true }
    ensures moved { HasMedium (medium_in from.old bay) bay to.old to.new }
    ensures other { held from.new (1 - bay) ≡ held from.old (1 - bay) }
{
    let medium = take_medium(alloc, from, bay);
    exchange(alloc, to, bay, medium);
}

/// Lets the drive of a bay also report the writes that another controller's drive there reports.
fn join_writes(alloc: Global, from: &WholeController, to: &mut WholeController, bay: u8)
    requires { bay ≤ 1 }
    ensures { to.new ≡ with_writes_at bay from.now to.old }
{
    let mut drive = BayDrive::new(Vec::new(alloc));
    to.swap_drive(bay, &mut drive);
    drive.join_writes(from.drive(bay));
    to.swap_drive(bay, &mut drive);
}

/// Lets the drives of both bays also report the writes that another controller's drives report.
fn join_all_writes(alloc: Global, from: &WholeController, to: &mut WholeController)
    ensures { to.new ≡ with_writes_of from.now to.old }
{
    join_writes(alloc, from, to, 0);
    join_writes(alloc, from, to, 1);
}

/// Makes the controller what was saved, with its own media, and with what it reports of writes to them. If the media
/// aren't alike, the function says so and leaves the controller as it is.
pub(crate) fn refill(
    alloc: Global,
    controller: &mut WholeController,
    state: &mut WholeController,
) -> bool
    ensures alike { result ≡ media_alike controller.old state.old }
    ensures refilled { OnTrue result (IsRefilled controller.old state.old controller.new) }
    ensures left { OnFalse result (controller.new ≡ controller.old) }
{
    if !are_alike(controller, state) {
        return false;
    }
    join_all_writes(alloc, controller, state);
    move_medium(alloc, controller, state, 0);
    move_medium(alloc, controller, state, 1);
    mem::swap(controller, state);
    true
}
