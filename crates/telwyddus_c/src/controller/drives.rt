// The drives of bays: their cables, their plans, and the tracks that were written.
ghost use Rattle.std.specs.Prelude.{◌≡◌, ◌≤◌, ◌==◌, not, ⊤};
ghost use Rattle.telwyddus_c.specs.Common.{lists_of};
ghost use Rattle.telwyddus_c.specs.Drives.{faults_for as faults_of_bay, keeps_cable as keeps_cable_of, Attaches, AttachesAt, PlansAt, Replans, TellsTracks};
ghost use Rattle.telwyddus_c.specs.Slots.{Serves, InBay};

use crate::code::{BAD_PLAN, DONE, EMPTY, HAS_MEDIUM, NO_MEMORY, OUT_OF_RANGE};
use c_bay_drive::BayDrive;
use c_slots::{ControllerSlot, WholeController};
use drive_model::Fault;
use fault_plan::{FaultPlan, PlanError, plan_of};
use std::alloc::Global;

/// A bit for each track by cylinder, then head. The bit of track 0 is the lowest of byte 0.
#[repr(C)]
pub struct TrackBits {
    pub bytes: [u8; 20],
}

/// Puts the cable of a bay's drive in, or, if `on` is 0, pulls it. The cable isn't pulled while a medium is in.
#[unsafe(no_mangle)]
pub extern "C" fn telwyddus_controller_attach(
    alloc: Global,
    slot: &mut ControllerSlot,
    bay: u32,
    on: u8,
) -> u32
    ensures { Serves (λ code old new. InBay bay code (new ≡ old) (AttachesAt bay (not (on == 0)) code old new)) ⊤
        result slot.old.held.controller slot.new.held.controller }
{
    let Some(mut controller) = slot.take(alloc) else {
        return EMPTY;
    };
    let code = attach_at(alloc, &mut controller, bay, on != 0);
    slot.put(controller);
    code
}

/// Puts the cable of a bay's drive in a controller in, or pulls it.
fn attach_at(alloc: Global, controller: &mut WholeController, bay: u32, on: bool) -> u32
    ensures { InBay bay result (controller.new ≡ controller.old) (AttachesAt bay on result controller.old controller.new) }
{
    if bay > 1 {
        return OUT_OF_RANGE;
    }
    attach(alloc, controller, bay as u8, on)
}

/// Puts the cable of the drive of bay 0 or 1 in, or pulls it.
fn attach(alloc: Global, controller: &mut WholeController, bay: u8, on: bool) -> u32
    requires { bay ≤ 1 }
    ensures { AttachesAt bay on result controller.old controller.new }
{
    if keeps_cable(controller, bay, on) {
        return HAS_MEDIUM;
    }
    set_cable(alloc, controller, bay, on);
    DONE
}

/// Whether the cable isn't to be pulled, because a medium is in.
fn keeps_cable(controller: &WholeController, bay: u8, on: bool) -> bool
    requires { bay ≤ 1 }
    ensures { result ≡ keeps_cable_of bay on controller.now }
{
    !on && controller.medium(bay).is_some()
}

/// Puts the cable in, or pulls it.
fn set_cable(alloc: Global, controller: &mut WholeController, bay: u8, on: bool)
    requires { bay ≤ 1 }
    ensures { Attaches bay on controller.old controller.new }
{
    let mut drive = BayDrive::new(Vec::new(alloc));
    controller.swap_drive(bay, &mut drive);
    let mut cabled = drive.with_cable(on);
    controller.swap_drive(bay, &mut cabled);
}

/// Plans the faults that a plan's text has for a bay, in place of those that can still come there. The medium stays in,
/// and turns on. If a line isn't understood, its number is reported, counted from 1, or 0 if the text is too long.
#[unsafe(no_mangle)]
pub extern "C" fn telwyddus_controller_plan(
    alloc: Global,
    slot: &mut ControllerSlot,
    bay: u32,
    plan: &[u8],
    line: &mut usize,
) -> u32
    ensures { Serves (λ code old new. InBay bay code ((new ≡ old) × (line.new ≡ line.old)) (PlansAt bay plan.now code line.old line.new old new)) (line.new ≡ line.old)
        result slot.old.held.controller slot.new.held.controller }
{
    let Some(mut controller) = slot.take(alloc) else {
        return EMPTY;
    };
    let code = plan_at(alloc, &mut controller, bay, plan, line);
    slot.put(controller);
    code
}

/// Plans the faults of a text for a bay of a controller.
fn plan_at(
    alloc: Global,
    controller: &mut WholeController,
    bay: u32,
    plan: &[u8],
    line: &mut usize,
) -> u32
    ensures { InBay bay result ((controller.new ≡ controller.old) × (line.new ≡ line.old))
        (PlansAt bay plan.now result line.old line.new controller.old controller.new) }
{
    if bay > 1 {
        return OUT_OF_RANGE;
    }
    plan_bay(alloc, controller, bay as u8, plan, line)
}

/// Plans the faults of a text for bay 0 or 1.
fn plan_bay(
    alloc: Global,
    controller: &mut WholeController,
    bay: u8,
    plan: &[u8],
    line: &mut usize,
) -> u32
    requires { bay ≤ 1 }
    ensures { PlansAt bay plan.now result line.old line.new controller.old controller.new }
{
    match plan_of(alloc, plan) {
        Ok(plan) => {
            let faults = faults_for(bay, plan);
            replan(alloc, controller, bay, faults);
            DONE
        }
        Err(PlanError::NoMemory) => NO_MEMORY,
        Err(PlanError::BadLine { line: bad }) => {
            *line = bad;
            BAD_PLAN
        }
    }
}

/// The faults that a plan has for a bay.
fn faults_for(bay: u8, plan: FaultPlan) -> Vec<Fault>
    ensures { result.items ≡ faults_of_bay bay (lists_of plan) }
{
    if bay == 0 { plan.bay0 } else { plan.bay1 }
}

/// Plans these faults for the drive of a bay.
pub(crate) fn replan(alloc: Global, controller: &mut WholeController, bay: u8, faults: Vec<Fault>)
    requires { bay ≤ 1 }
    ensures { Replans bay faults.items controller.old controller.new }
{
    let mut drive = BayDrive::new(Vec::new(alloc));
    controller.swap_drive(bay, &mut drive);
    drive.replan(faults);
    controller.swap_drive(bay, &mut drive);
}

/// Reports which tracks of the medium in a bay were written since this was last asked, or since it was put in.
#[unsafe(no_mangle)]
pub extern "C" fn telwyddus_controller_written_tracks(
    alloc: Global,
    slot: &mut ControllerSlot,
    bay: u32,
    map: &mut TrackBits,
) -> u32
    ensures { Serves (λ code old new. InBay bay code ((new ≡ old) × (map.new ≡ map.old)) ((code ≡ 0) × TellsTracks bay old map.new.bytes new)) (map.new ≡ map.old)
        result slot.old.held.controller slot.new.held.controller }
{
    let Some(mut controller) = slot.take(alloc) else {
        return EMPTY;
    };
    let code = tell_tracks(alloc, &mut controller, bay, map);
    slot.put(controller);
    code
}

/// Reports which tracks of the medium in a bay of a controller were written.
fn tell_tracks(
    alloc: Global,
    controller: &mut WholeController,
    bay: u32,
    map: &mut TrackBits,
) -> u32
    ensures { InBay bay result ((controller.new ≡ controller.old) × (map.new ≡ map.old))
        ((result ≡ 0) × TellsTracks bay controller.old map.new.bytes controller.new) }
{
    if bay > 1 {
        return OUT_OF_RANGE;
    }
    take_tracks(alloc, controller, bay as u8, map);
    DONE
}

/// Reports which tracks of the medium in bay 0 or 1 were written.
fn take_tracks(alloc: Global, controller: &mut WholeController, bay: u8, map: &mut TrackBits)
    requires { bay ≤ 1 }
    ensures { TellsTracks bay controller.old map.new.bytes controller.new }
{
    let mut drive = BayDrive::new(Vec::new(alloc));
    controller.swap_drive(bay, &mut drive);
    let tracks = drive.take_tracks();
    controller.swap_drive(bay, &mut drive);
    map.bytes = tracks.array();
}
