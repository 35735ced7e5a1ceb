// What a medium is, except for its cells.
ghost use Rattle.std.specs.Prelude.{◌≡◌};
ghost use Rattle.telwyddus_c.specs.Common.{option_copied};
ghost use Rattle.telwyddus_c.specs.Slots.{Serves};

use crate::code::{DONE, EMPTY, NO_MEDIUM};
use c_slots::TraySlot;
use flop_base::Rate;
use raw_image::Medium;
use std::alloc::Global;

/// What a medium is, except for its cells: the words of sixteen cells that each track has, the rate in kbit/s, and how
/// many cylinders and heads there are. The last number is 1 if it is write-protected, and otherwise 0.
#[repr(C)]
#[derive(Clone, Copy, Debug, PartialEq, Eq)]
pub struct MediumShape {
    pub words: u16,
    pub kilobits: u16,
    pub cylinders: u8,
    pub heads: u8,
    pub is_protected: u8,
}

ghost use Rattle.telwyddus_c.specs.Shapes.{TellsShape, kilobits_of as kilobits_of_rate, shape_of as shape_of_disk};

/// Reports the shape of the medium in a tray.
#[unsafe(no_mangle)]
pub extern "C" fn telwyddus_tray_shape(
    alloc: Global,
    slot: &mut TraySlot,
    shape: &mut MediumShape,
) -> u32
    ensures { Serves (λ code old new. (new ≡ old) × TellsShape old.medium code shape.old shape.new) (shape.new ≡ shape.old)
        result slot.old.held.tray slot.new.held.tray }
{
    let Some(tray) = slot.take(alloc) else {
        return EMPTY;
    };
    let code = tell_shape(tray.medium.as_ref(), shape);
    slot.put(tray);
    code
}

/// Reports the shape of a medium, if there is one.
pub(crate) fn tell_shape(medium: Option<&Medium>, shape: &mut MediumShape) -> u32
    ensures { TellsShape (option_copied medium.entry) result shape.old shape.new }
{
    let Some(medium) = medium else {
        return NO_MEDIUM;
    };
    *shape = shape_of(medium);
    DONE
}

/// The shape of a medium.
fn shape_of(medium: &Medium) -> MediumShape
    ensures { result ≡ shape_of_disk medium.now }
{
    MediumShape {
        words: medium.words(),
        kilobits: kilobits_of(medium.rate()),
        cylinders: medium.cylinders(),
        heads: medium.heads(),
        is_protected: u8::from(medium.protected()),
    }
}

/// A rate in kbit/s.
fn kilobits_of(rate: Rate) -> u16
    ensures { result ≡ kilobits_of_rate rate }
{
    match rate {
        Rate::R500 => 500,
        Rate::R250 => 250,
    }
}
