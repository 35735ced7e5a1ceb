// Flat sector files of any geometry in buffers of C.
ghost use Rattle.std.specs.Prelude.{◌≡◌, None};
ghost use Rattle.telwyddus_c.specs.Common.{option_copied};
ghost use Rattle.telwyddus_c.specs.Forms.{FillsForm, ReadsForm, WritesForm, WritesFormOf, WritesNamed, form_named as form_named_by};
ghost use Rattle.telwyddus_c.specs.Slots.{Serves};

use crate::blank::fill;
use crate::buffer::write_bytes;
use crate::code::{BAD_IMAGE, EMPTY, FULL, NO_MEDIUM, NO_MEMORY, OUT_OF_RANGE, UNFIT};
use crate::flat::tell_fault;
use crate::rate::rate_named;
use c_slots::TraySlot;
use flat_files::{FileFault, FlatForm, FormFault, flat_file_as, flat_medium_as};
use raw_image::Medium;
use std::alloc::Global;

/// The geometry of these numbers. No rate but 500 and 250 kbit/s is taken.
fn form_named(cylinders: u8, heads: u8, sectors: u8, n: u8, kilobits: u16) -> Option<FlatForm>
    ensures { result ≡ form_named_by cylinders heads sectors n kilobits }
{
    let rate = rate_named(kilobits)?;
    Some(FlatForm {
        cylinders,
        heads,
        sectors,
        n,
        rate,
    })
}

/// Makes a tray with the medium of a flat file of so many cylinders and heads, at 500 or 250 kbit/s. Each track has the
/// records 1 to `sectors`, of size code `n`.
#[unsafe(no_mangle)]
pub extern "C" fn telwyddus_tray_read_flat_as(
    alloc: Global,
    slot: &mut TraySlot,
    bytes: &[u8],
    cylinders: u8,
    heads: u8,
    sectors: u8,
    n: u8,
    kilobits: u16,
) -> u32
    ensures { ReadsForm bytes.now cylinders heads sectors n kilobits result slot.old.held.tray slot.new.held.tray }
{
    if slot.is_full() {
        return FULL;
    }
    let Some(form) = form_named(cylinders, heads, sectors, n, kilobits) else {
        return OUT_OF_RANGE;
    };
    read_form(alloc, slot, bytes, form)
}

/// Makes a tray with the medium of a flat file of a form, in an empty slot.
fn read_form(alloc: Global, slot: &mut TraySlot, bytes: &[u8], form: FlatForm) -> u32
    requires { slot.old.held.tray ≡ None }
    ensures { FillsForm form bytes.now result slot.old.held.tray slot.new.held.tray }
{
    match flat_medium_as(alloc, bytes, form) {
        Ok(medium) => fill(alloc, slot, medium),
        Err(FormFault::NoForm) => OUT_OF_RANGE,
        Err(FormFault::Length) => BAD_IMAGE,
        Err(FormFault::Crowded) => UNFIT,
        Err(FormFault::NoMemory) => NO_MEMORY,
    }
}

/// Writes the flat file of the medium in a tray to a buffer, in the geometry of these numbers, and reports its length.
/// If there is no such file, the cylinder and head of the first track that doesn't fit it are reported. Both are FF if
/// the medium has another geometry.
#[unsafe(no_mangle)]
pub extern "C" fn telwyddus_tray_write_flat_as(
    alloc: Global,
    slot: &mut TraySlot,
    cylinders: u8,
    heads: u8,
    sectors: u8,
    n: u8,
    kilobits: u16,
    out: &mut [u8],
    length: &mut usize,
    cylinder: &mut u8,
    head: &mut u8,
) -> u32
    ensures { Serves (λ code old new. (new ≡ old) × WritesNamed cylinders heads sectors n kilobits old.medium code
        out.old out.new length.old length.new cylinder.old cylinder.new head.old head.new)
        ((out.new ≡ out.old) × (length.new ≡ length.old) × (cylinder.new ≡ cylinder.old) × (head.new ≡ head.old))
        result slot.old.held.tray slot.new.held.tray }
{
    let Some(tray) = slot.take(alloc) else {
        return EMPTY;
    };
    let form = form_named(cylinders, heads, sectors, n, kilobits);
    let medium = tray.medium.as_ref();
    let code = write_file(alloc, medium, form, out, length, cylinder, head);
    slot.put(tray);
    code
}

/// Writes the flat file of a medium in a form, if there are both.
fn write_file(
    alloc: Global,
    medium: Option<&Medium>,
    form: Option<FlatForm>,
    out: &mut [u8],
    length: &mut usize,
    cylinder: &mut u8,
    head: &mut u8,
) -> u32
    ensures { WritesFormOf form (option_copied medium.entry) result out.old out.new length.old length.new cylinder.old cylinder.new head.old head.new }
{
    let Some(medium) = medium else {
        return NO_MEDIUM;
    };
    match form {
        None => OUT_OF_RANGE,
        Some(form) => write_form(alloc, medium, form, out, length, cylinder, head),
    }
}

/// Writes the flat file of a medium in a form to a buffer.
fn write_form(
    alloc: Global,
    medium: &Medium,
    form: FlatForm,
    out: &mut [u8],
    length: &mut usize,
    cylinder: &mut u8,
    head: &mut u8,
) -> u32
    ensures { WritesForm form medium.now result out.old out.new length.old length.new cylinder.old cylinder.new head.old head.new }
{
    match flat_file_as(alloc, medium, form) {
        Ok(bytes) => write_bytes(&bytes, out, length),
        Err(FileFault::NoForm) => OUT_OF_RANGE,
        Err(FileFault::Flat { fault }) => tell_fault(fault, cylinder, head),
    }
}
