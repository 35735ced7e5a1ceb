// The sectors of the media in a desk's bays.
ghost use Rattle.std.specs.Prelude.{◌≡◌, ◌≤◌, ◌==◌, length, not, ⊤};
ghost use Rattle.telwyddus_c.specs.Common.{is_size_code_of, IsSizeCode, content_size};
ghost use Rattle.telwyddus_c.specs.Disks.{FormatsTrack, ReadsAt, ReadsInto, WritesAt};
ghost use Rattle.telwyddus_c.specs.Slots.{InBay, Serves};

use crate::code::{DONE, EMPTY, OUT_OF_RANGE, TOO_SHORT};
use crate::disk::answers::{answer_code, refusal_code};
use c_slots::DiskSlot;
use flop_base::{Chrn, sector_size};
use sector_desk::SectorDesk;
use std::alloc::Global;

/// Reads the sector of a sector ID (cylinder, head, record and size code) to the beginning of a buffer. Whether it is
/// marked deleted is reported by 1 or 0.
#[unsafe(no_mangle)]
pub extern "C" fn telwyddus_disk_read(
    alloc: Global,
    slot: &mut DiskSlot,
    bay: u32,
    c: u8,
    h: u8,
    r: u8,
    n: u8,
    out: &mut [u8],
    deleted: &mut u8,
) -> u32
    ensures { Serves (λ code old new. InBay bay code ((new ≡ old) × (out.new ≡ out.old) × (deleted.new ≡ deleted.old))
        (ReadsAt bay (record { c = c; h = h; r = r; n = n }) code out.old out.new deleted.old deleted.new old new))
        ((out.new ≡ out.old) × (deleted.new ≡ deleted.old)) result slot.old.held.desk slot.new.held.desk }
{
    let Some(mut desk) = slot.take(alloc) else {
        return EMPTY;
    };
    let key = Chrn { c, h, r, n };
    let code = read_in(&mut desk, bay, key, out, deleted);
    slot.put(desk);
    code
}

/// Reads a sector from a bay of a desk.
fn read_in(desk: &mut SectorDesk, bay: u32, key: Chrn, out: &mut [u8], deleted: &mut u8) -> u32
    ensures { InBay bay result ((desk.new ≡ desk.old) × (out.new ≡ out.old) × (deleted.new ≡ deleted.old))
        (ReadsAt bay key result out.old out.new deleted.old deleted.new desk.old desk.new) }
{
    if bay > 1 {
        return OUT_OF_RANGE;
    }
    read_at(desk, bay as u8, key, out, deleted)
}

/// Reads a sector from bay 0 or 1 of a desk.
fn read_at(desk: &mut SectorDesk, bay: u8, key: Chrn, out: &mut [u8], deleted: &mut u8) -> u32
    requires { bay ≤ 1 }
    ensures { ReadsAt bay key result out.old out.new deleted.old deleted.new desk.old desk.new }
{
    if !is_size_code(key.n) {
        return OUT_OF_RANGE;
    }
    let size = sector_size(key.n);
    if out.len() < size {
        return TOO_SHORT;
    }
    read_sector(desk, bay, key, &mut out[..size], deleted)
}

/// Reads a sector to a buffer of its size.
fn read_sector(
    desk: &mut SectorDesk,
    bay: u8,
    key: Chrn,
    content: &mut [u8],
    deleted: &mut u8,
) -> u32
    requires bay { bay ≤ 1 }
    requires coded { IsSizeCode key.n }
    requires size { length content.old ≡ content_size key.n }
    requires most { length content.old ≤ 8192 }
    ensures { ReadsInto bay key result content.old content.new deleted.old deleted.new desk.old desk.new }
{
    match desk.read(bay, key, content) {
        Ok(is_deleted) => {
            *deleted = u8::from(is_deleted);
            DONE
        }
        Err(code) => refusal_code(code),
    }
}

/// Whether a size code names a size.
fn is_size_code(n: u8) -> bool
    ensures { result ≡ is_size_code_of n }
{
    1 <= n && n <= 6
}

/// Writes bytes to the sector of a sector ID, and reads them back. The sector is marked deleted if `deleted` isn't 0.
#[unsafe(no_mangle)]
pub extern "C" fn telwyddus_disk_write(
    alloc: Global,
    slot: &mut DiskSlot,
    bay: u32,
    c: u8,
    h: u8,
    r: u8,
    n: u8,
    bytes: &[u8],
    deleted: u8,
) -> u32
    ensures { Serves (λ code old new. InBay bay code (new ≡ old)
        (WritesAt bay (record { c = c; h = h; r = r; n = n }) bytes.now (not (deleted == 0)) code old new)) ⊤
        result slot.old.held.desk slot.new.held.desk }
{
    let Some(mut desk) = slot.take(alloc) else {
        return EMPTY;
    };
    let key = Chrn { c, h, r, n };
    let code = write_in(&mut desk, bay, key, bytes, deleted);
    slot.put(desk);
    code
}

/// Writes a sector in a bay of a desk.
fn write_in(desk: &mut SectorDesk, bay: u32, key: Chrn, bytes: &[u8], deleted: u8) -> u32
    ensures { InBay bay result (desk.new ≡ desk.old) (WritesAt bay key bytes.now (not (deleted == 0)) result desk.old desk.new) }
{
    if bay > 1 {
        return OUT_OF_RANGE;
    }
    write_at(desk, bay as u8, key, bytes, deleted != 0)
}

/// Writes a sector in bay 0 or 1 of a desk.
fn write_at(desk: &mut SectorDesk, bay: u8, key: Chrn, bytes: &[u8], deleted: bool) -> u32
    requires { bay ≤ 1 }
    ensures { WritesAt bay key bytes.now deleted result desk.old desk.new }
{
    if !is_size_code(key.n) {
        return OUT_OF_RANGE;
    }
    if bytes.len() != sector_size(key.n) {
        return OUT_OF_RANGE;
    }
    answer_code(desk.write(bay, key, bytes, deleted))
}

/// Formats the track of a cylinder and head in the standard layout of the bay's rate.
#[unsafe(no_mangle)]
pub extern "C" fn telwyddus_disk_format(
    alloc: Global,
    slot: &mut DiskSlot,
    bay: u32,
    c: u8,
    h: u8,
) -> u32
    ensures { Serves (λ code old new. InBay bay code (new ≡ old) (FormatsTrack bay c h code old new)) ⊤
        result slot.old.held.desk slot.new.held.desk }
{
    let Some(mut desk) = slot.take(alloc) else {
        return EMPTY;
    };
    let code = format(&mut desk, bay, c, h);
    slot.put(desk);
    code
}

/// Formats a track in a bay of a desk.
fn format(desk: &mut SectorDesk, bay: u32, c: u8, h: u8) -> u32
    ensures { InBay bay result (desk.new ≡ desk.old) (FormatsTrack bay c h result desk.old desk.new) }
{
    if bay > 1 {
        return OUT_OF_RANGE;
    }
    answer_code(desk.format(bay as u8, c, h))
}
