// The import of a flat file to a disk.
ghost use Rattle.std.specs.Prelude.{◌≡◌, ◌+◌, ◌≤◌, ◌<◌, length, IfOk, string_bytes};
ghost use Rattle.disk_commands.specs.Common.{sectors_at, IsDensity, flat_length, by_track, Goes, RanPart, Ran, Runs};
ghost use Rattle.disk_commands.specs.Import.{fills_record, fills_track, writes_track, imports_track, imports_disk, import_text, sectors_of, Imports};

use crate::flat_file::load_flat;
use commands::{AnyRun, acknowledge, blank_request, record_address};
use flop_base::standard::SIZE_CODE;
use flop_base::{Chrn, Name, Rate, Status};
use floppy_jobs::Request;
use sector_map::flat::place;
use std::alloc::{AllocError, Global};

/// The number of cylinders of a disk that has the sectors of a flat file.
pub(crate) const CYLINDERS: u8 = 80;

/// Sets memory, from the address on, to the bytes of a record, by one request for each byte.
fn fill_record<R: AnyRun>(
    run: &mut R,
    flat: &[u8],
    place: usize,
    address: u32,
) -> Result<(), Status>
    requires inside { place + 512 ≤ length flat.now }
    requires low { address ≤ 0xF0000 }
    ensures { RanPart R.hand (Goes (fills_record flat.now place address tt)) run.old result run.new }
{
    for i in 0..512u32 {
        let byte = flat[place + i as usize];
        let fill = Request::Fill {
            address: address + i,
            length: 1,
            byte,
        };
        run.carry(&fill)?;
    }
    Ok(())
}

/// Sets memory to the bytes of a track, each record at its own place.
fn fill_track<R: AnyRun>(run: &mut R, flat: &[u8], sectors: u8, c: u8, h: u8) -> Result<(), Status>
    requires density { IsDensity sectors }
    requires whole { length flat.now ≡ flat_length sectors }
    requires cylinder { c < 80 }
    requires head { h < 2 }
    ensures { RanPart R.hand (Goes (fills_track flat.now sectors c h)) run.old result run.new }
{
    for r in 1..sectors + 1 {
        let from = place(sectors, c, h, r);
        fill_record(run, flat, from, record_address(r))?;
    }
    Ok(())
}

/// Writes the records of a track, each from its own place.
fn write_track<R: AnyRun>(run: &mut R, sectors: u8, c: u8, h: u8) -> Result<(), Status>
    requires most { sectors ≤ 18 }
    ensures { RanPart R.hand (Goes (writes_track sectors c h)) run.old result run.new }
{
    let n = SIZE_CODE;
    for r in 1..sectors + 1 {
        let write = Request::Write {
            bay: 0,
            key: Chrn { c, h, r, n },
            address: record_address(r),
        };
        run.carry(&write)?;
    }
    Ok(())
}

/// Formats a track and then writes the bytes of its records.
#[tactic(auto, unfolding(crate::specs::Import::imports_track))]
fn import_track<R: AnyRun>(
    run: &mut R,
    flat: &[u8],
    sectors: u8,
    c: u8,
    h: u8,
) -> Result<(), Status>
    requires density { IsDensity sectors }
    requires whole { length flat.now ≡ flat_length sectors }
    requires cylinder { c < 80 }
    requires head { h < 2 }
    ensures { RanPart R.hand (Goes (imports_track flat.now sectors c h tt)) run.old result run.new }
{
    let format = Request::Format { bay: 0, c, h };
    run.carry(&format)?;
    fill_track(run, flat, sectors, c, h)?;
    write_track(run, sectors, c, h)
}

/// Makes all tracks, by cylinder, then head.
fn import_tracks<R: AnyRun>(run: &mut R, flat: &[u8], sectors: u8) -> Result<(), Status>
    requires density { IsDensity sectors }
    requires whole { length flat.now ≡ flat_length sectors }
    ensures { RanPart R.hand (Goes (by_track 80 2 (imports_track flat.now sectors) tt)) run.old result run.new }
{
    for track in 0..2 * CYLINDERS {
        let c = track / 2;
        let h = track % 2;
        import_track(run, flat, sectors, c, h)?;
    }
    Ok(())
}

/// Makes a disk from the bytes of a flat file, and stores it under the name.
fn make_disk<R: AnyRun>(run: &mut R, flat: &[u8], name: Name, rate: Rate) -> Result<(), Status>
    requires whole { length flat.now ≡ flat_length (sectors_at rate) }
    ensures { RanPart R.hand (Goes (imports_disk flat.now name rate)) run.old result run.new }
{
    let blank = blank_request(0, name, CYLINDERS, rate);
    run.carry(&blank)?;
    acknowledge(run, 0, rate)?;
    import_tracks(run, flat, rate.sectors())?;
    run.carry(&Request::Eject { bay: 0 })
}

#[tactic(auto, unfolding(crate::specs::Import::import_text))]
fn import_line(alloc: Global, rate: Rate) -> Result<String, AllocError>
    ensures { IfOk result (λ line. string_bytes line ≡ import_text (sectors_of rate)) }
{
    let sectors = 160 * rate.sectors() as u32;
    format!(in alloc; "import ok {sectors}\n")
}

/// Makes a disk from the bytes of a flat file, and stores it under the name. Prints how many sectors were written, or
/// what stopped the import. A flat file of 737,280 bytes makes a 720 KB disk, and one of 1,474,560 bytes a 1.44 MB
/// disk. No other file is taken.
#[tactic(auto, using(crate::proofs::FlatRuns::imported_flat, crate::proofs::FlatRuns::not_taken))]
pub fn import_disk<R: AnyRun>(run: &mut R, flat: Name, name: Name) -> Status
    ensures { Ran R.hand (Runs (Imports flat name)) run.old run.new result }
{
    match load_flat(run, flat) {
        Ok(loaded) => match make_disk(run, &loaded.bytes, name, loaded.rate) {
            Ok(()) => run.finish(import_line(run.alloc(), loaded.rate), Status::AllOk),
            Err(ended) => ended,
        },
        Err(stop) => run.tell_stop(&stop),
    }
}
