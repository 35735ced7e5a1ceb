// The export of a disk to a flat file.
ghost use Rattle.std.specs.Prelude.{◌≡◌, ◌+◌, ◌≤◌, ◌++◌, IfOk, OnOk, string_bytes};
ghost use Rattle.disk_commands.specs.Common.{user_bytes, bytes_from, RunsScript, by_track, RanPart, Ran, Runs};
ghost use Rattle.disk_commands.specs.Import.{sectors_of};
ghost use Rattle.disk_commands.specs.Export.{reads_record, reads_track, reads_disk, export_text, export_script, GoesOn};

use crate::import::CYLINDERS;
use commands::{AnyRun, acknowledge, record_address};
use flop_base::standard::SIZE_CODE;
use flop_base::{Chrn, Name, NoMemory, Rate, Status};
use floppy_jobs::Request;
use std::alloc::{AllocError, Global};

/// Appends bytes of memory to those of a flat file.
fn gather<R: AnyRun>(run: &R, address: u32, count: u32, flat: &mut Vec<u8>) -> Result<(), NoMemory>
    requires { address + count ≤ user_bytes }
    ensures { OnOk result (flat.new.items ≡ flat.old.items ++ bytes_from (R.hand run.now).world.state.station.memory address count) }
{
    for i in 0..count {
        flat.push(run.memory(address + i))?;
    }
    Ok(())
}

/// Reads a record to its own place, and appends its bytes to those of the flat file.
#[tactic(auto, using(commands::proofs::Running::starved), unfolding(crate::specs::Export::reads_record))]
fn read_record<R: AnyRun>(
    run: &mut R,
    c: u8,
    h: u8,
    r: u8,
    flat: &mut Vec<u8>,
) -> Result<(), Status>
    requires least { 1 ≤ r }
    requires most { r ≤ 18 }
    ensures { RanPart R.hand (GoesOn (reads_record c h r flat.old.items) flat.new.items) run.old result run.new }
{
    let n = SIZE_CODE;
    let key = Chrn { c, h, r, n };
    let address = record_address(r);
    let read = Request::Read {
        bay: 0,
        key,
        address,
    };
    run.need(&read)?;
    match gather(run, address, 512, flat) {
        Ok(()) => Ok(()),
        Err(NoMemory) => Err(Status::NoMemory),
    }
}

/// Reads the records of a track.
fn read_track<R: AnyRun>(
    run: &mut R,
    sectors: u8,
    c: u8,
    h: u8,
    flat: &mut Vec<u8>,
) -> Result<(), Status>
    requires most { sectors ≤ 18 }
    ensures { RanPart R.hand (GoesOn (reads_track sectors c h flat.old.items) flat.new.items) run.old result run.new }
{
    for r in 1..sectors + 1 {
        read_record(run, c, h, r, flat)?;
    }
    Ok(())
}

/// Reads all tracks, by cylinder, then head.
fn read_tracks<R: AnyRun>(run: &mut R, sectors: u8, flat: &mut Vec<u8>) -> Result<(), Status>
    requires most { sectors ≤ 18 }
    ensures { RanPart R.hand (GoesOn (by_track 80 2 (reads_track sectors) flat.old.items) flat.new.items) run.old result run.new }
{
    for track in 0..2 * CYLINDERS {
        read_track(run, sectors, track / 2, track % 2, flat)?;
    }
    Ok(())
}

/// Reads all records of the disk in bay 0. The disk has this rate.
fn read_disk<R: AnyRun>(run: &mut R, rate: Rate, flat: &mut Vec<u8>) -> Result<(), Status>
    ensures { RanPart R.hand (GoesOn (reads_disk rate flat.old.items) flat.new.items) run.old result run.new }
{
    acknowledge(run, 0, rate)?;
    read_tracks(run, rate.sectors(), flat)
}

#[tactic(auto, unfolding(crate::specs::Export::export_text))]
fn export_line(alloc: Global, rate: Rate) -> Result<String, AllocError>
    ensures { IfOk result (λ line. string_bytes line ≡ export_text (sectors_of rate)) }
{
    let sectors = 160 * rate.sectors() as u32;
    format!(in alloc; "export ok {sectors}\n")
}

/// Stores the bytes of all records of a disk, by cylinder, then head, then record, in a flat file. Prints how many
/// records there are, or what stopped the export: a record that can't be read, or one that isn't there.
#[tactic(auto, using(commands::proofs::Running::finished))]
pub fn export_disk<R: AnyRun>(run: &mut R, name: Name, flat: Name) -> Status
    ensures { Ran R.hand (Runs (RunsScript (export_script name flat))) run.old run.new result }
{
    let shape = match run.open_disk(name) {
        Ok(shape) => shape,
        Err(ended) => return ended,
    };
    let mut bytes = Vec::new(run.alloc());
    match read_disk(run, shape.rate, &mut bytes) {
        Ok(()) => {
            let line = export_line(run.alloc(), shape.rate);
            run.store_last(flat.as_str(), &bytes, line, Status::AllOk)
        }
        Err(ended) => ended,
    }
}
