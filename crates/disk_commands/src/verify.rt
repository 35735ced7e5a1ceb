// The verify of a whole disk.
ghost use Rattle.std.specs.Prelude.{◌≡◌, ◌+◌, ◌≤◌, IfOk, string_bytes};
ghost use Rattle.disk_commands.specs.Common.{sectors_at, RunsScript, each, by_track, Goes, Finishes, Runs, Ran, RanPart};
ghost use Rattle.disk_commands.specs.Disks.{sectors_of};
ghost use Rattle.disk_commands.specs.Verify.{failure_line, tells_failure, no_reads, verifies_record, verifies_track, verify_text, reads_disk, verify_script};

use crate::read_tally::ReadTally;
use crate::shape::sector_count;
use commands::{AnyRun, TRACK_ADDRESS, acknowledge, is_refusal, reason_word, whole_status};
use flop_base::standard::SIZE_CODE;
use flop_base::{Chrn, Name, Status};
use floppy_jobs::Request;
use floppy_session::Shape;
use sector_model::{Reason, Reply};
use std::alloc::{AllocError, Global};

/// The line of a record that couldn't be read.
#[tactic(auto, unfolding(crate::specs::Verify::failure_line))]
fn failure_line(alloc: Global, key: Chrn, reason: Reason) -> Result<String, AllocError>
    ensures { IfOk result (λ line. string_bytes line ≡ failure_line key reason) }
{
    let word = reason_word(alloc, reason)?;
    let word = word.as_str();
    let Chrn { c, h, r, .. } = key;
    format!(in alloc; "{c} {h} {r} {word}\n")
}

/// Prints a line for a read that was refused, and nothing for any other.
#[tactic(auto, unfolding(crate::specs::Verify::tells_failure))]
fn tell_failure<R: AnyRun>(run: &mut R, key: Chrn, reply: &Reply) -> Result<(), Status>
    ensures { RanPart R.hand (Goes (tells_failure key reply.now)) run.old result run.new }
{
    match reply {
        Reply::Refused(reason) => run.say(failure_line(run.alloc(), key, *reason)),
        Reply::Done | Reply::DoneDeleted | Reply::Bytes { .. } => Ok(()),
    }
}

/// Reads a record, and prints a line if it can't be read.
#[tactic(auto, unfolding(crate::specs::Verify::verifies_record))]
fn verify_record<R: AnyRun>(
    run: &mut R,
    tally: ReadTally,
    c: u8,
    h: u8,
    r: u8,
) -> Result<ReadTally, Status>
    requires { tally.well + 1 ≤ 4294967295 }
    ensures ran { RanPart R.hand (Goes (verifies_record c h r tally)) run.old result run.new }
    ensures few { IfOk result (λ now. now.well ≤ tally.well + 1) }
{
    let key = Chrn {
        c,
        h,
        r,
        n: SIZE_CODE,
    };
    let read = Request::Read {
        bay: 0,
        key,
        address: TRACK_ADDRESS,
    };
    let reply = run.ask(&read)?;
    tell_failure(run, key, &reply)?;
    Ok(tally.and(is_refusal(&reply)))
}

/// Reads the records of a track.
#[tactic(auto, unfolding(crate::specs::Verify::verifies_track))]
fn verify_track<R: AnyRun>(
    run: &mut R,
    tally: ReadTally,
    sectors: u8,
    c: u8,
    h: u8,
) -> Result<ReadTally, Status>
    requires most { sectors ≤ 18 }
    requires room { tally.well + 18 ≤ 4294967295 }
    ensures ran { RanPart R.hand (Goes (verifies_track sectors c h tally)) run.old result run.new }
    ensures few { IfOk result (λ now. now.well ≤ tally.well + 18) }
{
    let mut now = tally;
    for r in 1..sectors + 1 {
        now = verify_record(run, now, c, h, r)?;
    }
    Ok(now)
}

/// Reads the tracks of a cylinder.
fn verify_cylinder<R: AnyRun>(
    run: &mut R,
    tally: ReadTally,
    heads: u8,
    sectors: u8,
    c: u8,
) -> Result<ReadTally, Status>
    requires most { sectors ≤ 18 }
    requires room { tally.well + 4590 ≤ 4294967295 }
    ensures ran { RanPart R.hand (Goes (each 0 heads (verifies_track sectors c) tally)) run.old result run.new }
    ensures few { IfOk result (λ now. now.well ≤ tally.well + 4590) }
{
    let mut now = tally;
    for h in 0..heads {
        now = verify_track(run, now, sectors, c, h)?;
    }
    Ok(now)
}

/// Reads all tracks, by cylinder, then head.
fn verify_tracks<R: AnyRun>(
    run: &mut R,
    tally: ReadTally,
    cylinders: u8,
    heads: u8,
    sectors: u8,
) -> Result<ReadTally, Status>
    requires most { sectors ≤ 18 }
    requires room { tally.well + 1170450 ≤ 4294967295 }
    ensures { RanPart R.hand (Goes (by_track cylinders heads (verifies_track sectors) tally)) run.old result run.new }
{
    let mut now = tally;
    for c in 0..cylinders {
        now = verify_cylinder(run, now, heads, sectors, c)?;
    }
    Ok(now)
}

#[tactic(auto, unfolding(crate::specs::Verify::verify_text))]
fn verify_line(alloc: Global, tally: ReadTally, shape: Shape) -> Result<String, AllocError>
    ensures { IfOk result (λ line. string_bytes line ≡ verify_text tally.well (sectors_of shape)) }
{
    let well = tally.well;
    let all = sector_count(shape);
    format!(in alloc; "verify {well} of {all}\n")
}

/// Reads every sector of a disk that is put in.
#[tactic(auto, unfolding(crate::specs::Verify::reads_disk))]
fn read_disk<R: AnyRun>(run: &mut R, name: Name) -> Result<(Shape, ReadTally), Status>
    ensures { RanPart R.hand (Goes (reads_disk name)) run.old result run.new }
{
    let shape = run.open_disk(name)?;
    acknowledge(run, 0, shape.rate)?;
    let sectors = shape.rate.sectors();
    let none = ReadTally::none();
    let tally = verify_tracks(run, none, shape.cylinders, shape.heads, sectors)?;
    Ok((shape, tally))
}

/// Reads every sector of the disk of this name. Prints a line for each sector that can't be read, with its cylinder,
/// head and record, and the reason. The last line says how many were read.
#[tactic(auto, using(commands::proofs::Running::finished), unfolding(crate::specs::Verify::verify_script))]
pub fn verify_disk<R: AnyRun>(run: &mut R, name: Name) -> Status
    ensures { Ran R.hand (Runs (RunsScript (verify_script name))) run.old run.new result }
{
    match read_disk(run, name) {
        Ok((shape, tally)) => {
            let status = whole_status(tally.refused);
            run.finish(verify_line(run.alloc(), tally, shape), status)
        }
        Err(ended) => ended,
    }
}
