// The requests of a workload. The workload goes on whatever the answers are.
ghost use Rattle.std.specs.Prelude.{◌≡◌, ◌+◌, ◌≤◌, IfOk, sum};
ghost use Rattle.disk_commands.specs.Common.{user_bytes, bytes_from, HasTries, Goes, RanPart};
ghost use Rattle.disk_commands.specs.Workload.{number_after};
ghost use Rattle.disk_commands.specs.Exercise.{no_work, reads_work, write_request, writes_work, works_behind, works, HasRoom, IsOneMore};

use crate::draws::Draws;
use crate::work_tally::WorkTally;
use commands::{AnyRun, is_refusal};
use flop_base::{Chrn, Status};
use floppy_jobs::Request;

/// The address to which a read puts its bytes.
const READ_ADDRESS: u32 = 0x10000;

/// The address from which a write takes its bytes.
const WRITE_ADDRESS: u32 = 0x20000;

/// The sum of the bytes of a record in memory.
fn sum_read<R: AnyRun>(run: &R, address: u32) -> u64
    requires { address + 512 ≤ user_bytes }
    ensures sum { result ≡ sum (bytes_from (R.hand run.now).world.state.station.memory address 512) }
    ensures small { result ≤ 130560 }
{
    let mut sum = 0;
    for i in 0..512u32 {
        sum += run.memory(address + i) as u64;
    }
    sum
}

/// Reads the record of a key.
#[tactic(auto, unfolding(crate::specs::Exercise::reads_work))]
fn read<R: AnyRun>(run: &mut R, key: Chrn, tally: WorkTally) -> Result<WorkTally, Status>
    requires room { HasRoom tally }
    ensures ran { RanPart R.hand (Goes (reads_work key tally)) run.old result run.new }
    ensures more { IfOk result (IsOneMore tally) }
{
    let read = Request::Read {
        bay: 0,
        key,
        address: READ_ADDRESS,
    };
    let reply = run.ask(&read)?;
    if is_refusal(&reply) {
        Ok(tally.and_refused())
    } else {
        Ok(tally.and_done(sum_read(run, READ_ADDRESS)))
    }
}

/// A write to the record of a key, with this mark.
fn write_request(deleted: bool, key: Chrn) -> Request
    ensures value { result ≡ write_request deleted key }
    ensures tries { HasTries result }
{
    let address = WRITE_ADDRESS;
    if deleted {
        Request::WriteDeleted {
            bay: 0,
            key,
            address,
        }
    } else {
        Request::Write {
            bay: 0,
            key,
            address,
        }
    }
}

/// Fills memory with a byte, and writes from there to the record of a key.
#[tactic(auto, unfolding(crate::specs::Exercise::writes_work))]
fn write<R: AnyRun>(
    run: &mut R,
    deleted: bool,
    key: Chrn,
    byte: u8,
    tally: WorkTally,
) -> Result<WorkTally, Status>
    requires room { HasRoom tally }
    ensures ran { RanPart R.hand (Goes (writes_work deleted key byte tally)) run.old result run.new }
    ensures more { IfOk result (IsOneMore tally) }
{
    let fill = Request::Fill {
        address: WRITE_ADDRESS,
        length: 512,
        byte,
    };
    run.ask(&fill)?;
    let reply = run.ask(&write_request(deleted, key))?;
    if is_refusal(&reply) {
        Ok(tally.and_refused())
    } else {
        Ok(tally.and_done(0))
    }
}

/// Runs what the next five draws request.
#[tactic(auto, unfolding(crate::specs::Exercise::works_behind, crate::specs::Exercise::works_drawn))]
fn run_next<R: AnyRun>(
    run: &mut R,
    draws: &mut Draws,
    tally: WorkTally,
) -> Result<WorkTally, Status>
    requires room { HasRoom tally }
    ensures ran { RanPart R.hand (Goes (works_behind draws.old.number tally)) run.old result run.new }
    ensures more { IfOk result (IsOneMore tally) }
    ensures number { draws.new.number ≡ number_after 5 draws.old.number }
{
    let work = draws.work();
    if work.kind == 0 {
        write(run, false, work.key, work.byte, tally)
    } else if work.kind == 3 {
        write(run, true, work.key, work.byte, tally)
    } else {
        read(run, work.key, tally)
    }
}

/// Runs a workload: `count` times what five draws request. The first draw is the one after the seed.
pub(crate) fn run_work<R: AnyRun>(run: &mut R, seed: u32, count: u16) -> Result<WorkTally, Status>
    ensures { RanPart R.hand (Goes (works seed count no_work)) run.old result run.new }
{
    let mut draws = Draws { number: seed };
    let mut tally = WorkTally {
        done: 0,
        refused: 0,
        sum: 0,
    };
    for _i in 0..count {
        tally = run_next(run, &mut draws, tally)?;
    }
    Ok(tally)
}
