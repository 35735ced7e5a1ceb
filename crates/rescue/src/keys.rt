// The records that a rescue asks for.
ghost use Rattle.std.specs.Prelude.{◌≡◌, ◌++◌, ◌≤◌, ℕ, IfOk, OnOk};
ghost use Rattle.std.specs.List.{AllPairs};
ghost use Rattle.flop_base.specs.Standard.{sectors_at};
ghost use Rattle.sector_map.specs.Standard.{track_keys, cylinder_keys};
ghost use Rattle.rescue.specs.Course.{standard_keys as keys_of_rate, logged_keys as keys_of_log};
ghost use Rattle.rescue.specs.Log.{IsBefore, IsLog};

use crate::LogLine;
use flop_base::standard::SIZE_CODE;
use flop_base::{Chrn, NoMemory, Rate};
use std::alloc::{AllocError, Global};

/// Adds the records of a track.
fn push_track(keys: &mut Vec<Chrn>, sectors: u8, c: u8, h: u8) -> Result<(), NoMemory>
    requires { sectors ≤ 18 }
    ensures { OnOk result (keys.new.items ≡ keys.old.items ++ track_keys sectors c h) }
{
    for r in 1..sectors + 1 {
        keys.push(Chrn {
            c,
            h,
            r,
            n: SIZE_CODE,
        })?;
    }
    Ok(())
}

/// Adds the records of a cylinder, by head.
fn push_cylinder(keys: &mut Vec<Chrn>, sectors: u8, heads: u8, c: u8) -> Result<(), NoMemory>
    requires { sectors ≤ 18 }
    ensures { OnOk result (keys.new.items ≡ keys.old.items ++ cylinder_keys sectors heads c) }
{
    for h in 0..heads {
        push_track(keys, sectors, c, h)?;
    }
    Ok(())
}

/// The records of a diskette in the standard format of its rate, by cylinder, head and number. A rescue without a log
/// asks for these.
#[tactic(auto, unfolding(crate::specs::Course::standard_keys))]
pub fn standard_keys(
    alloc: Global,
    rate: Rate,
    cylinders: u8,
    heads: u8,
) -> Result<Vec<Chrn>, NoMemory>
    ensures keys { IfOk result (λ keys. keys.items ≡ keys_of_rate rate cylinders heads) }
    ensures rising { IfOk result (λ keys. AllPairs IsBefore keys.items) }
{
    let mut keys = Vec::new(alloc);
    let sectors = rate.sectors();
    for c in 0..cylinders {
        push_cylinder(&mut keys, sectors, heads, c)?;
    }
    Ok(keys)
}

/// The records of a log, in its order.
fn listed_keys(alloc: Global, log: &[LogLine]) -> Result<Vec<Chrn>, AllocError>
    ensures { IfOk result (λ keys. keys.items ≡ keys_of_log log.now) }
{
    log.iter().map(|line| line.key).collect(alloc)
}

/// The records of a log. A rescue with a log asks for these.
pub fn logged_keys(alloc: Global, log: &[LogLine]) -> Result<Vec<Chrn>, NoMemory>
    ensures keys { IfOk result (λ keys. keys.items ≡ keys_of_log log.now) }
    ensures rising { (sectors : ℕ) → IsLog sectors log.now
        → IfOk result (λ keys. AllPairs IsBefore keys.items) }
{
    let keys = listed_keys(alloc, log)?;
    Ok(keys)
}
