// The keys of a standard format, and those that aren't found on a medium.
ghost use Rattle.std.specs.Prelude.{◌≡◌, ◌++◌, ◌<◌, ◌≤◌, ℕ, List, OnOk, IfOk, take};
ghost use Rattle.sector_map.specs.Common.{Chrn, Look, sectors_at};
ghost use Rattle.sector_map.specs.Standard.{track_keys, cylinder_keys, standard_keys};
ghost use Rattle.sector_map.specs.Failing.{unless_found, AreFailing};

use crate::Look;
use crate::disks::look;
use flop_base::standard::SIZE_CODE;
use flop_base::{Chrn, NoMemory};
use raw_image::Medium;
use std::alloc::Global;

/// The keys of a track in a standard format of 512 bytes per sector, by record. At 500 kbit/s all 18 are used, at 250
/// kbit/s the first 9.
pub fn keys_of_track(c: u8, h: u8) -> [Chrn; 18]
    ensures { (sectors : ℕ) → sectors ≤ 18 → take sectors result ≡ track_keys sectors c h }
{
    let mut keys = [Chrn { c, h, r: 0, n: 0 }; 18];
    for i in 0..18 {
        keys[i] = Chrn {
            c,
            h,
            r: (i + 1) as u8,
            n: SIZE_CODE,
        };
    }
    keys
}

/// Adds the key with the answer of its look, unless the key was found.
fn push_unless_found(failed: &mut Vec<(Chrn, Look)>, key: Chrn, look: Look) -> Result<(), NoMemory>
    ensures { OnOk result (failed.new.items ≡ failed.old.items ++ unless_found key look) }
{
    match look {
        Look::Found { .. } => {}
        Look::NoMark | Look::NoSector | Look::NoData | Look::BadCrc => failed.push((key, look))?,
    }
    Ok(())
}

/// Adds those keys of a track that aren't found.
fn push_track(
    failed: &mut Vec<(Chrn, Look)>,
    medium: &Medium,
    sectors: u8,
    c: u8,
    h: u8,
) -> Result<(), NoMemory>
    requires { sectors ≤ 18 }
    ensures { OnOk result ((more : List (Chrn × Look)) × (failed.new.items ≡ failed.old.items ++ more)
        × AreFailing medium.now (track_keys sectors c h) more) }
{
    for r in 1..sectors + 1 {
        let key = Chrn {
            c,
            h,
            r,
            n: SIZE_CODE,
        };
        push_unless_found(failed, key, look(medium, key))?;
    }
    Ok(())
}

/// Adds those keys of a cylinder that aren't found, by head.
fn push_cylinder(
    failed: &mut Vec<(Chrn, Look)>,
    medium: &Medium,
    sectors: u8,
    c: u8,
) -> Result<(), NoMemory>
    requires { sectors ≤ 18 }
    ensures { OnOk result ((more : List (Chrn × Look)) × (failed.new.items ≡ failed.old.items ++ more)
        × AreFailing medium.now (cylinder_keys sectors medium.now.heads c) more) }
{
    for h in 0..medium.heads() {
        push_track(failed, medium, sectors, c, h)?;
    }
    Ok(())
}

/// The keys of the standard format of the medium's rate whose look isn't `Found`, each with its look, by cylinder, head
/// and record. The format has sectors of 512 bytes, 18 per track at 500 kbit/s and 9 at 250 kbit/s.
pub fn failing(alloc: Global, medium: &Medium) -> Result<Vec<(Chrn, Look)>, NoMemory>
    ensures { IfOk result (λ failed. AreFailing medium.now (standard_keys medium.now) failed.items) }
{
    let mut failed = Vec::new(alloc);
    let sectors = medium.rate().sectors();
    for c in 0..medium.cylinders() {
        push_cylinder(&mut failed, medium, sectors, c)?;
    }
    Ok(failed)
}
