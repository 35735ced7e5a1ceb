// Files as a whole.
ghost use Rattle.std.specs.Prelude.{◌≡◌, vec_len, IfOk};
ghost use Rattle.flat_files.specs.Common.{IsDensity, flat_length};
ghost use Rattle.flat_files.specs.Zeroes.{zeroes};

use flop_base::NoMemory;
use sector_map::flat::{SECTOR_BYTES, TRACKS};
use std::alloc::Global;

/// A flat file whose bytes are all 00.
pub fn blank_flat(alloc: Global, sectors: u8) -> Result<Vec<u8>, NoMemory>
    requires { IsDensity sectors }
    ensures bytes { IfOk result (λ file. file.items ≡ zeroes (flat_length sectors)) }
    ensures len { IfOk result (λ file. vec_len file ≡ flat_length sectors) }
{
    zero_bytes(alloc, TRACKS * usize::from(sectors) * SECTOR_BYTES)
}

#[tactic(auto, unfolding(crate::specs::Zeroes::zeroes))]
fn zero_bytes(alloc: Global, count: usize) -> Result<Vec<u8>, NoMemory>
    ensures bytes { IfOk result (λ bytes. bytes.items ≡ zeroes count) }
    ensures len { IfOk result (λ bytes. vec_len bytes ≡ count) }
{
    Ok(vec![in alloc; 0u8; count]?)
}
