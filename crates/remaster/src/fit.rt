// Whether the sectors of a track can be laid out anew.
ghost use Rattle.std.specs.Prelude.{◌≡◌, ◌≢◌, ◌<◌, ◌↔◌, IsTrue, MatchOption, length, slice_index_or, All, AllPairs};
ghost use Rattle.remaster.specs.Common.{IsSizeCode};
ghost use Rattle.remaster.specs.declared.sectors.Sector.{Sector};
ghost use Rattle.remaster.specs.Fit.{IsOwnKey, HasSizeCode, MayShare, IsFit, IsPlanned};

use crate::sectors::Sector;
use flop_base::{Chrn, Rate};
use track_format::{WIDE_GAP, choose_gap};

/// The most sectors that a track may have.
const MOST_SECTORS: usize = 255;

/// Whether none of the sectors has the key.
fn is_new_key(sectors: &[Sector], key: Chrn) -> bool
    ensures { IsTrue result ↔ All (λ sector. sector.key ≢ key) sectors.now }
{
    for sector in sectors {
        if sector.key == key {
            return false;
        }
    }
    true
}

/// Whether no two of the sectors have the same key.
fn has_distinct_keys(sectors: &[Sector]) -> bool
    ensures { IsTrue result ↔ AllPairs (λ a b. a.key ≢ b.key) sectors.now }
{
    for i in 0..sectors.len() {
        if !is_new_key(&sectors[..i], sectors[i].key) {
            return false;
        }
    }
    true
}

/// Whether all keys name this cylinder and head.
fn has_own_keys(sectors: &[Sector], c: u8, h: u8) -> bool
    ensures { IsTrue result ↔ All (λ sector. IsOwnKey c h sector.key) sectors.now }
{
    for sector in sectors {
        if sector.key.c != c || sector.key.h != h {
            return false;
        }
    }
    true
}

/// Whether all keys have this size code.
fn has_one_size(sectors: &[Sector], n: u8) -> bool
    ensures { IsTrue result ↔ All (HasSizeCode n) sectors.now }
{
    for sector in sectors {
        if sector.key.n != n {
            return false;
        }
    }
    true
}

/// Whether the sectors may be on one track together, if it has room for them. They are at most 255, no two have the
/// same key, each key names the track, and all have this size code.
fn may_share(sectors: &[Sector], n: u8, c: u8, h: u8) -> bool
    ensures { IsTrue result ↔ MayShare n c h sectors.now }
{
    sectors.len() <= MOST_SECTORS
        && has_own_keys(sectors, c, h)
        && has_one_size(sectors, n)
        && has_distinct_keys(sectors)
}

/// The largest wide gap 3 for the sectors of a track, if they can be laid out anew. `n` is the size code of the first
/// sector.
pub(crate) fn fitting_gap(sectors: &[Sector], n: u8, rate: Rate, c: u8, h: u8) -> Option<u8>
    requires some { 0 < length sectors.now }
    requires first { (d : Sector) → HasSizeCode n (slice_index_or sectors.now 0 d) }
    requires coded { IsSizeCode n }
    ensures { MatchOption result (IsFit rate c h sectors.now → ⊥)
        (λ gap3. IsPlanned rate c h sectors.now n gap3) }
{
    if !may_share(sectors, n, c, h) {
        return None;
    }
    choose_gap(n, sectors.len() as u8, rate, WIDE_GAP)
}
