// What is found on a track is unique, and says something of its sectors. The cells of bytes hold no mark. The bodies
// are empty.
ghost use Rattle.std.specs.Prelude.{◌≡◌, ◌≢◌, ◌+◌, ◌*◌, ◌≤◌, length};
ghost use Rattle.track_model.specs.Bytes.{legal};
ghost use Rattle.track_model.specs.Cells.{cells_at, IsInside};
ghost use Rattle.track_model.specs.Marks.{IsAddressMark};
ghost use Rattle.track_model.specs.Fields.{IsAddressAt, content_at, content_size};
ghost use Rattle.track_model.specs.Looks.{LookAt, LookFor};
ghost use Rattle.track_model.specs.Windows.{HasFieldFor};
ghost use Rattle.track_model.specs.Laid.{IsRegularLay, with_window, IsLaid};
ghost use Rattle.track_model.specs.Torn.{TornWrite, stops_of, with_torn, IsOver, IsTorn};
ghost use Rattle.track_model.specs.Sectors.{IsClear, IsPlain, IsSector, IsUnder};

use crate::Look;
use flop_base::Chrn;

/// The address field at a place has only one key.
#[tactic(auto, using(crate::proofs::Unique::one_key))]
pub fn key_is_one(_words: &[u16], _place: usize, _key: Chrn, _other: Chrn)
    requires has_key { IsAddressAt _words.now _place _key }
    requires has_other { IsAddressAt _words.now _place _other }
    ensures { _key ≡ _other }
{}

/// The look at an address field has only one answer.
#[tactic(auto, using(crate::proofs::Unique::one_look_at))]
pub fn look_at_is_one(_words: &[u16], _place: usize, _n: u8, _look: Look, _other: Look)
    requires is_look { LookAt _words.now _place _n _look }
    requires is_other { LookAt _words.now _place _n _other }
    ensures { _look ≡ _other }
{}

/// The look for a key has only one answer.
#[tactic(auto, using(crate::proofs::Unique::one_look_for))]
pub fn look_is_one(_words: &[u16], _key: Chrn, _look: Look, _other: Look)
    requires is_look { LookFor _words.now _key _look }
    requires is_other { LookFor _words.now _key _other }
    ensures { _look ≡ _other }
{}

/// What the look for a key finds is a sector of that key, and its content and CRC are inside the track.
#[tactic(auto, using(crate::proofs::Sectored::found_inside, crate::proofs::Sectored::found_sector))]
pub fn found_is_sector(_words: &[u16], _key: Chrn, _deleted: bool, _place: usize)
    requires { LookFor _words.now _key (Look.Found _deleted _place) }
    ensures sector { IsSector _words.now _key _deleted (content_at _words.now _place _key.n) }
    ensures inside { IsInside _words.now _place (16 * (content_size _key.n + 2)) }
{}

/// A sector is under its key: its first data mark is one of the data marks.
#[tactic(auto, using(crate::proofs::Sectored::sector_under))]
pub fn sector_is_under(_words: &[u16], _key: Chrn, _deleted: bool, _content: &[u8])
    requires { IsSector _words.now _key _deleted _content.now }
    ensures { IsUnder _words.now _key _deleted _content.now }
{}

/// On a Plain track every address mark is Clear.
#[tactic(auto, using(crate::proofs::Sectored::plain_clear))]
pub fn plain_is_clear(_words: &[u16], _place: usize)
    requires plain { IsPlain _words.now }
    requires mark { IsAddressMark _words.now _place }
    ensures { IsClear _words.now _place }
{}

/// A regular formatted track is Laid.
#[tactic(auto, using(crate::proofs::Laid::lay_laid))]
pub fn lay_is_laid(_words: &[u16], _keys: &[Chrn], _n: u8, _gap3: u8, _fill: u8, _count: usize)
    requires { IsRegularLay _words.now _keys.now _n _gap3 _fill _count }
    ensures { IsLaid _words.now }
{}

/// A Laid track stays Laid after a whole window is written at the place of an address field. The content has the size
/// that the field names.
#[tactic(auto, using(crate::proofs::Laid::written_laid))]
pub fn written_is_laid(_words: &[u16], _place: usize, _deleted: bool, _content: &[u8])
    requires laid { IsLaid _words.now }
    requires field { HasFieldFor _words.now _place _content.now }
    ensures { IsLaid (with_window _words.now _place _deleted _content.now) }
{}

/// A Torn track stays Torn after a write that goes at least as far as the last one at its place, if that one stopped.
#[tactic(auto, using(crate::proofs::Torn::write_torn))]
pub fn written_is_torn(_words: &[u16])
    ensures { (torn : IsTorn _words.now) (write : TornWrite)
        → IsOver (stops_of (λ p. 0) torn.writes) _words.now write → IsTorn (with_torn _words.now write) }
{}

/// No mark A1 stands in the cells of bytes, at any phase: its lost clock doesn't occur there.
#[tactic(auto, using(crate::proofs::Legals::no_mark))]
pub fn legal_has_no_mark(_last: bool, _bytes: &[u8], _p: usize)
    requires { _p + 16 ≤ 16 * length _bytes.now }
    ensures { cells_at (legal _last _bytes.now) _p ≢ 0x4489 }
{}
