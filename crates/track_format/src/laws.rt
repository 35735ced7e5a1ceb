// What a read finds on a formatted track, and what a torn write leaves of one.
ghost use Rattle.std.specs.Prelude.{◌≡◌, ◌≢◌, ◌≤◌, ◌↔◌, ℕ, length, All, AllPairs, Contains};
ghost use Rattle.flop_base.specs.Standard.{words_at};
ghost use Rattle.flop_base.specs.declared.key.Chrn.{Chrn};
ghost use Rattle.track_model.specs.Marks.{IsAddressMark};
ghost use Rattle.track_model.specs.Fields.{IsAddressAt};
ghost use Rattle.track_model.specs.Layouts.{laid_words, lay, Fits};
ghost use Rattle.track_model.specs.LaidFields.{HasLaidFields, IsKey, HasEndRoom};
ghost use Rattle.track_model.specs.Windows.{HasFieldFor, IsTidy};
ghost use Rattle.track_model.specs.Laid.{IsLaid};
ghost use Rattle.track_model.specs.Torn.{IsTorn};
ghost use Rattle.track_model.specs.Regular.{IsSpaced, IsRegular};
ghost use Rattle.track_model.specs.Sectors.{IsPlain, IsLone};
ghost use Rattle.track_format.specs.Gaps.{narrow_gap, Suits};
ghost use Rattle.track_format.specs.Reads.{HasClearField, AllFilled, HoldsFill};

use flop_base::{Chrn, Rate};

/// A formatted track has exactly the requested sectors, each at its place and whole. If its end has room for a write
/// over the last data field, the sectors keep their distance. If the keys are also distinct, and of one cylinder and
/// head, the track is regular.
pub fn lay_reads(_keys: &[Chrn], _n: u8, _gap3: u8, _fill: u8, _words: usize)
    requires at_least { 1 ≤ _n }
    requires at_most { _n ≤ 6 }
    requires wide { 16 ≤ _gap3 }
    requires fits { Fits _keys.now _n _gap3 _words }
    requires bytes { All (λ key. IsKey key) _keys.now }
    requires asked { All (λ key. key.n ≡ _n) _keys.now }
    ensures plain { IsPlain (lay _keys.now _n _gap3 _fill _words) }
    ensures fields { HasLaidFields (lay _keys.now _n _gap3 _fill _words) _keys.now _n _gap3 _fill }
    ensures spaced { HasEndRoom (length _keys.now) _n _gap3 _words
        → IsSpaced (lay _keys.now _n _gap3 _fill _words) }
    ensures regular { (c h : ℕ) → HasEndRoom (length _keys.now) _n _gap3 _words
        → AllPairs (λ a b. a ≢ b) _keys.now → All (λ key. (key.c ≡ c) × (key.h ≡ h)) _keys.now
        → IsRegular (lay _keys.now _n _gap3 _fill _words) c h }
{}

/// On a formatted track each requested key has a Clear address field, and no other key has one. The look at each
/// address field of a key of the requested size finds data that isn't deleted, and all of the data are the fill byte.
/// No other data mark is near, so nothing else is under the key.
pub fn laid_keys_are_found(_keys: &[Chrn], _n: u8, _gap3: u8, _fill: u8, _words: usize)
    requires at_least { 1 ≤ _n }
    requires at_most { _n ≤ 6 }
    requires fits { Fits _keys.now _n _gap3 _words }
    requires bytes { All (λ key. IsKey key) _keys.now }
    ensures clear { All (λ key. HasClearField (lay _keys.now _n _gap3 _fill _words) key) _keys.now }
    ensures only { (p : ℕ) (key : Chrn) → IsAddressAt (lay _keys.now _n _gap3 _fill _words) p key
        → Contains _keys.now key }
    ensures filled { (key : Chrn) → key.n ≡ _n → AllFilled (lay _keys.now _n _gap3 _fill _words) key _fill }
    ensures lone { (p : ℕ) → IsAddressMark (lay _keys.now _n _gap3 _fill _words) p
        → IsLone (lay _keys.now _n _gap3 _fill _words) p }
    ensures holds { (key : Chrn) → key.n ≡ _n → HoldsFill (lay _keys.now _n _gap3 _fill _words) key _fill }
{}

/// A Laid track is a regular formatted track, or comes from one by writes of whole windows. On such a track, no write
/// at the place of an address field brings up an address mark, however early the write stops.
#[tactic(auto, using(crate::proofs::Laid::laid_tidy))]
pub fn laid_is_tidy(_words: &[u16], _place: usize, _deleted: bool, _content: &[u8])
    requires laid { IsLaid _words.now }
    requires field { HasFieldFor _words.now _place _content.now }
    ensures { IsTidy _words.now _place _deleted _content.now }
{}

/// A Laid track keeps the distances of its sectors, and it is regular for the cylinder and head of its keys. Its
/// address fields are those of the formatted track that it comes from.
pub fn laid_is_regular(_words: &[u16])
    requires { IsLaid _words.now }
    ensures spaced { IsSpaced _words.now }
    ensures regular { (c h : ℕ) × IsRegular _words.now c h }
    ensures addresses { (laid : IsLaid _words.now) (q : ℕ) (key : Chrn)
        → IsAddressAt laid.formatted q key ↔ IsAddressAt _words.now q key }
{}

/// A Torn track comes from a regular formatted track by writes that may stop anywhere. One case is excluded: a write
/// that stops earlier than the last write before it at its place did, if that one was interrupted. On a Torn track, no
/// write brings up an address mark, however early the write stops.
#[tactic(auto, using(crate::proofs::Laid::torn_tidy))]
pub fn torn_is_tidy(_words: &[u16], _place: usize, _deleted: bool, _content: &[u8])
    requires torn { IsTorn _words.now }
    requires field { HasFieldFor _words.now _place _content.now }
    ensures { IsTidy _words.now _place _deleted _content.now }
{}

/// A Laid track is Torn.
#[tactic(auto, using(crate::proofs::Laid::laid_torn))]
pub fn laid_is_torn(_words: &[u16])
    requires { IsLaid _words.now }
    ensures { IsTorn _words.now }
{}

/// A Torn track is regular, and its address fields are those of the formatted track that it comes from.
pub fn torn_is_regular(_words: &[u16])
    requires { IsTorn _words.now }
    ensures spaced { IsSpaced _words.now }
    ensures regular { (c h : ℕ) × IsRegular _words.now c h }
    ensures addresses { (torn : IsTorn _words.now) (q : ℕ) (key : Chrn)
        → IsAddressAt torn.formatted q key ↔ IsAddressAt _words.now q key }
{}

/// As many sectors as fit on a track with some gap 3, however small, also fit with a narrow one, and each can then be
/// written over.
pub fn as_many_suit(_n: u8, _sectors: u8, _gap3: u8, _rate: Rate)
    requires at_least { 1 ≤ _n }
    requires at_most { _n ≤ 6 }
    requires fits { laid_words _sectors _n _gap3 ≤ words_at _rate }
    ensures { Suits _n _sectors (words_at _rate) narrow_gap }
{}
