// What stays on a track when a data field is written over, whole or in part.
ghost use Rattle.std.specs.Prelude.{◌≡◌, ◌+◌, ◌≤◌, ℕ, length, max, ◌⊎◌};
ghost use Rattle.sector_map.specs.Common.{Chrn, Found, BadCrc, NoData, IsAddressAt, content_at, LookAt, window, window_words, window_place, cut_of, HasFieldFor, IsTidy, damaged_window, empty_window, IsSpaced};
ghost use Rattle.track_model.specs.Kept.{KeepsOthers};

use flop_base::Chrn;

/// A law on writing the first `cut` words of a window behind an address field, on a track whose sectors keep their
/// distance. The other sectors stay as they were. The premise on `cut` is that all words are written, or that no write
/// of this window that stops short brings up an address mark. If all words are written, the content is read back. After
/// two writes of one window the longer one stands.
pub fn cut_keeps(_words: &[u16], _place: usize, _deleted: bool, _content: &[u8], _cut: usize)
    requires spaced { IsSpaced _words.now }
    requires field { HasFieldFor _words.now _place _content.now }
    requires most { _cut ≤ length (window _deleted _content.now) }
    requires allowed { IsTidy _words.now _place _deleted _content.now
        ⊎ (_cut ≡ length (window _deleted _content.now)) }
    ensures keeps { KeepsOthers _words.now
        (cut_of _words.now _place _cut (window _deleted _content.now)) _place }
    ensures found { _cut ≡ length (window _deleted _content.now)
        → (key : Chrn) → IsAddressAt _words.now _place key
        → LookAt (cut_of _words.now _place _cut (window _deleted _content.now)) _place key.n
        (Found _deleted (window_place _place + 256)) }
    ensures content { _cut ≡ length (window _deleted _content.now)
        → (key : Chrn) → IsAddressAt _words.now _place key
        → _content.now ≡ content_at (cut_of _words.now _place _cut (window _deleted _content.now))
        (window_place _place + 256) key.n }
    ensures cuts { (k : ℕ) → k ≤ length (window _deleted _content.now)
        → cut_of (cut_of _words.now _place k (window _deleted _content.now)) _place _cut
        (window _deleted _content.now)
        ≡ cut_of _words.now _place (max k _cut) (window _deleted _content.now) }
{}

/// The same law for a whole window whose CRC is wrong in its last bit: its data field is found damaged.
pub fn damaged_keeps(_words: &[u16], _place: usize, _deleted: bool, _content: &[u8])
    requires spaced { IsSpaced _words.now }
    requires field { HasFieldFor _words.now _place _content.now }
    ensures keeps { KeepsOthers _words.now
        (cut_of _words.now _place (18 + length _content.now) (damaged_window _deleted _content.now))
        _place }
    ensures bad { (key : Chrn) → IsAddressAt _words.now _place key
        → LookAt (cut_of _words.now _place (18 + length _content.now)
        (damaged_window _deleted _content.now)) _place key.n BadCrc }
{}

/// The same law for words of the byte 4E alone in the place of a window: no data field is found.
pub fn empty_keeps(_words: &[u16], _place: usize, _key: Chrn)
    requires spaced { IsSpaced _words.now }
    requires address { IsAddressAt _words.now _place _key }
    ensures keeps { KeepsOthers _words.now
        (cut_of _words.now _place (window_words _key.n) (empty_window _key.n)) _place }
    ensures none { LookAt (cut_of _words.now _place (window_words _key.n) (empty_window _key.n))
        _place _key.n NoData }
{}
