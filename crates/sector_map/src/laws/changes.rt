// What a write or a format keeps of a medium: laws over its states before and after.
ghost use Rattle.std.specs.Prelude.{◌≡◌, length};
ghost use Rattle.sector_map.specs.Common.{Disk, track_of, content_size, window};
ghost use Rattle.sector_map.specs.Disks.{IsRegularDisk, IsOnMap};
ghost use Rattle.sector_map.specs.Changes.{Change, IsChange};
ghost use Rattle.sector_map.specs.Layings.{Laying, IsLaying, formatted};
ghost use Rattle.sector_map.specs.KeptDisks.{KeepsTracks, KeepsSectors};
ghost use Rattle.sector_map.specs.ChangedDisks.{IsSafeChange, HasWritten, entry_of, written_under, change_at, joined};
ghost use Rattle.sector_map.specs.LaidDisks.{format_at, laying_at, joined_laying};

use flop_base::{Chrn, Rate};
use raw_image::Medium;

/// A law on writing the first `words` words of a window behind an address field of a regular medium. The medium stays
/// regular, and its other sectors stay as they were. The premise `safe` is that all words are written, or that no write
/// of this window that stops short brings up an address mark. If all words are written, the content is read back, and
/// it is all that is found under the key. A later write of the same window and this one together are one change.
pub fn change_keeps(
    _medium: &Medium,
    _after: &Medium,
    _key: Chrn,
    _deleted: bool,
    _content: &[u8],
    _cylinder: u8,
    _place: usize,
    _words: usize,
)
    requires regular { IsRegularDisk _medium.now }
    requires size { length _content.now ≡ content_size _key.n }
    requires change { IsChange (written_under _key _deleted _content.now) _medium.now
        (change_at _cylinder _place _words) _after.now }
    requires safe { IsSafeChange (written_under _key _deleted _content.now) _medium.now
        (change_at _cylinder _place _words) }
    ensures tracks { KeepsTracks _medium.now _cylinder _key.h _after.now }
    ensures sectors { KeepsSectors _medium.now _key _after.now }
    ensures written { _words ≡ length (window _deleted _content.now)
        → HasWritten (written_under _key _deleted _content.now) _place
        (track_of _after.now _key.c _key.h) }
    ensures entry { _words ≡ length (window _deleted _content.now)
        → IsOnMap _after.now (entry_of (written_under _key _deleted _content.now) _place) }
    ensures later { (change : Change) (last : Disk)
        → IsChange (written_under _key _deleted _content.now) _after.now change last
        → IsChange (written_under _key _deleted _content.now) _medium.now
        (joined (change_at _cylinder _place _words) change) last }
{}

/// A law on writing the first `words` words of a formatted track to a medium. The other tracks of the medium stay as
/// they were. If all words are written, the track is the formatted track. A later format of the same cylinder and this
/// one together are one laying.
pub fn laying_keeps(
    medium: &Medium,
    _after: &Medium,
    _c: u8,
    _h: u8,
    _rate: Rate,
    _gap3: u8,
    _fill: u8,
    _cylinder: u8,
    _words: u16,
)
    requires laying { IsLaying (format_at _c _h _rate _gap3 _fill) medium.now
        (laying_at _cylinder _words) _after.now }
    ensures tracks { KeepsTracks medium.now _cylinder _h _after.now }
    ensures whole { _words ≡ medium.now.words_per_track → track_of _after.now _cylinder _h
        ≡ formatted (format_at _c _h _rate _gap3 _fill) medium.now.words_per_track }
    ensures later { (laying : Laying) (last : Disk) → laying.cylinder ≡ _cylinder
        → IsLaying (format_at _c _h _rate _gap3 _fill) _after.now laying last
        → IsLaying (format_at _c _h _rate _gap3 _fill) medium.now
        (joined_laying (laying_at _cylinder _words) laying) last }
{
    // Reading the medium makes known that it is valid.
    let _length = medium.words();
}
