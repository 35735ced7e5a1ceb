// What the ending of a reading says of the words heard.
ghost use Rattle.std.specs.Prelude.{◌≡◌, ℕ, List, Bool, Option};
ghost use Rattle.fdc_stages.specs.Common.{Chrn, IsSizeCode, Separator};
ghost use Rattle.fdc_stages.specs.History.{Past};
ghost use Rattle.fdc_stages.specs.Searches.{IsMet, IsMissed};
ghost use Rattle.fdc_stages.specs.Readings.{IsStart, IsReading, IsToldOf, HasRead};
ghost use Rattle.fdc_stages.specs.Findings.{FindsSector, HasAddress, HasIdentified, FindsBadCheck, FindsNoField, FindsNoMark, FindsNoSector};

use crate::ending::Ending;
use crate::reading::ReadStage;
use flop_base::Chrn;

/// A reading that is done has found the sector. The bytes given are the first of its content.
pub fn done_is_found(_key: Chrn, _deleted: bool)
    requires { IsSizeCode _key.n }
    ensures { (past : Past) (told given : List ℕ) → HasRead past _key told (Ending.Done _deleted)
        → IsStart past.counted given told → FindsSector past _key given _deleted }
{}

/// At each time, the bytes reported are the first of a data field of the sector ID.
pub fn told_is_content(_key: Chrn, _stage: ReadStage)
    ensures { (past : Past) (told : List ℕ) → IsReading past _key told _stage → IsToldOf past _key told }
{}

/// If a CRC is wrong, it is that of a data field of the sector ID.
pub fn bad_check_is_heard(_key: Chrn)
    requires { IsSizeCode _key.n }
    ensures { (past : Past) (told : List ℕ) → HasRead past _key told Ending.BadCheck → FindsBadCheck past _key }
{}

/// If a data field is missing, an address field of the sector ID has none.
pub fn no_field_is_heard(_key: Chrn)
    ensures { (past : Past) (told : List ℕ) → HasRead past _key told Ending.NoField → FindsNoField past _key }
{}

/// A search that ends without an address mark heard none between the two index pulses.
pub fn no_mark_is_heard(_wanted: Option<Chrn>)
    ensures { (past : Past) → IsMissed past _wanted Ending.NoMark → FindsNoMark past }
{}

/// A search that ends without a sector heard an address mark, but no clear address field of the sector ID between the
/// two index pulses.
pub fn no_sector_is_heard(_wanted: Option<Chrn>)
    ensures { (past : Past) → IsMissed past _wanted Ending.NoSector → FindsNoSector past _wanted }
{}

/// A READ ID ends as a search for any address field ends (82077AA, READ ID).
pub fn missed_is_identified(_ending: Ending, _key: Chrn)
    ensures { (past : Past) → IsMissed past Option.None _ending → HasIdentified past _key _ending }
{}

/// The sector ID that a search met is that of an address field in the words heard.
pub fn met_is_heard(_key: Chrn, _index: bool)
    ensures { (past : Past) (separator : Separator) → IsMet _index past _key separator → HasAddress past _key }
{}
