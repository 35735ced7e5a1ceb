// What the ending of a writing or of a format says of the words written.
ghost use Rattle.std.specs.Prelude.{ℕ, List};
ghost use Rattle.fdc_stages.specs.History.{Past};
ghost use Rattle.fdc_stages.specs.declared.ending.Ending.{Ending};
ghost use Rattle.fdc_stages.specs.Writings.{IsStopped, IsWriting, HasWritten, WritesFirst, WritesWhole};
ghost use Rattle.fdc_stages.specs.Formats.{Numbers, IsFormatting, HasFormatted, LaysFirst, LaysWhole};

use crate::Ending;
use crate::formatting::FormatStage;
use crate::writing::WriteStage;
use flop_base::Chrn;

/// A writing may be stopped at each stage: by a byte that is missing before the terminal count, or by the last step
/// that it may take. It may also be stopped by protection, if nothing was written.
pub fn stopped_is_written(_key: Chrn, _deleted: bool, _stage: WriteStage, _ending: Ending)
    ensures { (past : Past) (handed : List ℕ) → IsWriting past _key _deleted handed _stage → IsStopped past _ending
        → HasWritten past _key _deleted handed _ending }
{}

/// A format may be stopped at each stage in the same ways.
pub fn stopped_is_formatted(_stage: FormatStage, _ending: Ending)
    ensures { (past : Past) (numbers : Numbers) (handed : List ℕ) → IsFormatting past numbers handed _stage
        → IsStopped past _ending → HasFormatted past numbers handed _ending }
{}

/// However a writing ends, the words written are none, or a cut of the window of an address field of the sector ID. The
/// content of that window begins with what was handed in, whatever comes after that.
pub fn written_is_first(_key: Chrn, _deleted: bool, _ending: Ending)
    ensures { (past : Past) (handed : List ℕ) → HasWritten past _key _deleted handed _ending
        → WritesFirst past _key _deleted handed }
{}

/// A writing that is done has written the whole window, with what was handed in as its content.
pub fn done_is_written(_key: Chrn, _deleted: bool, _marked: bool)
    ensures { (past : Past) (handed : List ℕ) → HasWritten past _key _deleted handed (Ending.Done _marked)
        → WritesWhole past _key _deleted handed }
{}

/// However a format ends, the words are the first of the layout of the sector IDs that were handed in, whatever sector
/// IDs come after these.
pub fn formatted_is_first(_ending: Ending)
    ensures { (past : Past) (numbers : Numbers) (handed : List ℕ) → HasFormatted past numbers handed _ending
        → LaysFirst past numbers handed }
{}

/// A format that is done has written the whole layout of the sector IDs that were handed in.
pub fn done_is_laid(_deleted: bool)
    ensures { (past : Past) (numbers : Numbers) (handed : List ℕ) → HasFormatted past numbers handed (Ending.Done _deleted)
        → LaysWhole past numbers handed }
{}
