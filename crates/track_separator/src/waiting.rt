// The wait for a data mark.
ghost use Rattle.std.specs.Prelude.{◌≡◌, ◌≤◌, ◌<◌, ℕ, List, Bool, MatchOption};
ghost use Rattle.track_model.specs.Marks.{data_byte};

use crate::register::{data_mark_before, next_cells, run_end};
use crate::state::{Seen, Separator, Stage};
use track_model::mark_crc;

/// The cells of a run.
const RUN_CELLS: u16 = 48;

/// A data mark that begins this many cells or more behind the end of an address field doesn't belong to it.
const REACH: u16 = 960;

/// The cells of a run and the byte behind it.
const MARK_CELLS: u16 = 64;

/// The byte of a data mark.
fn byte_of(deleted: bool) -> u8
    ensures { result ≡ data_byte deleted }
{
    if deleted { 0xF8 } else { 0xFB }
}

impl Separator {
    ghost use Rattle.track_separator.specs.Parts.{with_word};
    ghost use Rattle.track_separator.specs.Waits.{IsMarked, IsWaiting, IsWaitingNext, IsMarkIn, WaitSeenIn};

    /// Takes one word while the separator waits for a data mark, `before` cells behind the end of the address field.
    #[inline(never)]
    pub(crate) fn wait_word(&mut self, word: u16, size: u16, before: u16, marked: bool) -> Seen
        requires small { size ≤ 8192 }
        requires early { before < 1023 }
        ensures { (fed : List ℕ) (p : ℕ) → IsWaiting fed self.old.cells self.old.back p before marked
            → WaitSeenIn (with_word fed word) p size self.new.cells self.new.back self.new.stage result }
    {
        let since = before + 16;
        self.cells = next_cells(self.cells, word);
        if let Some(deleted) = self.mark_in(since, marked) {
            self.stage = Stage::Content {
                size,
                taken: 0,
                check: mark_crc(byte_of(deleted)),
                touched: false,
            };
            return Seen::Mode { deleted };
        }
        self.wait_on(size, since)
    }

    /// The data mark that is complete now. The run before it has to be seen already, and it has to begin near enough to
    /// its address field.
    fn mark_in(&self, since: u16, marked: bool) -> Option<bool>
        requires { since < 1039 }
        ensures { MatchOption result ((deleted : Bool) → IsMarkIn self.now.cells self.now.back since marked deleted → ⊥)
            (λ deleted. IsMarkIn self.now.cells self.now.back since marked deleted) }
    {
        if !marked || since >= REACH + MARK_CELLS + self.back {
            return None;
        }
        data_mark_before(self.cells, self.back)
    }

    /// Goes on to wait, `since` cells behind the end of the address field, if a data mark can still come.
    fn wait_on(&mut self, size: u16, since: u16) -> Seen
        requires small { size ≤ 8192 }
        requires early { since < 1039 }
        ensures { (fed : List ℕ) (p : ℕ) → IsWaitingNext fed self.old.cells p since
            → WaitSeenIn fed p size self.new.cells self.new.back self.new.stage result }
    {
        if since >= REACH + MARK_CELLS - 1 {
            self.hunt();
            return Seen::NoData;
        }
        let marked = self.see_run(since);
        self.stage = Stage::Waiting {
            size,
            since,
            marked,
        };
        Seen::Nothing
    }

    /// Whether a run that begins behind the address field ends in the last word. If one does, `back` is set to its
    /// place.
    fn see_run(&mut self, since: u16) -> bool
        ensures kept { self.new.cells ≡ self.old.cells }
        ensures marked { (fed : List ℕ) (p : ℕ) → IsWaitingNext fed self.old.cells p since
            → IsMarked fed p self.new.back result }
    {
        match run_end(self.cells) {
            Some(back) => {
                self.back = back;
                since >= RUN_CELLS + back
            }
            None => false,
        }
    }
}
