// The calls of a separator.
ghost use Rattle.std.specs.Prelude.{◌≡◌, ◌≤◌, ◌↔◌, IsTrue, ℕ, Bool, true, false, List, []};

use crate::register::BLANK;
use crate::state::{Seen, Separator, Stage};

impl Separator {
    ghost use Rattle.track_separator.specs.Hunts.{SHunts, SFollows, SAddressed};
    ghost use Rattle.track_separator.specs.Waits.{SWaits, SReads, SWaitSeen, SReadSeen};
    ghost use Rattle.track_separator.specs.Turns.{IsHunted, STurnEnded, SBegins, WantsIn, SFed, Feeds};
    ghost use Rattle.track_separator.specs.Parts.{with_word};

    /// A separator that hunts for address marks, at the beginning of a revolution.
    pub fn new() -> Separator
        ensures begins { SBegins result }
        ensures hunts { (fed : List ℕ) → SHunts result fed }
        ensures follows { SFollows result [] }
        ensures any { (fed : List ℕ) → SFed result fed }
    {
        Separator {
            cells: BLANK,
            back: 0,
            stage: Stage::Hunting,
        }
    }

    /// Takes one word of the revolution. `index` says that the revolution ends after it.
    #[inline(always)]
    pub fn feed(&mut self, word: u16, index: bool) -> Seen
        ensures { Feeds index word self.old self.new result }
    {
        if !index && self.is_usual() {
            return self.take(word);
        }
        self.feed_any(word, index)
    }

    /// Whether the separator hunts for a run of marks, or the next word is a byte of a content. One of the two is the
    /// case for nearly every word, and `feed` has a short way for them.
    #[inline(always)]
    fn is_usual(&self) -> bool {
        match self.stage {
            Stage::Hunting => true,
            Stage::Content { size, taken, .. } => taken < size,
            _ => false,
        }
    }

    /// Takes any word, as `feed` does.
    #[inline(never)]
    fn feed_any(&mut self, word: u16, index: bool) -> Seen
        ensures { Feeds index word self.old self.new result }
    {
        let seen = self.take(word);
        if !index {
            return seen;
        }
        let wanted = self.is_wanted();
        *self = Separator::new();
        if wanted { Seen::NoData } else { seen }
    }

    /// Asks for the data field of `size` bytes behind the address field that was just reported.
    pub fn want(&mut self, size: usize)
        requires { size ≤ 8192 }
        ensures waits { (fed : List ℕ) (p : ℕ) → SAddressed self.old fed p → SWaits self.new fed p size }
        ensures turn_ended { SBegins self.old → STurnEnded self.new }
        ensures any { (fed : List ℕ) → SFed self.old fed → SFed self.new fed }
    {
        self.stage = match self.stage {
            Stage::Addressed => Stage::Waiting {
                size: size as u16,
                since: self.back,
                marked: false,
            },
            _ => Stage::TurnEnded,
        };
    }

    /// Hunts for address marks again, from the next word on.
    pub fn hunt(&mut self)
        ensures begins { SBegins self.new }
        ensures hunts { (fed : List ℕ) → SHunts self.new fed }
        ensures follows { SFollows self.new [] }
        ensures any { (fed : List ℕ) → SFed self.new fed }
    {
        *self = Separator::new();
    }

    /// Takes one word, without regard to where the revolution ends.
    #[inline(always)]
    fn take(&mut self, word: u16) -> Seen
        ensures hunts { IsHunted self.old word self.new result }
        ensures waits { (fed : List ℕ) (p size : ℕ) → SWaits self.old fed p size
            → SWaitSeen (with_word fed word) p size self.new result }
        ensures reads { (fed : List ℕ) (p q : ℕ) (deleted : Bool) (size taken : ℕ)
            → SReads self.old fed p q deleted size taken
            → SReadSeen (with_word fed word) p q deleted size taken self.new result }
        ensures turn_ended { STurnEnded self.old → (result ≡ Seen.NoData) × ((fed : List ℕ) → SHunts self.new fed) }
    {
        match self.stage {
            Stage::Hunting => self.hunt_on(word),
            Stage::Addressed | Stage::Reading { .. } => self.hunt_word(word),
            Stage::TurnEnded => {
                self.hunt();
                Seen::NoData
            }
            Stage::Waiting {
                size,
                since,
                marked,
            } => self.wait_word(word, size, since, marked),
            Stage::Content {
                size,
                taken,
                check,
                touched,
            } => self.read_word(word, size, taken, check, touched),
        }
    }

    /// Whether a data field is asked for.
    fn is_wanted(&self) -> bool
        ensures { IsTrue result ↔ WantsIn self.now.stage }
    {
        matches!(
            self.stage,
            Stage::TurnEnded | Stage::Waiting { .. } | Stage::Content { .. }
        )
    }
}
