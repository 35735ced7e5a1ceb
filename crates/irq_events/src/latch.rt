// An edge-triggered interrupt latch, as the 8259A has one for each line.
ghost use Rattle.std.specs.Prelude.{◌≡◌, true, false, ◌&&◌, ◌||◌, not, List, [], ◌∷◌};
ghost use Rattle.irq_events.specs.Latch.{Event, shows, strays, takes, IsAfter};

mod saving;

use std::marker::Model;

/// Remembers until it is taken that the line has risen, or that a spurious interrupt came.
#[derive(Drop)]
pub struct IrqLatch {
    set: bool,
    level: bool,
}

impl Model for IrqLatch {
    ghost use Rattle.irq_events.specs.Latch.{Latch};

    ghost Value = { Latch };

    ghost view = { λ latch. record { is_set = latch.set; level = latch.level } };
}

impl IrqLatch {
    /// A latch that isn't set, with the line low.
    pub fn new() -> IrqLatch
        ensures clear { result ≡ record { is_set = false; level = false } }
        ensures history { IsAfter [] result }
    {
        IrqLatch {
            set: false,
            level: false,
        }
    }

    /// Shows the line's level. A line that stays high sets nothing.
    pub fn line(&mut self, level: bool)
        ensures latch { self.new ≡ record {
          is_set = self.old.is_set || (level && not self.old.level);
          level = level;
        } }
        ensures history { (past : List Event) → IsAfter past self.old
            → IsAfter (shows level ∷ past) self.new }
    {
        if level {
            self.show_high();
        } else {
            self.level = false;
        }
    }

    /// The line is high: if it was low before, it has risen.
    #[inline(never)]
    fn show_high(&mut self)
        ensures { self.new ≡ record { is_set = self.old.is_set || not self.old.level; level = true } }
    {
        self.set |= !self.level;
        self.level = true;
    }

    /// A spurious interrupt: sets the latch with no edge of the line.
    pub fn stray(&mut self)
        ensures latch { self.new ≡ record self.old { is_set = true } }
        ensures history { (past : List Event) → IsAfter past self.old
            → IsAfter (strays ∷ past) self.new }
    {
        self.set = true;
    }

    /// Whether an edge or a spurious interrupt came that wasn't taken yet.
    pub fn is_set(&self) -> bool
        ensures { result ≡ self.now.is_set }
    {
        self.set
    }

    /// The level that the line was shown at last.
    pub fn level(&self) -> bool
        ensures { result ≡ self.now.level }
    {
        self.level
    }

    /// Clears the latch, and tells whether it was set. However many edges came before, one take clears them.
    pub fn take(&mut self) -> bool
        ensures was { result ≡ self.old.is_set }
        ensures latch { self.new ≡ record self.old { is_set = false } }
        ensures history { (past : List Event) → IsAfter past self.old
            → IsAfter (takes ∷ past) self.new }
    {
        let was_set = self.set;
        self.set = false;
        was_set
    }
}
