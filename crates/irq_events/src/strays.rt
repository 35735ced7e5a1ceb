// Spurious interrupts (strays).
ghost use Rattle.std.specs.Prelude.{◌≡◌, ◌≤◌};
ghost use Rattle.irq_events.specs.Entries.{is_stray_due, strays_after, AreQuiet, strays_later};

mod saving;

use std::collections::VecDeque;
use std::marker::Model;

/// The spurious interrupts that are to come.
#[derive(Drop)]
pub struct Strays {
    /// The device steps to the next one, the step in which it comes included; 0 counts as 1. None where no more come.
    next: Option<u16>,
    /// The device steps from each to the next, counted in the same way.
    entries: VecDeque<u16>,
}

impl Model for Strays {
    ghost use Rattle.std.specs.Prelude.{List, ℕ};
    ghost use Rattle.irq_events.specs.Entries.{coming};

    ghost Value = { List ℕ };

    ghost view = { λ strays. coming strays.next strays.entries.items };
}

impl Strays {
    /// The first comes so many device steps after the start, each other so many after the one before. 0 counts as 1.
    pub fn new(strays: Vec<u16>) -> Strays
        ensures { result ≡ strays.items }
    {
        let mut entries = VecDeque::from_vec(strays);
        let next = entries.pop_front();
        Strays { next, entries }
    }

    /// Lets a device step pass, and tells whether a spurious interrupt comes in it.
    pub fn pass(&mut self) -> bool
        ensures due { result ≡ is_stray_due self.old }
        ensures after { self.new ≡ strays_after self.old }
    {
        match self.next {
            None => false,
            Some(steps) => {
                if steps <= 1 {
                    self.next = self.entries.pop_front();
                    return true;
                }
                self.next = Some(steps - 1);
                false
            }
        }
    }

    /// How many device steps can pass before a spurious interrupt comes, and `most` at most.
    pub fn quiet_for(&self, most: u32) -> u32
        ensures few { result ≤ most }
        ensures quiet { AreQuiet result self.now }
    {
        match self.next {
            None => most,
            Some(steps) => most.min(u32::from(steps.saturating_sub(1))),
        }
    }

    /// Lets so many device steps pass in which no spurious interrupt comes.
    pub fn pass_many(&mut self, count: u32)
        requires { AreQuiet count self.old }
        ensures { self.new ≡ strays_later count self.old }
    {
        match self.next {
            None => {}
            Some(steps) => self.next = Some(u32::from(steps).saturating_sub(count) as u16),
        }
    }
}
