// The device steps after port accesses (gaps).
ghost use Rattle.std.specs.Prelude.{◌≡◌};
ghost use Rattle.irq_events.specs.Entries.{next_entry, rest_of};

mod saving;

use std::collections::VecDeque;
use std::marker::Model;

/// The gaps that are left.
#[derive(Drop)]
pub struct Gaps {
    entries: VecDeque<u8>,
}

impl Model for Gaps {
    ghost use Rattle.std.specs.Prelude.{List, ℕ};

    ghost Value = { List ℕ };

    ghost view = { λ gaps. gaps.entries.items };
}

impl Gaps {
    /// Gaps of so many device steps, the first for the first port access.
    pub fn new(entries: Vec<u8>) -> Gaps
        ensures { result ≡ entries.items }
    {
        Gaps {
            entries: VecDeque::from_vec(entries),
        }
    }

    /// Takes the next gap, in device steps, 0 where none is left.
    pub fn take(&mut self) -> u8
        ensures gap { result ≡ next_entry self.old }
        ensures rest { self.new ≡ rest_of self.old }
    {
        match self.entries.pop_front() {
            Some(gap) => gap,
            None => 0,
        }
    }
}
