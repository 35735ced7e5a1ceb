// Two of a kind, one for each bay.
ghost use Rattle.std.specs.Prelude.{◌≡◌};
ghost use Rattle.flop_base.specs.Bays.{in_bay, with_bay};

use std::marker::Model;
use std::mem;

/// Two of a kind: the first is of bay 0, the second of bay 1.
#[derive(Drop)]
pub struct Two<T> {
    first: T,
    second: T,
}

impl<T> Model for Two<T> {
    ghost use Rattle.flop_base.specs.Bays.{Two as TwoOf};

    ghost Value = { TwoOf T };

    ghost view = { λ two. record { first = two.first; second = two.second } };
}

impl<T> Two<T> {
    pub fn new(first: T, second: T) -> Two<T>
        ensures { result ≡ record { first = first; second = second } }
    {
        Two { first, second }
    }

    /// The value of a bay: the first for bay 0, the second for every other number.
    pub fn get(&self, bay: u8) -> &T
        ensures { result.now ≡ in_bay self.now bay }
    {
        if bay == 0 { &self.first } else { &self.second }
    }

    /// Replaces the value of a bay and returns the old one.
    pub fn replace(&mut self, bay: u8, value: T) -> T
        ensures was { result ≡ in_bay self.old bay }
        ensures is { self.new ≡ with_bay self.old bay value }
    {
        if bay == 0 {
            mem::replace(&mut self.first, value)
        } else {
            mem::replace(&mut self.second, value)
        }
    }
}
