// The bytes of a saved state that are still to be read.
ghost use Rattle.std.specs.Prelude.{◌≡◌, ◌≤◌, ◌<◌, ℕ, List, ◌∷◌, ◌++◌, length};

use std::marker::Model;

/// What is left of the bytes of a saved state.
#[derive(Drop)]
pub struct Source<'a> {
    left: &'a [u8],
}

impl<'a> Model for Source<'a> {
    ghost use Rattle.std.specs.Prelude.{List, ℕ};

    ghost Value = { List ℕ };

    ghost view = { λ source. source.left.now };
}

impl<'a> Source<'a> {
    /// All of these bytes.
    pub fn new(bytes: &'a [u8]) -> Source<'a>
        ensures { result ≡ bytes.now }
    {
        Source { left: bytes }
    }

    /// The next byte, or 00 if none is left.
    pub fn byte(&mut self) -> u8
        ensures gives { (byte : ℕ) (rest : List ℕ) → self.old ≡ byte ∷ rest → (result ≡ byte) × (self.new ≡ rest) }
        ensures shorter { length self.new ≤ length self.old }
        ensures taken { 1 ≤ result → length self.new < length self.old }
    {
        match self.left.split_first() {
            Some((byte, rest)) => {
                self.left = rest;
                *byte
            }
            None => 0,
        }
    }

    /// The next `count` bytes, or all that are left if those are fewer.
    pub fn part(&mut self, count: usize) -> &'a [u8]
        ensures gives { (bytes rest : List ℕ) → length bytes ≡ count → self.old ≡ bytes ++ rest
            → (result.now ≡ bytes) × (self.new ≡ rest) }
        ensures most { length result.now ≤ count }
        ensures shorter { length self.new ≤ length self.old }
    {
        let (part, rest) = self.left.split_at(count.min(self.left.len()));
        self.left = rest;
        part
    }
}
