// What a medium is besides its words.
ghost use Rattle.std.specs.Prelude.{◌≡◌, ◌*◌, ◌≤◌};

use flop_base::Rate;

/// All of a medium but its words, which is what the header of an image tells.
#[derive(Clone, Copy)]
pub(crate) struct ImageShape {
    pub protected: bool,
    pub cylinders: u8,
    pub heads: u8,
    pub rate: Rate,
    pub words_per_track: u16,
    ghost some_cylinders: { 1 ≤ cylinders },
    ghost most_cylinders: { cylinders ≤ 80 },
    ghost some_heads: { 1 ≤ heads },
    ghost most_heads: { heads ≤ 2 },
    ghost some_words: { 64 ≤ words_per_track },
    ghost most_words: { words_per_track ≤ 16384 },
}

impl ImageShape {
    /// How many words all tracks have together.
    pub fn count(self) -> usize
        ensures value { result ≡ self.cylinders * self.heads * self.words_per_track }
        ensures most { result ≤ 2621440 }
    {
        self.cylinders as usize * self.heads as usize * self.words_per_track as usize
    }
}
