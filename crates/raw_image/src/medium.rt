// A medium: the words of its tracks, one after the other.
ghost use Rattle.std.specs.Prelude.{◌≡◌, ◌↔◌, ◌+◌, ◌*◌, ◌<◌, ◌≤◌, ℕ, ◌++◌, length, take, drop, slice_set, IfSome, IsSome, IfOk};

use crate::shape::ImageShape;
use flop_base::{NoMemory, Rate};
use std::alloc::Global;
use std::marker::Model;

/// A diskette: 1 to 80 cylinders of 1 or 2 heads, and for each a track of 64 to 16,384 words.
#[derive(Drop)]
pub struct Medium {
    shape: ImageShape,
    words: Vec<u16>,
}

impl Model for Medium {
    ghost use Rattle.raw_image.specs.Disk.{Disk, IsDisk};
    ghost use Rattle.raw_image.specs.Image.{disk_of};
    ghost use Rattle.raw_image.specs.Shape.{header_view};

    ghost Value = { Disk };

    ghost view = { λ m. disk_of (header_view m.shape) m.words.items };

    ghost invariant = { λ m. IsDisk (disk_of (header_view m.shape) m.words.items) };
}

impl Medium {
    ghost use Rattle.raw_image.specs.Disk.{IsDisk, HasTrack, IsWithTrack, track_start, track_of, blank_disk, with_word, tabbed};
    ghost use Rattle.flop_base.specs.declared.answers.Rate.TheVariants.{R500};
    ghost use Rattle.raw_image.specs.Image.{disk_of};
    ghost use Rattle.raw_image.specs.Shape.{header_view};

    /// An unprotected medium at 500 kbit/s, with this many words per track, all 0000.
    pub fn blank(alloc: Global, cylinders: u8, heads: u8, words: u16) -> Result<Medium, NoMemory>
        requires some_cylinders { 1 ≤ cylinders }
        requires most_cylinders { cylinders ≤ 80 }
        requires some_heads { 1 ≤ heads }
        requires most_heads { heads ≤ 2 }
        requires some_words { 64 ≤ words }
        requires most_words { words ≤ 16384 }
        ensures { IfOk result (λ medium. medium ≡ blank_disk cylinders heads words R500) }
    {
        Medium::blank_at(alloc, cylinders, heads, words, Rate::R500)
    }

    /// An unprotected medium with this many words per track, all 0000.
    pub fn blank_at(
        alloc: Global,
        cylinders: u8,
        heads: u8,
        words: u16,
        rate: Rate,
    ) -> Result<Medium, NoMemory>
        requires some_cylinders { 1 ≤ cylinders }
        requires most_cylinders { cylinders ≤ 80 }
        requires some_heads { 1 ≤ heads }
        requires most_heads { heads ≤ 2 }
        requires some_words { 64 ≤ words }
        requires most_words { words ≤ 16384 }
        ensures { IfOk result (λ medium. medium ≡ blank_disk cylinders heads words rate) }
    {
        let shape = ImageShape {
            protected: false,
            cylinders,
            heads,
            rate,
            words_per_track: words,
        };
        let words = vec![in alloc; 0; shape.count()]?;
        Ok(Medium { shape, words })
    }

    /// The medium of this shape with these words.
    pub(crate) fn from_words(shape: ImageShape, words: Vec<u16>) -> Medium
        requires { length words.items ≡ shape.cylinders * shape.heads * shape.words_per_track }
        ensures value { result ≡ disk_of (header_view shape) words.items }
        ensures valid { IsDisk result }
    {
        Medium { shape, words }
    }

    pub(crate) fn shape(&self) -> ImageShape
        ensures value { disk_of (header_view result) self.now.words ≡ self.now }
        ensures valid { IsDisk self.now }
    {
        self.shape
    }

    /// The words of all tracks, by cylinder, then head.
    pub(crate) fn all_words(&self) -> &[u16]
        ensures { result.now ≡ self.now.words }
    {
        self.words.as_slice()
    }

    /// Whether the medium is write-protected, that is, whether its notch is covered.
    pub fn protected(&self) -> bool
        ensures { result ≡ self.now.protected }
    {
        self.shape.protected
    }

    /// Sets whether the medium is write-protected, as moving its tab does.
    pub fn set_protected(&mut self, on: bool)
        ensures becomes { self.new ≡ tabbed on self.old }
        ensures words { self.new.words_per_track ≡ self.old.words_per_track }
        ensures valid { IsDisk self.new }
    {
        self.shape.protected = on;
    }

    /// How many cylinders the medium has, 1 to 80. They are numbered from 0.
    pub fn cylinders(&self) -> u8
        ensures value { result ≡ self.now.cylinders }
        ensures valid { IsDisk self.now }
    {
        self.shape.cylinders
    }

    /// How many heads the medium has, 1 or 2. They are numbered from 0.
    pub fn heads(&self) -> u8
        ensures value { result ≡ self.now.heads }
        ensures valid { IsDisk self.now }
    {
        self.shape.heads
    }

    /// How many words of sixteen cells a track has, 64 to 16,384.
    pub fn words(&self) -> u16
        ensures value { result ≡ self.now.words_per_track }
        ensures valid { IsDisk self.now }
    {
        self.shape.words_per_track
    }

    /// The data rate of all tracks of the medium.
    pub fn rate(&self) -> Rate
        ensures { result ≡ self.now.rate }
    {
        self.shape.rate
    }

    /// Where a track begins among all words.
    fn start(&self, c: u8, h: u8) -> usize
        requires { HasTrack self.now c h }
        ensures place { result ≡ track_start self.now c h }
        ensures within { result + self.now.words_per_track ≤ length self.now.words }
    {
        (c as usize * self.shape.heads as usize + h as usize) * self.shape.words_per_track as usize
    }

    /// The words of the track of a cylinder and a head, both counted from 0, if the medium has this track. The first
    /// word is the one after the index.
    pub fn track(&self, c: u8, h: u8) -> Option<&[u16]>
        ensures found { IsSome result ↔ HasTrack self.now c h }
        ensures track { IfSome result (λ track. track.now ≡ track_of self.now c h) }
        ensures length { IfSome result (λ track. length track.now ≡ self.now.words_per_track) }
        ensures valid { IsDisk self.now }
    {
        if c >= self.shape.cylinders || h >= self.shape.heads {
            return None;
        }
        let start = self.start(c, h);
        Some(&self.words[start..start + self.shape.words_per_track as usize])
    }

    /// Replaces one word of a track. `place` counts words from the index on.
    pub fn set_word(&mut self, c: u8, h: u8, place: u16, word: u16)
        requires cylinder { c < self.old.cylinders }
        requires head { h < self.old.heads }
        requires place { place < self.old.words_per_track }
        ensures becomes { self.new ≡ with_word self.old c h place word }
        ensures track { track_of self.new c h ≡ slice_set (track_of self.old c h) place word }
        ensures others { (b g : ℕ) → HasTrack self.old b g → (b ≡ c → g ≡ h → ⊥)
            → track_of self.new b g ≡ track_of self.old b g }
        ensures valid { IsDisk self.new }
    {
        let start = self.start(c, h);
        self.words[start + place as usize] = word;
    }

    /// Replaces the words of a track from word `start` on. `start` counts words from the index on.
    pub fn set_words(&mut self, c: u8, h: u8, start: u16, words: &[u16])
        requires track { HasTrack self.old c h }
        requires within { start + length words.now ≤ self.old.words_per_track }
        ensures becomes { IsWithTrack self.old c h
            (take start (track_of self.old c h)
            ++ (words.now ++ drop (start + length words.now) (track_of self.old c h)))
            self.new }
    {
        let from = self.start(c, h) + start as usize;
        self.words[from..from + words.len()].copy_from_slice(words);
    }
}
