// How far a reader of an image file has come.
ghost use Rattle.std.specs.Prelude.{◌+◌, ◌*◌, ◌<◌, ◌≤◌, length, option_to_list};

use crate::error::ImageError;
use crate::header::{HEADER, header_of};
use crate::medium::Medium;
use crate::shape::ImageShape;
use crate::words::push_piece;
use std::alloc::Global;

#[derive(Drop)]
pub(crate) enum ReaderStage {
    Begun(HeaderBytes),
    Going(Body),
    /// Something is wrong with the file, and stays so.
    Failed(ImageError),
}

/// Fewer bytes than a header has.
#[derive(Drop)]
pub(crate) struct HeaderBytes {
    pub bytes: Vec<u8>,
    ghost short: { length bytes.items < 14 },
}

/// A whole header, and at most the words that it tells of.
#[derive(Drop)]
pub(crate) struct Body {
    pub shape: ImageShape,
    pub words: Vec<u16>,
    /// The first half of the word that comes next, if it is there.
    pub high: Option<u8>,
    ghost within: { 2 * length words.items + length (option_to_list high)
        ≤ 2 * (shape.cylinders * shape.heads * shape.words_per_track) },
}

impl HeaderBytes {
    ghost use Rattle.std.specs.Prelude.{IfOk};
    ghost use Rattle.raw_image.specs.Progress.{Feeds, IsSound, Begun};
    ghost use Rattle.raw_image.specs.Stage.{progress_of, after};

    /// Takes the next bytes of the file.
    fn fed(self, alloc: Global, piece: &[u8]) -> Result<ReaderStage, ImageError>
        ensures fed { Feeds piece.now (Begun self.bytes.items) (after result) }
        ensures sound { IfOk result (λ stage. IsSound (progress_of stage)) }
    {
        let mut header = self.bytes;
        let missing = HEADER - header.len();
        if piece.len() < missing {
            header.extend_from_slice(piece)?;
            return Ok(ReaderStage::Begun(HeaderBytes { bytes: header }));
        }
        let (front, rest) = piece.split_at(missing);
        header.extend_from_slice(front)?;
        let shape = header_of(&header)?;
        let words = Vec::with_capacity(alloc, shape.count())?;
        let body = Body {
            shape,
            words,
            high: None,
        };
        Ok(ReaderStage::Going(body.fed(rest)?))
    }
}

impl Body {
    ghost use Rattle.std.specs.Prelude.{◌≡◌, ◌++◌, IfOk, IfErr};
    ghost use Rattle.raw_image.specs.Shape.{header_view};
    ghost use Rattle.raw_image.specs.Disk.{IsDisk};
    ghost use Rattle.raw_image.specs.Image.{whole_length, OrNoMemory};
    ghost use Rattle.raw_image.specs.Stage.{body_bytes, IsTooLong, Finishes};

    /// How many bytes of the file are there.
    #[tactic(auto, using(crate::proofs::Bodies::length_body, crate::proofs::Bodies::length_some, crate::proofs::Bodies::length_none))]
    fn have(&self) -> usize
        ensures value { result ≡ 14 + length (body_bytes self.now) }
        ensures most { result ≤ whole_length (header_view self.now.shape) }
    {
        let half = if self.high.is_some() { 1 } else { 0 };
        HEADER + 2 * self.words.len() + half
    }

    /// Takes the next bytes of the file.
    fn fed(self, piece: &[u8]) -> Result<Body, ImageError>
        ensures shape { IfOk result (λ body. header_view body.shape ≡ header_view self.shape) }
        ensures bytes { IfOk result (λ body. body_bytes body ≡ body_bytes self ++ piece.now) }
        ensures err { IfErr result (λ e. OrNoMemory e (IsTooLong self piece.now e)) }
    {
        let whole = HEADER + 2 * self.shape.count();
        if whole - self.have() < piece.len() {
            return Err(ImageError::Trailing { offset: whole });
        }
        let Body { shape, words, high } = self;
        let mut words = words;
        let high = push_piece(&mut words, high, piece)?;
        Ok(Body { shape, words, high })
    }

    /// The medium, if all of its words are there.
    fn finish(self) -> Result<Medium, ImageError>
        ensures answer { Finishes (header_view self.shape) (body_bytes self) result }
        ensures valid { IfOk result IsDisk }
    {
        let need = HEADER + 2 * self.shape.count();
        let have = self.have();
        if have < need {
            return Err(ImageError::TooShort { need, have });
        }
        Ok(Medium::from_words(self.shape, self.words))
    }
}

impl ReaderStage {
    ghost use Rattle.std.specs.Prelude.{◌≡◌, List, ℕ, IfOk, Err};
    ghost use Rattle.raw_image.specs.declared.error.ImageError.{ImageError};
    ghost use Rattle.raw_image.specs.Disk.{IsDisk};
    ghost use Rattle.raw_image.specs.Image.{image_of, Reads};
    ghost use Rattle.raw_image.specs.Progress.{IsFed, Feeds, IsSound, Failed};
    ghost use Rattle.raw_image.specs.Stage.{progress_of, after};

    /// Takes the next bytes of the file.
    pub fn fed(self, alloc: Global, piece: &[u8]) -> Result<ReaderStage, ImageError>
        ensures fed { Feeds piece.now (progress_of self) (after result) }
        ensures sound { IfOk result (λ stage. IsSound (progress_of stage)) }
        ensures again { (e : ImageError) → progress_of self ≡ Failed e → result ≡ Err e }
    {
        match self {
            ReaderStage::Begun(front) => front.fed(alloc, piece),
            ReaderStage::Going(body) => Ok(ReaderStage::Going(body.fed(piece)?)),
            ReaderStage::Failed(error) => Err(error),
        }
    }

    /// The medium that all bytes together spell.
    pub fn finish(self) -> Result<Medium, ImageError>
        ensures read { (bytes : List ℕ) → IsFed bytes (progress_of self)
            → Reads (image_of bytes) result }
        ensures valid { IfOk result IsDisk }
        ensures again { (e : ImageError) → progress_of self ≡ Failed e → result ≡ Err e }
    {
        match self {
            ReaderStage::Begun(front) => Err(ImageError::TooShort {
                need: HEADER,
                have: front.bytes.len(),
            }),
            ReaderStage::Going(body) => body.finish(),
            ReaderStage::Failed(error) => Err(error),
        }
    }
}
