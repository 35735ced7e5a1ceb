// Reading an image file, at once or in pieces.
ghost use Rattle.std.specs.Prelude.{◌≡◌, ℕ, List, [], Ok, IfOk};
ghost use Rattle.raw_image.specs.Progress.{Progress, IsFed};
ghost use Rattle.raw_image.specs.Disk.{Disk};
ghost use Rattle.raw_image.specs.Image.{image_of, Reads, Spells};

use crate::error::ImageError;
use crate::medium::Medium;
use crate::stage::{HeaderBytes, ReaderStage};
use std::alloc::Global;
use std::marker::Model;
use std::mem;

/// Reads an image file that comes in pieces. The reader keeps the words. Of the file's bytes it keeps only those of an
/// unfinished header and the first half of an unfinished word.
#[derive(Drop)]
pub struct ImageReader {
    alloc: Global,
    stage: ReaderStage,
}

impl Model for ImageReader {
    ghost use Rattle.raw_image.specs.Progress.{Progress};

    ghost Value = { Progress };

    ghost use Rattle.raw_image.specs.Stage.{progress_of};

    ghost view = { λ reader. progress_of reader.stage };
}

impl ImageReader {
    ghost use Rattle.std.specs.Prelude.{◌++◌, [], List, ℕ, OnOk, IfOk, IfErr, Err};
    ghost use Rattle.raw_image.specs.Disk.{IsDisk};
    ghost use Rattle.raw_image.specs.Progress.{IsFed, Feeds, IsSound, Begun, Failed};
    ghost use Rattle.raw_image.specs.declared.error.ImageError.{ImageError};

    /// A reader that was fed no byte yet.
    pub fn new(alloc: Global) -> ImageReader
        ensures begun { result ≡ Begun [] }
        ensures fed { IsFed [] result }
    {
        ImageReader {
            alloc,
            stage: ReaderStage::Begun(HeaderBytes {
                bytes: Vec::new(alloc),
            }),
        }
    }

    /// Takes the next piece of the file, of any length. After an error, this call and `finish` always answer the same
    /// error.
    pub fn feed(&mut self, piece: &[u8]) -> Result<(), ImageError>
        ensures fed { Feeds piece.now self.old self.new }
        ensures ok { OnOk result (IsSound self.new) }
        ensures err { IfErr result (λ e. self.new ≡ Failed e) }
        // This is what is wrong with the file, however it goes on.
        ensures wrong { IfErr result (λ e. (bytes more : List ℕ) → IsFed bytes self.old
            → Reads (image_of ((bytes ++ piece.now) ++ more)) (Err e)) }
        ensures again { (e : ImageError) → self.old ≡ Failed e → result ≡ Err e }
    {
        let stage = mem::replace(&mut self.stage, ReaderStage::Failed(ImageError::NoMemory));
        match stage.fed(self.alloc, piece) {
            Ok(next) => {
                self.stage = next;
                Ok(())
            }
            Err(error) => {
                self.stage = ReaderStage::Failed(error);
                Err(error)
            }
        }
    }

    /// The medium that all the pieces together spell. Only this call reports that the file is too short.
    pub fn finish(self) -> Result<Medium, ImageError>
        ensures read { (bytes : List ℕ) → IsFed bytes self → Reads (image_of bytes) result }
        ensures valid { IfOk result IsDisk }
        ensures again { (e : ImageError) → self ≡ Failed e → result ≡ Err e }
    {
        self.stage.finish()
    }
}

/// The medium that an image file holds, of version 1 or 2.
pub fn read_image(alloc: Global, bytes: &[u8]) -> Result<Medium, ImageError>
    // A medium that is read is the one that the bytes spell.
    ensures found { IfOk result (Spells bytes.now) }
    // A medium that the bytes spell is read, unless memory runs out.
    ensures only { (disk : Disk) → Spells bytes.now disk → Reads (Ok disk) result }
    // The answer for all other bytes is what is wrong with them.
    ensures exact { Reads (image_of bytes.now) result }
{
    let mut reader = ImageReader::new(alloc);
    reader.feed(bytes)?;
    reader.finish()
}
