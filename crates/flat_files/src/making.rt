// The medium of a flat file.
ghost use Rattle.flat_files.specs.Flats.{MakesFlat, rate_of as rate_of_density};
ghost use Rattle.std.specs.Prelude.{◌≡◌, ℕ};

use crate::imaging::flat_image;
use flop_base::Rate;
use imagedisk::{ImdError, to_medium};
use raw_image::{ImageError, Medium};
use sector_map::flat::check;
use std::alloc::Global;
use track_format::NARROW_GAP;

/// The rate at which a diskette has this many sectors per track, 18 or 9.
fn rate_of(sectors: u8) -> Rate
    ensures { result ≡ rate_of_density sectors }
{
    if sectors == 18 {
        Rate::R500
    } else {
        Rate::R250
    }
}

/// What keeps an image whose tracks have room from becoming a medium. Nothing but a lack of memory does.
fn fault(error: ImdError) -> ImageError
    requires { (c h : ℕ) → error ≡ ImdError.Unfit c h → ⊥ }
    ensures { result ≡ ImageError.NoMemory }
{
    match error {
        ImdError::Unfit { .. } => unreachable!(),
        ImdError::NoMemory => ImageError::NoMemory,
    }
}

/// The medium of a flat file of 1,474,560 or 737,280 bytes. It isn't protected, and has the sectors of the file and no
/// others.
pub fn flat_medium(alloc: Global, bytes: &[u8]) -> Result<Medium, ImageError>
    ensures { MakesFlat bytes.now result }
{
    let sectors = check(bytes)?;
    let image = flat_image(alloc, bytes, sectors, rate_of(sectors))?;
    match to_medium(alloc, &image, NARROW_GAP) {
        Ok(medium) => Ok(medium),
        Err(error) => Err(fault(error)),
    }
}
