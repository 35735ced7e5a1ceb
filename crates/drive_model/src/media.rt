// A medium as bytes: its image file.
ghost use Rattle.std.specs.Prelude.{◌≡◌, IfOk, Ok, Err, None, Some};
ghost use Rattle.std.specs.Option.{ForSome};
ghost use Rattle.saved_state.specs.Saved.{Adds, Gives, spelled_bytes};
ghost use Rattle.raw_image.specs.Disk.{Disk, IsDisk};
ghost use Rattle.raw_image.specs.Image.{file_of, Reads};
ghost use Rattle.drive_model.specs.Saving.{spelled_medium};

use flop_base::NoMemory;
use raw_image::{ImageError, Medium, read_image, write_image};
use saved_state::{SavedBytes, Source, load_bytes, save_bytes};
use std::alloc::Global;

/// Writes the image file of a medium.
fn save_image(alloc: Global, medium: &Medium, to: &mut SavedBytes)
    ensures { Adds (spelled_bytes (file_of medium.now)) to.old to.new }
{
    match write_image(alloc, medium) {
        Ok(bytes) => save_bytes(&bytes, to),
        Err(_) => to.lose(),
    }
}

/// Writes the medium of a drive. Memory for its image file is allocated here.
pub fn save_medium(alloc: Global, medium: &Option<Medium>, to: &mut SavedBytes)
    ensures { Adds (spelled_medium medium.now) to.old to.new }
{
    match medium {
        None => to.byte(0),
        Some(medium) => {
            to.byte(1);
            save_image(alloc, medium, to);
        }
    }
}

/// No medium, unless the error is that memory ran out.
fn no_image(error: ImageError) -> Result<Option<Medium>, NoMemory>
    ensures none { IfOk result (λ medium. medium ≡ None) }
    ensures only { IfOk result (λ _. (disk : Disk) → Reads (Ok disk) (Err error) → ⊥) }
{
    match error {
        ImageError::NoMemory => Err(NoMemory),
        _ => Ok(None),
    }
}

/// The medium whose image file this is; none where the bytes aren't an image file.
fn load_image(alloc: Global, bytes: &[u8]) -> Result<Option<Medium>, NoMemory>
    ensures valid { IfOk result (λ medium. ForSome medium IsDisk) }
    ensures only { IfOk result (λ medium. (disk : Disk) → IsDisk disk → bytes.now ≡ file_of disk
        → medium ≡ Some disk) }
{
    match read_image(alloc, bytes) {
        Ok(medium) => Ok(Some(medium)),
        Err(error) => no_image(error),
    }
}

/// Reads the medium of a drive. From bytes that no medium is saved as, it may read any medium or none.
pub fn load_medium(alloc: Global, from: &mut Source<'_>) -> Result<Option<Medium>, NoMemory>
    ensures valid { IfOk result (λ medium. ForSome medium IsDisk) }
    ensures gives { IfOk result (λ medium.
        Gives (λ it. ForSome it IsDisk) spelled_medium from.old medium from.new) }
{
    if from.byte() != 1 {
        return Ok(None);
    }
    let bytes = load_bytes(from);
    load_image(alloc, bytes)
}
