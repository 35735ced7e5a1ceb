// Image files, from a shelf and back to it.
ghost use Rattle.std.specs.Prelude.{◌≡◌, ℕ, Ok, IfOk, IfErr, OnOk, OnErr, IsErrOf};
ghost use Rattle.flop_base.specs.Shelf.{stored};
ghost use Rattle.raw_image.specs.Image.{file_of};
ghost use Rattle.sector_model.specs.Steps.{IsImageOf, StopCause};
ghost use Rattle.sector_model.specs.Runs.{IsEndStop};
ghost use Rattle.sector_model.specs.Faults.{Blames};
ghost use Rattle.floppy_session.specs.Loads.{StopsFor, StopsForStore};

use flop_base::{LoadError, Name, NoMemory, Shelf, StoreError};
use floppy_jobs::Request;
use raw_image::{ImageError, Medium, read_image, write_image};
use sector_model::Stop;
use std::alloc::Global;

/// The longest image file, in bytes: 80 cylinders of 2 heads with 16,384 words per track.
const MOST_IMAGE_BYTES: usize = 5_242_894;

/// The medium of the image file of this name. A missing file, a file that is too long and a file that is no image stop
/// the run, each with its own cause.
pub fn load_medium<S: Shelf>(alloc: Global, shelf: &mut S, name: &Name) -> Result<Medium, Stop>
    ensures image { IfOk result (λ medium. IsImageOf (S.told shelf.old) name.now medium) }
    ensures cause { IfErr result (λ stop. (bay : ℕ) → StopCause (S.told shelf.old) (Request.Insert bay name.now) stop) }
    ensures stays { S.told shelf.new ≡ S.told shelf.old }
    ensures faults { Blames (IsErrOf result Stop.FileFault) (S.fault_count shelf.old) (S.fault_count shelf.new) }
{
    let bytes = match shelf.load(alloc, name.as_str(), MOST_IMAGE_BYTES) {
        Ok(bytes) => bytes,
        Err(error) => return Err(stop_at_load(alloc, name, error)?),
    };
    match read_image(alloc, &bytes) {
        Ok(medium) => Ok(medium),
        Err(ImageError::NoMemory) => Err(Stop::NoMemory),
        Err(error) => Err(Stop::BadImage {
            name: Name::copy(alloc, name.as_str())?,
            error,
        }),
    }
}

/// What stops the run if a load is refused.
fn stop_at_load(alloc: Global, name: &Name, error: LoadError) -> Result<Stop, NoMemory>
    ensures stops { IfOk result (λ stop. StopsFor name.now error stop) }
    ensures fault_told { error ≡ LoadError.Failed → result ≡ Ok Stop.FileFault }
{
    Ok(match error {
        LoadError::Absent => Stop::Absent {
            name: Name::copy(alloc, name.as_str())?,
        },
        LoadError::TooLong => Stop::TooLong {
            name: Name::copy(alloc, name.as_str())?,
            most: MOST_IMAGE_BYTES,
        },
        LoadError::Failed => Stop::FileFault,
        LoadError::NoMemory => Stop::NoMemory,
    })
}

/// Stores the image of a medium under its name. After an error the files are as they were.
pub fn store_medium<S: Shelf>(
    alloc: Global,
    shelf: &mut S,
    name: &Name,
    medium: &Medium,
) -> Result<(), Stop>
    ensures ok { OnOk result (S.told shelf.new ≡ stored (S.told shelf.old) name.now (file_of medium.now)) }
    ensures cause { IfErr result IsEndStop }
    ensures err { OnErr result (S.told shelf.new ≡ S.told shelf.old) }
    ensures faults { Blames (IsErrOf result Stop.FileFault) (S.fault_count shelf.old) (S.fault_count shelf.new) }
{
    let bytes = write_image(alloc, medium)?;
    match shelf.store(name.as_str(), &bytes) {
        Ok(()) => Ok(()),
        Err(error) => Err(stop_at_store(error)),
    }
}

/// What stops the run if a store is refused.
fn stop_at_store(error: StoreError) -> Stop
    ensures { StopsForStore error result }
{
    match error {
        StoreError::Failed => Stop::FileFault,
        StoreError::NoMemory => Stop::NoMemory,
    }
}
