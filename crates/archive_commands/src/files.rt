// The files that commands load and store.
ghost use Rattle.std.specs.Prelude.{◌≡◌, Ok, IfOk, IfErr, OnOk, OnErr, IsErrOf};
ghost use Rattle.archive_commands.specs.Common.{stored, image_of, imd_of, Blames};
ghost use Rattle.imagedisk.specs.Images.{IsImdImage};
ghost use Rattle.sector_model.specs.Runs.{IsEndStop};
ghost use Rattle.archive_commands.specs.Files.{GivesBytes, Loaded, LoadStops, Reads, StoreStops, faulty_files_of};

use flop_base::{LoadError, Name, NoMemory, Shelf, StoreError};
use imagedisk::{ImdImage, read_imd};
use raw_image::{ImageError, Medium, read_image};
use sector_model::Stop;
use std::alloc::Global;

/// The longest file that is read as an image or an ImageDisk file, in bytes. An image of 80 cylinders, 2 heads and
/// 16,384 words a track has as many.
const MOST_IMAGE_BYTES: usize = 5_242_894;

/// The stop of a command whose load was refused.
fn stop_at_load(alloc: Global, name: &Name, error: LoadError) -> Result<Stop, NoMemory>
    ensures stops { IfOk result (λ stop. LoadStops error name.now stop) }
    ensures fault_told { error ≡ LoadError.Failed → result ≡ Ok Stop.FileFault }
{
    Ok(match error {
        LoadError::Absent => Stop::Absent {
            name: Name::copy(alloc, name.as_str())?,
        },
        LoadError::TooLong => Stop::TooLong {
            name: Name::copy(alloc, name.as_str())?,
            most: MOST_IMAGE_BYTES,
        },
        LoadError::Failed => Stop::FileFault,
        LoadError::NoMemory => Stop::NoMemory,
    })
}

/// The bytes of the file of this name.
fn load<S: Shelf>(alloc: Global, shelf: &mut S, name: &Name) -> Result<Vec<u8>, Stop>
    ensures { Loaded (GivesBytes name.now) (faulty_files_of S.told S.fault_count shelf.old) result (faulty_files_of S.told S.fault_count shelf.new) }
{
    match shelf.load(alloc, name.as_str(), MOST_IMAGE_BYTES) {
        Ok(bytes) => Ok(bytes),
        Err(error) => Err(stop_at_load(alloc, name, error)?),
    }
}

/// The medium of the image file of this name.
pub(crate) fn load_medium<S: Shelf>(
    alloc: Global,
    shelf: &mut S,
    name: &Name,
) -> Result<Medium, Stop>
    ensures { Loaded (Reads image_of name.now) (faulty_files_of S.told S.fault_count shelf.old) result (faulty_files_of S.told S.fault_count shelf.new) }
{
    let bytes = load(alloc, shelf, name)?;
    match read_image(alloc, &bytes) {
        Ok(medium) => Ok(medium),
        Err(ImageError::NoMemory) => Err(Stop::NoMemory),
        Err(error) => Err(Stop::BadImage {
            name: Name::copy(alloc, name.as_str())?,
            error,
        }),
    }
}

/// The image that the ImageDisk file of this name holds.
pub(crate) fn load_imd<S: Shelf>(
    alloc: Global,
    shelf: &mut S,
    name: &Name,
) -> Result<ImdImage, Stop>
    ensures loaded { Loaded (Reads imd_of name.now) (faulty_files_of S.told S.fault_count shelf.old) result (faulty_files_of S.told S.fault_count shelf.new) }
    ensures valid { IfOk result IsImdImage }
{
    let bytes = load(alloc, shelf, name)?;
    match read_imd(alloc, &bytes) {
        Ok(image) => Ok(image),
        Err(ImageError::NoMemory) => Err(Stop::NoMemory),
        Err(error) => Err(Stop::BadImage {
            name: Name::copy(alloc, name.as_str())?,
            error,
        }),
    }
}

/// The stop of a command whose store was refused.
fn stop_at_store(error: StoreError) -> Stop
    ensures { StoreStops error result }
{
    match error {
        StoreError::Failed => Stop::FileFault,
        StoreError::NoMemory => Stop::NoMemory,
    }
}

/// Stores these bytes under the name.
pub(crate) fn store<S: Shelf>(shelf: &mut S, name: &Name, bytes: &[u8]) -> Result<(), Stop>
    ensures ok { OnOk result (S.told shelf.new ≡ stored (S.told shelf.old) name.now bytes.now) }
    ensures cause { IfErr result IsEndStop }
    ensures err { OnErr result (S.told shelf.new ≡ S.told shelf.old) }
    ensures faults { Blames (IsErrOf result Stop.FileFault) (S.fault_count shelf.old) (S.fault_count shelf.new) }
{
    match shelf.store(name.as_str(), bytes) {
        Ok(()) => Ok(()),
        Err(error) => Err(stop_at_store(error)),
    }
}
