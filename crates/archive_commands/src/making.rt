// The commands that make a file of another.
ghost use Rattle.std.specs.Prelude.{IsErrOf};
ghost use Rattle.archive_commands.specs.Common.{Blames};
ghost use Rattle.archive_commands.specs.Files.{faulty_outside_of, RanOnFiles};
ghost use Rattle.archive_commands.specs.Making.{MakesFromImd, MakesToImd, MakesRemaster, FromImd, ToImd, Remaster};

use crate::files::{load_imd, load_medium, store};
use crate::halt::Halt;
use crate::surveying::sector_count;
use crate::telling::tell;
use flop_base::{Name, Shelf, Sink, Status};
use imagedisk::{from_medium, to_medium, write_imd};
use raw_image::write_image;
use remaster::remaster;
use sector_model::Stop;
use std::alloc::Global;
use track_format::WIDE_GAP;

/// Stores the diskette of an ImageDisk file, and counts the file's tracks.
fn make_disk<S: Shelf>(alloc: Global, shelf: &mut S, imd: &Name, name: &Name) -> Result<usize, Halt>
    ensures makes { MakesFromImd imd.now name.now (S.told shelf.old) result (S.told shelf.new) }
    ensures faults { Blames (IsErrOf result (Halt.Stopped Stop.FileFault)) (S.fault_count shelf.old) (S.fault_count shelf.new) }
{
    let image = load_imd(alloc, shelf, imd)?;
    let medium = to_medium(alloc, &image, WIDE_GAP)?;
    let file = write_image(alloc, &medium)?;
    store(shelf, name, &file)?;
    Ok(image.tracks.as_slice().len())
}

/// Stores the ImageDisk file of a diskette, and counts the file's tracks.
fn make_imd<S: Shelf>(alloc: Global, shelf: &mut S, name: &Name, imd: &Name) -> Result<usize, Halt>
    ensures makes { MakesToImd name.now imd.now (S.told shelf.old) result (S.told shelf.new) }
    ensures faults { Blames (IsErrOf result (Halt.Stopped Stop.FileFault)) (S.fault_count shelf.old) (S.fault_count shelf.new) }
{
    let medium = load_medium(alloc, shelf, name)?;
    let image = from_medium(alloc, &medium)?;
    let file = write_imd(alloc, &image)?;
    store(shelf, imd, &file)?;
    Ok(image.tracks.as_slice().len())
}

/// Stores a diskette laid out anew, and counts its sectors.
fn make_remaster<S: Shelf>(
    alloc: Global,
    shelf: &mut S,
    from: &Name,
    to: &Name,
) -> Result<usize, Halt>
    ensures makes { MakesRemaster from.now to.now (S.told shelf.old) result (S.told shelf.new) }
    ensures faults { Blames (IsErrOf result (Halt.Stopped Stop.FileFault)) (S.fault_count shelf.old) (S.fault_count shelf.new) }
{
    let medium = load_medium(alloc, shelf, from)?;
    let after = remaster(alloc, &medium)?;
    let count = sector_count(alloc, &medium)?;
    let file = write_image(alloc, &after)?;
    store(shelf, to, &file)?;
    Ok(count)
}

/// Makes the diskette of an ImageDisk file and stores its image under the name. It prints how many tracks the file has,
/// or the first track that has no room for its sectors, or what stopped the command.
pub fn from_imd<S: Shelf, K: Sink>(
    alloc: Global,
    imd: Name,
    name: Name,
    shelf: &mut S,
    out: &mut K,
) -> Status
    ensures { RanOnFiles (FromImd imd name) (faulty_outside_of S.told S.fault_count K.told K.fault_count shelf.old out.old)
        (faulty_outside_of S.told S.fault_count K.told K.fault_count shelf.new out.new) result }
{
    let outcome = make_disk(alloc, shelf, &imd, &name);
    tell(alloc, out, "fromimd", &outcome)
}

/// Makes an ImageDisk file of a diskette and stores it. It prints how many tracks the file has, or the first track that
/// doesn't fit such a file, or what stopped the command.
pub fn to_imd<S: Shelf, K: Sink>(
    alloc: Global,
    name: Name,
    imd: Name,
    shelf: &mut S,
    out: &mut K,
) -> Status
    ensures { RanOnFiles (ToImd name imd) (faulty_outside_of S.told S.fault_count K.told K.fault_count shelf.old out.old)
        (faulty_outside_of S.told S.fault_count K.told K.fault_count shelf.new out.new) result }
{
    let outcome = make_imd(alloc, shelf, &name, &imd);
    tell(alloc, out, "toimd", &outcome)
}

/// Lays a diskette out anew and stores it under the second name. It prints how many sectors the diskette has, or the
/// first track that can't be laid out anew, or what stopped the command.
pub fn remaster_disk<S: Shelf, K: Sink>(
    alloc: Global,
    from: Name,
    to: Name,
    shelf: &mut S,
    out: &mut K,
) -> Status
    ensures { RanOnFiles (Remaster from to) (faulty_outside_of S.told S.fault_count K.told K.fault_count shelf.old out.old)
        (faulty_outside_of S.told S.fault_count K.told K.fault_count shelf.new out.new) result }
{
    let outcome = make_remaster(alloc, shelf, &from, &to);
    tell(alloc, out, "remaster", &outcome)
}
