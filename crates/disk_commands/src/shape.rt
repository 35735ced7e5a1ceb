// How many sectors a disk has.
ghost use Rattle.std.specs.Prelude.{◌≡◌};
ghost use Rattle.disk_commands.specs.Disks.{sectors_of};

use floppy_session::Shape;

/// The number of sectors of a disk.
pub(crate) fn sector_count(shape: Shape) -> u32
    ensures { result ≡ sectors_of shape }
{
    shape.cylinders as u32 * shape.heads as u32 * shape.rate.sectors() as u32
}
