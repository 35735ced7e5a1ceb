// What is known of the files that commands make.
ghost use Rattle.std.specs.Prelude.{◌≡◌, ℕ, List, Ok};
ghost use Rattle.archive_commands.specs.Common.{Disk, file_of, ImdImage, SharesSectors, imd_of};
ghost use Rattle.archive_commands.specs.Making.{IsDiskFile, IsImdFile};

/// A law: take the ImageDisk file of a disk, and the disk that is made of that file. It has the same sectors as the
/// first disk, track by track and in the same order, and no others.
pub fn back_again_is_same(_imd: &[u8])
    ensures { (disk : Disk) (image : ImdImage) (file : List ℕ) (taken made : ℕ)
        → IsImdFile disk _imd.now taken → imd_of _imd.now ≡ Ok image → IsDiskFile image file made
        → (after : Disk) × (file ≡ file_of after) × SharesSectors disk after × SharesSectors after disk }
{}
