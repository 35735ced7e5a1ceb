// Sectors of an ImageDisk track.
ghost use Rattle.std.specs.Prelude.{◌≡◌, ◌++◌, ◌∷◌, [], OnOk, OnErr};

use flop_base::{Bytes, Chrn, NoMemory};
use std::alloc::Global;
use std::marker::Model;

/// What was found of a sector's data when the diskette was read (the ImageDisk format, sector types 0 to 8).
#[derive(Clone, Copy, Debug, PartialEq, Eq)]
pub enum ImdKind {
    /// There are no data.
    Absent,
    /// The data are whole, with the mark FB.
    Good,
    /// The data are whole, and marked as deleted.
    Deleted,
    /// The data have an error.
    Bad,
    /// The data have an error, and are marked as deleted.
    BadDeleted,
}

/// A sector: its key and its data. The data are empty if they are absent.
#[derive(Drop)]
pub struct ImdSector {
    pub key: Chrn,
    pub kind: ImdKind,
    pub content: Bytes,
}

/// The sectors of a track, in their order on it.
#[derive(Drop)]
pub struct ImdSectors {
    sectors: Vec<ImdSector>,
}

impl Model for ImdSectors {
    ghost use Rattle.std.specs.Prelude.{List};
    ghost use Rattle.imagedisk.specs.declared.sector.ImdSector.{ImdSector};

    ghost Value = { List ImdSector };

    ghost view = { λ kept. kept.sectors.items };
}

impl ImdSectors {
    /// A list without sectors.
    pub fn new(alloc: Global) -> ImdSectors
        ensures { result ≡ [] }
    {
        ImdSectors {
            sectors: Vec::new(alloc),
        }
    }

    /// Adds a sector after the others. It fails if memory runs out.
    pub fn push(&mut self, item: ImdSector) -> Result<(), NoMemory>
        ensures pushed { OnOk result (self.new ≡ self.old ++ item ∷ []) }
        ensures kept { OnErr result (self.new ≡ self.old) }
    {
        self.sectors.push(item)?;
        Ok(())
    }

    /// The sectors in their order on the track.
    pub fn as_slice(&self) -> &[ImdSector]
        ensures { result.now ≡ self.now }
    {
        self.sectors.as_slice()
    }
}
