// What an ImageDisk file holds.
ghost use Rattle.std.specs.Prelude.{◌≡◌, ◌++◌, ◌∷◌, [], OnOk, OnErr};

use crate::track::ImdTrack;
use flop_base::{NoMemory, Rate};
use std::alloc::Global;
use std::marker::Model;

/// The tracks of an image, in their order in the file.
#[derive(Drop)]
pub struct ImdTracks {
    tracks: Vec<ImdTrack>,
}

impl Model for ImdTracks {
    ghost use Rattle.std.specs.Prelude.{List};
    ghost use Rattle.imagedisk.specs.declared.track.ImdTrack.{ImdTrack};

    ghost Value = { List ImdTrack };

    ghost view = { λ kept. kept.tracks.items };
}

impl ImdTracks {
    /// A list without tracks.
    pub fn new(alloc: Global) -> ImdTracks
        ensures { result ≡ [] }
    {
        ImdTracks {
            tracks: Vec::new(alloc),
        }
    }

    /// Adds a track after the others. It fails if memory runs out.
    pub fn push(&mut self, item: ImdTrack) -> Result<(), NoMemory>
        ensures pushed { OnOk result (self.new ≡ self.old ++ item ∷ []) }
        ensures kept { OnErr result (self.new ≡ self.old) }
    {
        self.tracks.push(item)?;
        Ok(())
    }

    /// The tracks in their order in the file.
    pub fn as_slice(&self) -> &[ImdTrack]
        ensures { result.now ≡ self.now }
    {
        self.tracks.as_slice()
    }
}

/// The tracks of a diskette and the rate that all of them have.
#[derive(Drop)]
pub struct ImdImage {
    /// The rate. It is 500 kbit/s if there is no track.
    pub rate: Rate,
    pub tracks: ImdTracks,
}
