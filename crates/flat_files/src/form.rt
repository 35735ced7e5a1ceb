// The geometry of a flat file, and where its sectors are in the file.
ghost use Rattle.std.specs.Prelude.{◌≡◌, ◌≤◌, ◌<◌, ◌+◌, IsTrue, IsFalse};
ghost use Rattle.flat_files.specs.Forms.{IsForm, cylinder_of, file_length, head_of, sector_place, sector_bytes, tracks_of};

use flop_base::{Rate, sector_size};

/// A geometry: the numbers of cylinders and heads, the records 1 to `sectors` on each track, their size code, and a
/// rate.
#[derive(Clone, Copy, Debug, PartialEq, Eq)]
pub struct FlatForm {
    pub cylinders: u8,
    pub heads: u8,
    pub sectors: u8,
    pub n: u8,
    pub rate: Rate,
}

impl FlatForm {
    /// Whether a medium can have this geometry: 1 to 80 cylinders, 1 or 2 heads, at least one sector, and size code 1
    /// to 6.
    pub fn is_one(self) -> bool
        ensures yes { IsTrue result → IsForm self }
        ensures no { IsFalse result → IsForm self → ⊥ }
    {
        1 <= self.cylinders
            && self.cylinders <= 80
            && 1 <= self.heads
            && self.heads <= 2
            && 1 <= self.sectors
            && 1 <= self.n
            && self.n <= 6
    }

    /// The number of tracks.
    pub(crate) fn tracks(self) -> u8
        requires { IsForm self }
        ensures value { result ≡ tracks_of self }
        ensures most { result ≤ 160 }
    {
        if self.heads == 1 {
            self.cylinders
        } else {
            2 * self.cylinders
        }
    }

    /// The cylinder of a track. Tracks are counted by cylinder, then head.
    pub(crate) fn cylinder(self, track: u8) -> u8
        requires form { IsForm self }
        requires there { track < tracks_of self }
        ensures value { result ≡ cylinder_of self track }
        ensures most { result ≤ 79 }
    {
        if self.heads == 1 { track } else { track / 2 }
    }

    /// The head of a track. Tracks are counted by cylinder, then head.
    pub(crate) fn head(self, track: u8) -> u8
        requires form { IsForm self }
        ensures value { result ≡ head_of self track }
        ensures most { result ≤ 1 }
    {
        if self.heads == 1 { 0 } else { track % 2 }
    }

    /// The number of bytes of a sector.
    pub(crate) fn size(self) -> usize
        requires { IsForm self }
        ensures value { result ≡ sector_bytes self }
        ensures most { result ≤ 8192 }
    {
        sector_size(self.n)
    }

    /// The number of bytes of the file.
    pub(crate) fn length(self) -> usize
        requires { IsForm self }
        ensures { result ≡ file_length self }
    {
        self.tracks() as usize * self.sectors as usize * self.size()
    }

    /// Where a sector of a track, counted from 0, begins in the file.
    pub(crate) fn place(self, track: u8, i: u8) -> usize
        requires form { IsForm self }
        requires track { track < tracks_of self }
        requires there { i < self.sectors }
        ensures place { result ≡ sector_place self track i }
        ensures inside { result + sector_bytes self ≤ file_length self }
    {
        (track as usize * self.sectors as usize + i as usize) * self.size()
    }
}
