// A track of an ImageDisk file.
use crate::sector::ImdSectors;

/// A track: the cylinder and head at which the drive stood, the size code of its sectors, and the sectors in their
/// order.
#[derive(Drop)]
pub struct ImdTrack {
    /// The cylinder, 0 to 79.
    pub c: u8,
    /// The head, 0 or 1.
    pub h: u8,
    /// The size code, 1 to 6.
    pub n: u8,
    /// The sectors, at most 255.
    pub sectors: ImdSectors,
}
