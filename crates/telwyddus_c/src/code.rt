// What a call answers.

/// Done.
pub const DONE: u32 = 0;

/// The slot holds nothing.
pub const EMPTY: u32 = 1;

/// The slot holds something already.
pub const FULL: u32 = 2;

/// Memory is out.
pub const NO_MEMORY: u32 = 3;

/// A bay, or an address, is out of range.
pub const OUT_OF_RANGE: u32 = 4;

/// The bytes are no image.
pub const BAD_IMAGE: u32 = 5;

/// The bay holds a medium already.
pub const HAS_MEDIUM: u32 = 6;

/// There is no medium.
pub const NO_MEDIUM: u32 = 7;

/// The controller asks for no byte in this direction.
pub const NOT_ASKED: u32 = 8;

/// A line of the plan isn't understood.
pub const BAD_PLAN: u32 = 9;

/// The buffer is too short.
pub const TOO_SHORT: u32 = 10;

/// A name, or a word, isn't UTF-8.
pub const NOT_TEXT: u32 = 11;

/// No file has the name.
pub const NO_FILE: u32 = 12;

/// The bay isn't ready: no medium is in.
pub const NOT_READY: u32 = 13;

/// The bay isn't acknowledged since its medium was put in.
pub const CHANGED: u32 = 14;

/// The medium is write-protected.
pub const PROTECTED: u32 = 15;

/// The track has no address mark, or the sector no data.
pub const NO_MARK: u32 = 16;

/// The track has no such sector.
pub const NOT_FOUND: u32 = 17;

/// The sector's data is damaged.
pub const BAD_CRC: u32 = 18;

/// A DMA request waited too long.
pub const OVERRUN: u32 = 19;

/// The heads didn't find track 0.
pub const SEEK: u32 = 20;

/// The other form can't have a track.
pub const UNFIT: u32 = 21;

/// The bytes are no saved state.
pub const BAD_STATE: u32 = 22;
