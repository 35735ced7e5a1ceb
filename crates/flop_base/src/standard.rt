//! The standard formats of diskettes (PC/AT): 1.44 MB at 500 kbit/s and 720 KB at 250 kbit/s, with sectors of 512
//! bytes.
ghost use Rattle.std.specs.Prelude.{◌≡◌, ◌≤◌};
ghost use Rattle.flop_base.specs.Standard.{sectors_at, words_at, gap_at, read_gap_at};

use crate::Rate;

/// The byte that fills the sectors of a formatted track.
pub const FILL: u8 = 0xF6;

/// The size code of sectors of 512 bytes.
pub const SIZE_CODE: u8 = 2;

impl Rate {
    /// The sectors of a track: 18 at 500 kbit/s, 9 at 250 kbit/s, with records from 1 on.
    pub fn sectors(self) -> u8
        ensures value { result ≡ sectors_at self }
        ensures most { result ≤ 18 }
    {
        match self {
            Rate::R500 => 18,
            Rate::R250 => 9,
        }
    }

    /// The words of sixteen cells that pass in one revolution: 12,500 at 500 kbit/s, 6,250 at 250 kbit/s.
    pub fn words(self) -> u16
        ensures { result ≡ words_at self }
    {
        match self {
            Rate::R500 => 12_500,
            Rate::R250 => 6_250,
        }
    }

    /// Gap 3 as a track is formatted (PC/AT), in bytes: 6C at 500 kbit/s, 50 at 250 kbit/s.
    pub fn format_gap(self) -> u8
        ensures { result ≡ gap_at self }
    {
        match self {
            Rate::R500 => 0x6C,
            Rate::R250 => 0x50,
        }
    }

    /// Gap 3 as a read or a write of a sector names it (PC/AT), in bytes: 1B at 500 kbit/s, 2A at 250 kbit/s.
    pub fn read_gap(self) -> u8
        ensures { result ≡ read_gap_at self }
    {
        match self {
            Rate::R500 => 0x1B,
            Rate::R250 => 0x2A,
        }
    }
}
