// The commands of the table, and what their bytes spell.
ghost use Rattle.std.specs.Prelude.{◌≡◌, ◌≤◌, IfSome, IsTrue, option_map, slice_index};
ghost use Rattle.fdc_commands.specs.Table.{row_of, size_code, is_sized as is_sized_command, SizeInRange};

use crate::codes::{
    CONFIGURE, FORMAT_TRACK, READ_DATA, READ_ID, RECALIBRATE, SEEK, SENSE_DRIVE, SENSE_INTERRUPT,
    SPECIFY, VERSION, WRITE_DATA, WRITE_DELETED,
};
use flop_base::Chrn;

/// A command, with each field as it was sent. `head_drive` has the head in bit 2 and the drive in bits 1 and 0.
#[derive(Clone, Copy, PartialEq, Eq, Debug)]
pub enum Command {
    /// 03: sets step rate and head times, and in bit 0 of `hlt_nd` the non-DMA mode.
    Specify {
        srt_hut: u8,
        hlt_nd: u8,
    },
    /// 04: gives the drive's lines.
    SenseDrive {
        head_drive: u8,
    },
    /// 07: moves the heads to track 0.
    Recalibrate {
        drive: u8,
    },
    /// 08: takes a result of a seek or of polling.
    SenseInterrupt,
    /// 0F: moves the heads to cylinder `ncn`.
    Seek {
        head_drive: u8,
        ncn: u8,
    },
    /// 10: says which controller it is.
    Version,
    /// 13: sets in `options` implied seek, FIFO off, polling off and the threshold less one.
    Configure {
        zero: u8,
        options: u8,
        pretrk: u8,
    },
    /// 4A: gives the sector ID of some sector.
    ReadId {
        head_drive: u8,
    },
    /// 46: transfers one sector to memory.
    ReadData {
        head_drive: u8,
        key: Chrn,
        eot: u8,
        gpl: u8,
        dtl: u8,
    },
    /// 45: transfers one sector from memory.
    WriteData {
        head_drive: u8,
        key: Chrn,
        eot: u8,
        gpl: u8,
        dtl: u8,
    },
    /// 49: transfers one sector from memory, and marks it deleted.
    WriteDeleted {
        head_drive: u8,
        key: Chrn,
        eot: u8,
        gpl: u8,
        dtl: u8,
    },
    /// 4D: formats a track of `sc` sectors, whose sector IDs come from memory.
    FormatTrack {
        head_drive: u8,
        n: u8,
        sc: u8,
        gpl: u8,
        fill: u8,
    },
}

/// How many bytes the longest command has, with its code.
pub(crate) const LONGEST: usize = 9;

/// How many bytes follow a code, or none if the table doesn't have the code.
pub(crate) fn parameter_count(code: u8) -> Option<usize>
    ensures count { result ≡ option_map (λ r. r.count) (row_of code) }
    ensures longest { IfSome result (λ count. count ≤ 8) }
{
    match code {
        SENSE_INTERRUPT | VERSION => Some(0),
        SENSE_DRIVE | RECALIBRATE | READ_ID => Some(1),
        SPECIFY | SEEK => Some(2),
        CONFIGURE => Some(3),
        FORMAT_TRACK => Some(5),
        READ_DATA | WRITE_DATA | WRITE_DELETED => Some(8),
        _ => None,
    }
}

/// The command that the bytes of a whole command spell, with the code first.
pub(crate) fn spell(bytes: &[u8; LONGEST]) -> Option<Command>
    ensures { result ≡ option_map (λ r. r.spells bytes.now) (row_of (slice_index bytes.now 0)) }
{
    let [
        code,
        head_drive,
        second,
        third,
        fourth,
        fifth,
        eot,
        gpl,
        dtl,
    ] = *bytes;
    let key = Chrn {
        c: second,
        h: third,
        r: fourth,
        n: fifth,
    };
    let command = match code {
        SPECIFY => Command::Specify {
            srt_hut: head_drive,
            hlt_nd: second,
        },
        SENSE_DRIVE => Command::SenseDrive { head_drive },
        RECALIBRATE => Command::Recalibrate { drive: head_drive },
        SENSE_INTERRUPT => Command::SenseInterrupt,
        SEEK => Command::Seek {
            head_drive,
            ncn: second,
        },
        VERSION => Command::Version,
        CONFIGURE => Command::Configure {
            zero: head_drive,
            options: second,
            pretrk: third,
        },
        READ_ID => Command::ReadId { head_drive },
        READ_DATA => Command::ReadData {
            head_drive,
            key,
            eot,
            gpl,
            dtl,
        },
        WRITE_DATA => Command::WriteData {
            head_drive,
            key,
            eot,
            gpl,
            dtl,
        },
        WRITE_DELETED => Command::WriteDeleted {
            head_drive,
            key,
            eot,
            gpl,
            dtl,
        },
        FORMAT_TRACK => Command::FormatTrack {
            head_drive,
            n: second,
            sc: third,
            gpl: fourth,
            fill: fifth,
        },
        _ => return None,
    };
    Some(command)
}

impl Command {
    /// The command's size code, if it has one.
    pub(crate) fn size_code(self) -> Option<u8>
        ensures { result ≡ size_code self }
    {
        match self {
            Command::ReadData { key, .. }
            | Command::WriteData { key, .. }
            | Command::WriteDeleted { key, .. } => Some(key.n),
            Command::FormatTrack { n, .. } => Some(n),
            _ => None,
        }
    }

    /// Whether the command's size code is from 1 to 6, or it has none.
    pub fn is_sized(self) -> bool
        ensures is { result ≡ is_sized_command self }
        ensures sized { IsTrue result → SizeInRange self }
    {
        self.size_code().is_none_or(|n| 1 <= n && n <= 6)
    }
}
