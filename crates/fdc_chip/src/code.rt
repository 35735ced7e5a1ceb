// The codes of the commands.
ghost use Rattle.std.specs.Prelude.{◌≡◌, ◌≤◌};
ghost use Rattle.fdc_chip.specs.Codes.{has_bit, code_of, parameters};

/// A command by its code (82077AA data sheet, command set). Without MFM a command is for FM, and no medium here is
/// recorded in FM.
#[derive(Clone, Copy, PartialEq, Eq, Debug)]
pub enum ChipOpcode {
    ReadTrack { mfm: bool },
    Specify,
    SenseDrive,
    /// READ DATA, READ DELETED DATA, WRITE DATA and WRITE DELETED DATA.
    Transfer { mfm: bool },
    Recalibrate,
    SenseInterrupt,
    ReadId { mfm: bool },
    FormatTrack { mfm: bool },
    DumpRegisters,
    Seek,
    RelativeSeek { inward: bool },
    Version,
    Perpendicular,
    Configure,
    Lock { on: bool },
    Verify { mfm: bool },
}

/// MT, or the high bit that DIR and LOCK have.
pub(crate) const MULTITRACK: u8 = 0x80;

/// MFM.
const MFM: u8 = 0x40;

/// SK.
pub(crate) const SKIP: u8 = 0x20;

/// The bits that say which command it is.
const COMMAND: u8 = 0x1F;

/// Whether a bit is set.
pub(crate) fn has_bit(byte: u8, bit: u8) -> bool
    ensures { result ≡ has_bit byte bit }
{
    byte & bit != 0
}

impl ChipOpcode {
    /// The command of a code, if there is one. READ ID has neither MT nor SK, and is taken even if these bits are set.
    pub(crate) fn of(byte: u8) -> Option<ChipOpcode>
        ensures { result ≡ code_of byte }
    {
        let mfm = has_bit(byte, MFM);
        let multitrack = has_bit(byte, MULTITRACK);
        let skip = has_bit(byte, SKIP);
        match byte & COMMAND {
            0x02 if !multitrack && !skip => Some(ChipOpcode::ReadTrack { mfm }),
            0x03 if byte == 0x03 => Some(ChipOpcode::Specify),
            0x04 if byte == 0x04 => Some(ChipOpcode::SenseDrive),
            0x05 | 0x09 if !skip => Some(ChipOpcode::Transfer { mfm }),
            0x06 | 0x0C => Some(ChipOpcode::Transfer { mfm }),
            0x07 if byte == 0x07 => Some(ChipOpcode::Recalibrate),
            0x08 if byte == 0x08 => Some(ChipOpcode::SenseInterrupt),
            0x0A => Some(ChipOpcode::ReadId { mfm }),
            0x0D if !multitrack && !skip => Some(ChipOpcode::FormatTrack { mfm }),
            0x0E if byte == 0x0E => Some(ChipOpcode::DumpRegisters),
            0x0F if byte == 0x0F => Some(ChipOpcode::Seek),
            0x0F if multitrack && !skip => Some(ChipOpcode::RelativeSeek { inward: mfm }),
            0x10 if byte == 0x10 => Some(ChipOpcode::Version),
            0x12 if byte == 0x12 => Some(ChipOpcode::Perpendicular),
            0x13 if byte == 0x13 => Some(ChipOpcode::Configure),
            0x14 if !mfm && !skip => Some(ChipOpcode::Lock { on: multitrack }),
            0x16 => Some(ChipOpcode::Verify { mfm }),
            _ => None,
        }
    }

    /// How many bytes follow the code.
    pub(crate) fn parameters(self) -> u8
        ensures count { result ≡ parameters self }
        ensures longest { result ≤ 8 }
    {
        match self {
            ChipOpcode::SenseInterrupt
            | ChipOpcode::DumpRegisters
            | ChipOpcode::Version
            | ChipOpcode::Lock { .. } => 0,
            ChipOpcode::SenseDrive
            | ChipOpcode::Recalibrate
            | ChipOpcode::ReadId { .. }
            | ChipOpcode::Perpendicular => 1,
            ChipOpcode::Specify | ChipOpcode::Seek | ChipOpcode::RelativeSeek { .. } => 2,
            ChipOpcode::Configure => 3,
            ChipOpcode::FormatTrack { .. } => 5,
            ChipOpcode::Transfer { .. }
            | ChipOpcode::ReadTrack { .. }
            | ChipOpcode::Verify { .. } => 8,
        }
    }
}
