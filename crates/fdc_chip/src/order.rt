// The bytes of a command, one after the other.
ghost use Rattle.std.specs.Prelude.{◌≡◌};
ghost use Rattle.fdc_chip.specs.Doing.{transfer_sent};
ghost use Rattle.fdc_chip.specs.Orders.{blank, is_format, with_byte};

use fdc_sequencer::{Opcode, Transfer};
use flop_base::Chrn;

/// The bits that say which command a code is; then FORMAT TRACK by these bits.
const COMMAND: u8 = 0x1F;

const FORMAT_ANY_TRACK: u8 = 0x0D;

/// The bytes of a command. The names are those of commands with nine bytes; a shorter command has the first of these
/// bytes.
#[derive(Clone, Copy, PartialEq, Eq, Debug)]
pub struct Order {
    pub code: u8,
    /// The head in bit 2 and the drive in bits 1 and 0. In bit 7, whether a VERIFY counts its sectors.
    pub unit: u8,
    pub key: Chrn,
    /// EOT: the number of the track's last sector.
    pub last_sector: u8,
    pub gap: u8,
    /// DTL, or the number of sectors of a VERIFY that counts them.
    pub length: u8,
}

impl Order {
    /// No byte came.
    pub(crate) fn blank() -> Order
        ensures { result ≡ blank }
    {
        Order {
            code: 0,
            unit: 0,
            key: Chrn {
                c: 0,
                h: 0,
                r: 0,
                n: 0,
            },
            last_sector: 0,
            gap: 0,
            length: 0,
        }
    }

    /// Whether the command is a FORMAT TRACK.
    pub(crate) fn is_format(self) -> bool
        ensures { result ≡ is_format self }
    {
        self.code & COMMAND == FORMAT_ANY_TRACK
    }

    /// The command with this byte at a place, which is counted from 0.
    pub(crate) fn with(self, place: u8, byte: u8) -> Order
        ensures { result ≡ with_byte place byte self }
    {
        let key = self.key;
        match place {
            0 => Order { code: byte, ..self },
            1 => Order { unit: byte, ..self },
            2 => Order {
                key: Chrn { c: byte, ..key },
                ..self
            },
            3 => Order {
                key: Chrn { h: byte, ..key },
                ..self
            },
            4 => Order {
                key: Chrn { r: byte, ..key },
                ..self
            },
            5 => Order {
                key: Chrn { n: byte, ..key },
                ..self
            },
            6 => Order {
                last_sector: byte,
                ..self
            },
            7 => Order { gap: byte, ..self },
            _ => Order {
                length: byte,
                ..self
            },
        }
    }

    /// The command of several sectors that the order spells. `seeks` says whether the heads go to its cylinder first.
    pub(crate) fn transfer(self, seeks: bool) -> Transfer
        ensures { result ≡ transfer_sent seeks self }
    {
        Transfer {
            opcode: Opcode::of(self.code),
            head_drive: self.unit,
            key: self.key,
            last_sector: self.last_sector,
            gap: self.gap,
            length: self.length,
            seeks,
        }
    }
}
