// What the host reads after a command.
ghost use Rattle.std.specs.Prelude.{◌≡◌, ◌≤◌, get_or, length};
ghost use Rattle.fdc_chip.specs.Answers.{register_bytes, answer_bytes, is_of_data};

use crate::settings::Settings;
use fdc_commands::Results;

/// What a port gives when it has nothing to give.
pub(crate) const NOTHING: u8 = 0xFF;

/// LOCK in the eighth byte of DUMPREG.
const LOCK: u8 = 0x80;

/// EIS, EFIFO, POLL and FIFOTHR in the ninth byte of DUMPREG.
const OPTIONS: u8 = 0x7F;

/// What DUMPREG gives.
#[derive(Clone, Copy, PartialEq, Eq, Debug)]
pub struct Registers {
    /// The present cylinder numbers of drives 0 to 3.
    pub first: u8,
    pub second: u8,
    pub third: u8,
    pub fourth: u8,
    pub settings: Settings,
}

/// What the host reads after a command.
#[derive(Clone, Copy, PartialEq, Eq, Debug)]
pub enum ChipAnswer {
    /// One byte.
    Byte { byte: u8 },
    /// ST0 and the present cylinder number.
    Sensed { status: u8, cylinder: u8 },
    /// The seven bytes of a data command.
    Results { results: Results },
    /// The ten bytes of DUMPREG.
    Registers { registers: Registers },
}

/// The byte at a place, or FF if there is none.
fn nth(bytes: &[u8], at: u8) -> u8
    ensures { result ≡ get_or bytes.now at 0xFF }
{
    match bytes.get(usize::from(at)) {
        Some(byte) => *byte,
        None => NOTHING,
    }
}

impl Registers {
    /// The ten bytes (82077AA data sheet, DUMPREG).
    fn bytes(self) -> [u8; 10]
        ensures { result ≡ register_bytes self }
    {
        let settings = self.settings;
        let lock = if settings.locked { LOCK } else { 0 };
        [
            self.first,
            self.second,
            self.third,
            self.fourth,
            settings.step_rate,
            settings.head_load,
            settings.last_sector,
            lock | settings.perpendicular,
            settings.options & OPTIONS,
            settings.precompensation,
        ]
    }
}

impl ChipAnswer {
    /// The byte that comes after this many, or FF if there is none.
    pub(crate) fn byte(self, read: u8) -> u8
        ensures { result ≡ get_or (answer_bytes self) read 0xFF }
    {
        match self {
            ChipAnswer::Byte { byte } => nth(&[byte], read),
            ChipAnswer::Sensed { status, cylinder } => nth(&[status, cylinder], read),
            ChipAnswer::Results { results } => nth(&results.bytes(), read),
            ChipAnswer::Registers { registers } => nth(&registers.bytes(), read),
        }
    }

    /// How many bytes the answer has.
    pub(crate) fn count(self) -> u8
        ensures count { result ≡ length (answer_bytes self) }
        ensures most { result ≤ 10 }
    {
        match self {
            ChipAnswer::Byte { .. } => 1,
            ChipAnswer::Sensed { .. } => 2,
            ChipAnswer::Results { .. } => 7,
            ChipAnswer::Registers { .. } => 10,
        }
    }

    /// Whether the answer is a data command's, whose first byte lets INT fall.
    pub(crate) fn is_of_data(self) -> bool
        ensures { result ≡ is_of_data self }
    {
        matches!(self, ChipAnswer::Results { .. })
    }
}
