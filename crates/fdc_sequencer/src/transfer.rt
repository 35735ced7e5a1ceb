// A command of several sectors, as it stands at one of them.
ghost use Rattle.std.specs.Prelude.{◌≡◌};
ghost use Rattle.fdc_sequencer.specs.Fronts.{drive_bit};
ghost use Rattle.fdc_sequencer.specs.Transfers.{command_of, next_of, is_last, is_other, other_mark, is_skipping, results_sought, results_told, size_of};

use crate::opcode::{Opcode, Operation};
use fdc_commands::{Command, Results};
use fdc_phases::results;
use fdc_registers::{Flags, Msr, St0, St2};
use fdc_stages::Ending;
use flop_base::Chrn;

/// The bit of the head in the second byte of a command.
const HEAD: u8 = 0x04;

/// How many drives the second byte of a command can name.
const DRIVES: u8 = 4;

/// The seek bit of a command's drive, as MSR has it.
pub fn drive_bit(head_drive: u8) -> Msr
    ensures { result.0 ≡ drive_bit head_drive }
{
    match head_drive % DRIVES {
        0 => Msr::SEEKING_0,
        1 => Msr::SEEKING_1,
        2 => Msr::SEEKING_2,
        _ => Msr::SEEKING_3,
    }
}

/// A command of several sectors, as it stands at one of them.
#[derive(Clone, Copy, PartialEq, Eq, Debug)]
pub struct Transfer {
    pub opcode: Opcode,
    /// The head in bit 2, and the drive in bits 1 and 0.
    pub head_drive: u8,
    /// The sector ID of the sector.
    pub key: Chrn,
    /// EOT: the number of the track's last sector.
    pub last_sector: u8,
    pub gap: u8,
    pub length: u8,
    /// Whether the heads went to the cylinder of the first sector before it, by an implied seek.
    pub seeks: bool,
}

impl Transfer {
    /// The controller's own command for this sector.
    pub(crate) fn command(self) -> Command
        ensures { result ≡ command_of self }
    {
        let Transfer {
            opcode,
            head_drive,
            key,
            last_sector,
            gap,
            length,
            ..
        } = self;
        match opcode.operation {
            Operation::Read { .. } => Command::ReadData {
                head_drive,
                key,
                eot: last_sector,
                gpl: gap,
                dtl: length,
            },
            Operation::Write { deleted: false } => Command::WriteData {
                head_drive,
                key,
                eot: last_sector,
                gpl: gap,
                dtl: length,
            },
            Operation::Write { deleted: true } => Command::WriteDeleted {
                head_drive,
                key,
                eot: last_sector,
                gpl: gap,
                dtl: length,
            },
        }
    }

    /// The same command at the sector after this one. This is the next record, or after the last record: with MT,
    /// record 1 of the other head, after head 1 on the next cylinder; without MT, record 1 of the next cylinder.
    pub(crate) fn next(self) -> Transfer
        ensures { result ≡ next_of self }
    {
        let Chrn { c, h, r, n } = self.key;
        if r != self.last_sector {
            let key = Chrn {
                c,
                h,
                r: r.wrapping_add(1),
                n,
            };
            return Transfer { key, ..self };
        }
        if !self.opcode.multitrack {
            let key = Chrn {
                c: c.wrapping_add(1),
                h,
                r: 1,
                n,
            };
            return Transfer { key, ..self };
        }
        let c = if self.head_drive & HEAD == 0 {
            c
        } else {
            c.wrapping_add(1)
        };
        Transfer {
            head_drive: self.head_drive ^ HEAD,
            key: Chrn {
                c,
                h: h ^ 1,
                r: 1,
                n,
            },
            ..self
        }
    }

    /// Whether no sector comes after this one.
    pub(crate) fn is_last(self) -> bool
        ensures { result ≡ is_last self }
    {
        self.key.r == self.last_sector && (!self.opcode.multitrack || self.head_drive & HEAD != 0)
    }

    /// Whether a field with this mark isn't one of those that the command wants.
    pub(crate) fn is_other(self, deleted: bool) -> bool
        ensures { result ≡ is_other self.opcode.operation deleted }
    {
        match self.opcode.operation {
            Operation::Read {
                deleted: wanted,
                ..
            } => wanted != deleted,
            Operation::Write { .. } => false,
        }
    }

    /// The mark of the fields that aren't wanted.
    pub(crate) fn other_mark(self) -> bool
        ensures { result ≡ other_mark self.opcode.operation }
    {
        match self.opcode.operation {
            Operation::Read { deleted, .. } | Operation::Write { deleted } => !deleted,
        }
    }

    /// Whether the command passes fields with the other mark over.
    pub(crate) fn is_skipping(self) -> bool
        ensures { result ≡ is_skipping self.opcode.operation }
    {
        matches!(self.opcode.operation, Operation::Read { skip: true, .. })
    }

    /// How many bytes a sector has.
    pub(crate) fn size(self) -> u16
        ensures { result ≡ size_of self.key.n }
    {
        match self.key.n {
            1 => 256,
            2 => 512,
            3 => 1024,
            4 => 2048,
            5 => 4096,
            6 => 8192,
            _ => 128,
        }
    }

    /// The results if the command ends at this sector with this ending. `passed_over` says that a field with the other
    /// mark was passed over.
    pub(crate) fn results(self, ending: Ending, key: Chrn, passed_over: bool) -> Results
        ensures { result ≡ results_told ending self key passed_over }
    {
        let told = self.results_sought(ending, key);
        if !passed_over {
            return told;
        }
        Results {
            st2: told.st2.union(St2::CONTROL_MARK),
            ..told
        }
    }

    /// The results without CM. They have SE if the heads went to the cylinder first (data sheet: SE is set too where a
    /// read or write made an implied seek).
    fn results_sought(self, ending: Ending, key: Chrn) -> Results
        ensures { result ≡ results_sought ending self key }
    {
        let told = results(ending, self.head_drive, key);
        if !self.seeks {
            return told;
        }
        Results {
            st0: told.st0.union(St0::SEEK_END),
            ..told
        }
    }
}
