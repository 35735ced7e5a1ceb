// The codes of the commands that are served here.
ghost use Rattle.std.specs.Prelude.{◌≡◌};
ghost use Rattle.fdc_sequencer.specs.Opcodes.{operation_with, opcode_of};

/// What a command does with its sectors.
#[derive(Clone, Copy, PartialEq, Eq, Debug)]
pub enum Operation {
    /// READ DATA; or READ DELETED DATA, if `deleted` marks are wanted. With `skip` (SK), a field with the other mark is
    /// passed over, whatever its CRC is.
    Read { deleted: bool, skip: bool },
    /// WRITE DATA, and WRITE DELETED DATA.
    Write { deleted: bool },
}

/// The code of a command of several sectors.
#[derive(Clone, Copy, PartialEq, Eq, Debug)]
pub struct Opcode {
    pub operation: Operation,
    /// MT: the command goes on from head 0 to head 1.
    pub multitrack: bool,
}

/// MT in a code.
const MULTITRACK: u8 = 0x80;

/// SK in a code.
const SKIP: u8 = 0x20;

/// The bits that say which command a code is.
const COMMAND: u8 = 0x1F;

/// What a command with these low five bits of its code does with its sectors. SK says nothing of a write.
fn operation_with(low: u8, skip: bool) -> Operation
    ensures { result ≡ operation_with low skip }
{
    match low {
        0x05 => Operation::Write { deleted: false },
        0x09 => Operation::Write { deleted: true },
        0x0C => Operation::Read {
            deleted: true,
            skip,
        },
        _ => Operation::Read {
            deleted: false,
            skip,
        },
    }
}

impl Opcode {
    /// What the code of one of these commands asks for. Each code that is none of a write or of a READ DELETED DATA
    /// passes as READ DATA.
    pub fn of(code: u8) -> Opcode
        ensures { result ≡ opcode_of code }
    {
        Opcode {
            operation: operation_with(code & COMMAND, code & SKIP != 0),
            multitrack: code & MULTITRACK != 0,
        }
    }
}
