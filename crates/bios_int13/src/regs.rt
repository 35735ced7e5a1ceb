// The registers of a call.
ghost use Rattle.std.specs.Prelude.{◌≡◌, ◌+◌, ◌*◌, ◌/◌, ◌%◌};

/// The registers of a call, and the carry flag after the call (INT 13h of the PC/AT BIOS).
#[derive(Clone, Copy, Debug, PartialEq, Eq)]
pub struct Regs {
    /// AH: the function, and after the call its answer. AL: the number of records.
    pub ax: u16,
    /// The offset of the first record in the segment in ES.
    pub bx: u16,
    /// CH and bits 7 and 6 of CL: the cylinder, from 0. Bits 5 to 0 of CL: the first record, from 1.
    pub cx: u16,
    /// DH: the head, from 0. DL: the drive, 0 or 1.
    pub dx: u16,
    /// The segment of the records, in units of 16 bytes.
    pub es: u16,
    /// Whether the call was refused. This is the carry flag.
    pub carry: bool,
}

fn high_byte(register: u16) -> u8
    ensures { result ≡ register / 256 }
{
    (register / 256) as u8
}

fn low_byte(register: u16) -> u8
    ensures { result ≡ register % 256 }
{
    (register % 256) as u8
}

/// A register of these two bytes.
pub(crate) fn register(high: u8, low: u8) -> u16
    ensures { result ≡ high * 256 + low }
{
    u16::from(high) * 256 + u16::from(low)
}

// The fields of the registers that calls of the diskette service use.
impl Regs {
    ghost use Rattle.bios_int13.specs.Registers.{ah, al, dh, dl, cylinder_of, record_of, address_of, names_drive};

    /// The function.
    pub(crate) fn ah(self) -> u8
        ensures { result ≡ ah self }
    {
        high_byte(self.ax)
    }

    /// The number of records.
    pub(crate) fn al(self) -> u8
        ensures { result ≡ al self }
    {
        low_byte(self.ax)
    }

    /// The head.
    pub(crate) fn dh(self) -> u8
        ensures { result ≡ dh self }
    {
        high_byte(self.dx)
    }

    /// The drive.
    pub(crate) fn dl(self) -> u8
        ensures { result ≡ dl self }
    {
        low_byte(self.dx)
    }

    /// The cylinder: CH, and above it bits 7 and 6 of CL.
    pub(crate) fn cylinder(self) -> u16
        ensures { result ≡ cylinder_of self }
    {
        let above = low_byte(self.cx) / 64;
        u16::from(high_byte(self.cx)) + 256 * u16::from(above)
    }

    /// The first record: bits 5 to 0 of CL.
    pub(crate) fn record(self) -> u8
        ensures { result ≡ record_of self }
    {
        low_byte(self.cx) % 64
    }

    /// Where the first record is in memory: ES:BX.
    pub(crate) fn address(self) -> u32
        ensures { result ≡ address_of self }
    {
        u32::from(self.es) * 16 + u32::from(self.bx)
    }

    /// Whether DL names one of the two drives.
    pub(crate) fn names_drive(self) -> bool
        ensures { result ≡ names_drive self }
    {
        self.dl() <= 1
    }
}
