// What the PC/AT sets and reads of the drives at the ports 3F2 and 3F7.
ghost use Rattle.std.specs.Prelude.{◌≡◌, ◌<◌, ◌+◌, ◌%◌, ◌↔◌, IsTrue, IsBitSet};

use bitflags::{Flag, Flags, bitflag_items};

/// The digital output register: port 3F2. It is written, and can be read back.
#[derive(Clone, Copy, PartialEq, Eq, Debug)]
pub struct Dor(pub u8);

bitflag_items! {
    impl Dor: u8 {
        /// The motor of drive 3 is on.
        const MOTOR_3 = 0x80;
        /// The motor of drive 2 is on.
        const MOTOR_2 = 0x40;
        /// The motor of drive 1 is on.
        const MOTOR_1 = 0x20;
        /// The motor of drive 0 is on.
        const MOTOR_0 = 0x10;
        /// INT and DRQ reach the bus.
        const GATE = 0x08;
        /// Zero holds the controller in reset.
        const NOT_RESET = 0x04;
        /// The high bit of the selected drive.
        const DRIVE_1 = 0x02;
        /// The low bit of the selected drive.
        const DRIVE_0 = 0x01;
    }
}

impl Flags for Dor {
    ghost use Rattle.std.specs.Prelude.{⊤};
    ghost use Rattle.fdc_registers.specs.Dor.{named_bits};

    type Bits = u8;

    ghost exact = { ⊤ };

    ghost table = { named_bits };

    ghost set_of = { λ set. set.0 };

    fn flags<'a>() -> &'a [Flag<Dor>] {
        Dor::FLAGS
    }

    fn bits(&self) -> u8 {
        self.0
    }

    fn from_bits_retain(bits: u8) -> Dor {
        Dor(bits)
    }
}

impl Dor {
    /// The selected drive, 0 to 3.
    pub fn selected(self) -> u8
        ensures { result ≡ self.0 % 4 }
    {
        self.0 & 0x03
    }

    /// Whether the motor of a drive is on.
    pub fn is_motor_on(self, drive: u8) -> bool
        requires { drive < 4 }
        ensures { IsTrue result ↔ IsBitSet self.0 (4 + drive) }
    {
        self.0 & (1 << (4 + drive)) != 0
    }
}

/// The digital input register: port 3F7, when it is read.
#[derive(Clone, Copy, PartialEq, Eq, Debug)]
pub struct Dir(pub u8);

bitflag_items! {
    impl Dir: u8 {
        /// The selected drive's change line.
        const CHANGED = 0x80;
    }
}

impl Flags for Dir {
    ghost use Rattle.std.specs.Prelude.{⊤};
    ghost use Rattle.fdc_registers.specs.Dir.{named_bits};

    type Bits = u8;

    ghost exact = { ⊤ };

    ghost table = { named_bits };

    ghost set_of = { λ set. set.0 };

    fn flags<'a>() -> &'a [Flag<Dir>] {
        Dir::FLAGS
    }

    fn bits(&self) -> u8 {
        self.0
    }

    fn from_bits_retain(bits: u8) -> Dir {
        Dir(bits)
    }
}
