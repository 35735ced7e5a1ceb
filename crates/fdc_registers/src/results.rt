// The status registers, which are among the results of a command.
use bitflags::{Flag, Flags, bitflag_items};

/// Status register 0: how a command ended, and on which drive and head.
#[derive(Clone, Copy, PartialEq, Eq, Debug)]
pub struct St0(pub u8);

bitflag_items! {
    impl St0: u8 {
        /// Interrupt code 11: the ready line of a polled drive changed.
        const POLLING = 0xC0;
        /// Interrupt code 10: an invalid command.
        const INVALID = 0x80;
        /// Interrupt code 01: the command failed.
        const ABNORMAL = 0x40;
        /// A seek or recalibration ended.
        const SEEK_END = 0x20;
        /// A recalibration did not reach track 0.
        const EQUIPMENT_CHECK = 0x10;
        /// The head.
        const HEAD = 0x04;
        /// The high bit of the drive.
        const DRIVE_1 = 0x02;
        /// The low bit of the drive.
        const DRIVE_0 = 0x01;
    }
}

impl Flags for St0 {
    ghost use Rattle.std.specs.Prelude.{⊤};
    ghost use Rattle.fdc_registers.specs.St0.{named_bits};

    type Bits = u8;

    ghost exact = { ⊤ };

    ghost table = { named_bits };

    ghost set_of = { λ set. set.0 };

    fn flags<'a>() -> &'a [Flag<St0>] {
        St0::FLAGS
    }

    fn bits(&self) -> u8 {
        self.0
    }

    fn from_bits_retain(bits: u8) -> St0 {
        St0(bits)
    }
}

/// Status register 1: what went wrong.
#[derive(Clone, Copy, PartialEq, Eq, Debug)]
pub struct St1(pub u8);

bitflag_items! {
    impl St1: u8 {
        /// The last sector ended without terminal count.
        const END_OF_CYLINDER = 0x80;
        /// A field's CRC does not match.
        const DATA_ERROR = 0x20;
        /// DMA came too late.
        const OVERRUN = 0x10;
        /// No sector has the sector ID.
        const NO_DATA = 0x04;
        /// The medium is protected.
        const NOT_WRITABLE = 0x02;
        /// An address mark or data mark was not seen.
        const MISSING_MARK = 0x01;
    }
}

impl Flags for St1 {
    ghost use Rattle.std.specs.Prelude.{⊤};
    ghost use Rattle.fdc_registers.specs.St1.{named_bits};

    type Bits = u8;

    ghost exact = { ⊤ };

    ghost table = { named_bits };

    ghost set_of = { λ set. set.0 };

    fn flags<'a>() -> &'a [Flag<St1>] {
        St1::FLAGS
    }

    fn bits(&self) -> u8 {
        self.0
    }

    fn from_bits_retain(bits: u8) -> St1 {
        St1(bits)
    }
}

/// Status register 2: what concerns the data field or the cylinder.
#[derive(Clone, Copy, PartialEq, Eq, Debug)]
pub struct St2(pub u8);

bitflag_items! {
    impl St2: u8 {
        /// The data field has a deleted data mark.
        const CONTROL_MARK = 0x40;
        /// The data field's CRC does not match.
        const DATA_FIELD_ERROR = 0x20;
        /// Another cylinder was found.
        const WRONG_CYLINDER = 0x10;
        /// A cylinder marked bad was found.
        const BAD_CYLINDER = 0x02;
        /// No data mark was seen.
        const MISSING_DATA_MARK = 0x01;
    }
}

impl Flags for St2 {
    ghost use Rattle.std.specs.Prelude.{⊤};
    ghost use Rattle.fdc_registers.specs.St2.{named_bits};

    type Bits = u8;

    ghost exact = { ⊤ };

    ghost table = { named_bits };

    ghost set_of = { λ set. set.0 };

    fn flags<'a>() -> &'a [Flag<St2>] {
        St2::FLAGS
    }

    fn bits(&self) -> u8 {
        self.0
    }

    fn from_bits_retain(bits: u8) -> St2 {
        St2(bits)
    }
}

/// Status register 3: the lines of a drive.
#[derive(Clone, Copy, PartialEq, Eq, Debug)]
pub struct St3(pub u8);

bitflag_items! {
    impl St3: u8 {
        /// The medium is protected.
        const PROTECTED = 0x40;
        /// Bits 5 and 3, which are always 1.
        const ALWAYS_ONE = 0x28;
        /// The head is over track 0.
        const TRACK_0 = 0x10;
        /// The head.
        const HEAD = 0x04;
        /// The high bit of the drive.
        const DRIVE_1 = 0x02;
        /// The low bit of the drive.
        const DRIVE_0 = 0x01;
    }
}

impl Flags for St3 {
    ghost use Rattle.std.specs.Prelude.{⊤};
    ghost use Rattle.fdc_registers.specs.St3.{named_bits};

    type Bits = u8;

    ghost exact = { ⊤ };

    ghost table = { named_bits };

    ghost set_of = { λ set. set.0 };

    fn flags<'a>() -> &'a [Flag<St3>] {
        St3::FLAGS
    }

    fn bits(&self) -> u8 {
        self.0
    }

    fn from_bits_retain(bits: u8) -> St3 {
        St3(bits)
    }
}
