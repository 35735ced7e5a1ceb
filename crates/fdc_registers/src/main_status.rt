// The main status register: port 3F4.
use bitflags::{Flag, Flags, bitflag_items};

/// The main status register: port 3F4, when it is read.
#[derive(Clone, Copy, PartialEq, Eq, Debug)]
pub struct Msr(pub u8);

bitflag_items! {
    impl Msr: u8 {
        /// The data port is ready for a byte (request for master).
        const RQM = 0x80;
        /// The byte goes to the host.
        const DIO = 0x40;
        /// Execution without DMA.
        const NON_DMA = 0x20;
        /// A command is in progress.
        const BUSY = 0x10;
        /// Drive 3 seeks.
        const SEEKING_3 = 0x08;
        /// Drive 2 seeks.
        const SEEKING_2 = 0x04;
        /// Drive 1 seeks.
        const SEEKING_1 = 0x02;
        /// Drive 0 seeks.
        const SEEKING_0 = 0x01;
    }
}

impl Flags for Msr {
    ghost use Rattle.std.specs.Prelude.{⊤};
    ghost use Rattle.fdc_registers.specs.Msr.{named_bits};

    type Bits = u8;

    ghost exact = { ⊤ };

    ghost table = { named_bits };

    ghost set_of = { λ set. set.0 };

    fn flags<'a>() -> &'a [Flag<Msr>] {
        Msr::FLAGS
    }

    fn bits(&self) -> u8 {
        self.0
    }

    fn from_bits_retain(bits: u8) -> Msr {
        Msr(bits)
    }
}
