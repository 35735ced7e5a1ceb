// What commands set, and what a reset leaves of it.
ghost use Rattle.std.specs.Prelude.{◌≡◌};
ghost use Rattle.fdc_chip.specs.Settings.{at_power_up, reset, step_words, is_by_port, implies_seeks, perpendicular_set};

use crate::code::has_bit;

/// What commands set (82077AA data sheet: SPECIFY, CONFIGURE, LOCK, PERPENDICULAR MODE), as DUMPREG gives it.
#[derive(Clone, Copy, PartialEq, Eq, Debug)]
pub struct Settings {
    /// SRT in the high four bits, and HUT in the low four.
    pub step_rate: u8,
    /// HLT, and ND in bit 0.
    pub head_load: u8,
    /// EOT of the last data command, or the number of sectors of the last FORMAT TRACK.
    pub last_sector: u8,
    /// LOCK.
    pub locked: bool,
    /// Which drives are perpendicular in bits 5 to 2, and GAP and WGATE in bits 1 and 0.
    pub perpendicular: u8,
    /// EIS, EFIFO, POLL and FIFOTHR.
    pub options: u8,
    /// PRETRK.
    pub precompensation: u8,
    /// A reset turned the FIFO of the inner controller off, though LOCK keeps what was set.
    pub forgotten: bool,
}

/// ND in the last byte of SPECIFY.
const NON_DMA: u8 = 0x01;

/// EIS in the options of CONFIGURE.
const IMPLIED_SEEK: u8 = 0x40;

/// EFIFO, and the threshold less one: what LOCK keeps.
const FIFO: u8 = 0x2F;

/// EFIFO: the FIFO is off.
const FIFO_OFF: u8 = 0x20;

/// The steps of SRT in a byte of SPECIFY.
const STEP_RATE: u8 = 16;

/// OW in the byte of PERPENDICULAR MODE. With it, the command also sets which drives are perpendicular.
const OVERWRITE: u8 = 0x80;

/// Which drives are perpendicular, GAP and WGATE.
const PERPENDICULAR: u8 = 0x3F;

/// Which drives are perpendicular.
const PERPENDICULAR_DRIVES: u8 = 0x3C;

/// GAP and WGATE.
const PERPENDICULAR_MODE: u8 = 0x03;

impl Settings {
    /// The settings at power-up.
    pub(crate) fn new() -> Settings
        ensures { result ≡ at_power_up }
    {
        Settings {
            step_rate: 0,
            head_load: 0,
            last_sector: 0,
            locked: false,
            perpendicular: 0,
            options: FIFO_OFF,
            precompensation: 0,
            forgotten: false,
        }
    }

    /// The settings after a reset by DOR or DSR. CONFIGURE's settings are as at power-up, except for those that LOCK
    /// keeps. GAP and WGATE are clear.
    pub(crate) fn reset(self) -> Settings
        ensures { result ≡ reset self }
    {
        let (options, precompensation) = if self.locked {
            (self.options & FIFO, self.precompensation)
        } else {
            (FIFO_OFF, 0)
        };
        Settings {
            perpendicular: self.perpendicular & PERPENDICULAR_DRIVES,
            options,
            precompensation,
            forgotten: self.locked,
            ..self
        }
    }

    /// The word times from one step pulse to the next. At 500 kbit/s they last 16 less SRT milliseconds. At another
    /// rate there are as many word times.
    pub(crate) fn step_words(self) -> u16
        ensures { result ≡ step_words self }
    {
        (16 - u16::from(self.step_rate / STEP_RATE)) * 125 / 2
    }

    /// Whether bytes pass by the data port.
    pub(crate) fn is_by_port(self) -> bool
        ensures { result ≡ is_by_port self }
    {
        has_bit(self.head_load, NON_DMA)
    }

    /// Whether CONFIGURE set EIS.
    pub(crate) fn implies_seeks(self) -> bool
        ensures { result ≡ implies_seeks self }
    {
        has_bit(self.options, IMPLIED_SEEK)
    }

    /// The settings after a PERPENDICULAR MODE with this byte.
    pub(crate) fn with_perpendicular(self, mode: u8) -> Settings
        ensures { result ≡ perpendicular_set mode self }
    {
        let perpendicular = if has_bit(mode, OVERWRITE) {
            mode & PERPENDICULAR
        } else {
            self.perpendicular & PERPENDICULAR_DRIVES | mode & PERPENDICULAR_MODE
        };
        Settings {
            perpendicular,
            ..self
        }
    }
}
