// The ports of the diskette controller and of DMA channel 2 (PC/AT), and what is written to them.

use fdc_registers::Msr;
pub(crate) use fdc_registers::ports::{CCR, DATA, DIR, DOR, MSR};

/// A result byte is ready, and a command is in progress; no drive seeks.
pub(crate) const RESULTS_READY: u8 = Msr::RQM.0 | Msr::DIO.0 | Msr::BUSY.0;

/// Channel 2's address and count, low byte first.
pub(crate) const ADDRESS: u16 = 0x04;

pub(crate) const COUNT: u16 = 0x05;

/// The command register of the channel's chip: zero enables it.
pub(crate) const DMA_COMMAND: u16 = 0x08;

/// The mask of one channel.
pub(crate) const MASK: u16 = 0x0A;

/// The mode of one channel.
pub(crate) const MODE: u16 = 0x0B;

/// The flip-flop that tells the low byte from the high one.
pub(crate) const CLEAR_FLIP_FLOP: u16 = 0x0C;

/// Bits 19 to 16 of channel 2's addresses.
pub(crate) const PAGE: u16 = 0x81;
