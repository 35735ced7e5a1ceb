//! The ports of the controller (PC/AT).

/// The digital output register: motors, reset and the selected drive.
pub const DOR: u16 = 0x3F2;

/// The main status register, when the port is read.
pub const MSR: u16 = 0x3F4;

/// The data rate select register, when the port is written.
pub const DSR: u16 = 0x3F4;

/// The data port: the bytes of commands and of results.
pub const DATA: u16 = 0x3F5;

/// The digital input register, when the port is read.
pub const DIR: u16 = 0x3F7;

/// The configuration control register, when the port is written: it sets the data rate.
pub const CCR: u16 = 0x3F7;
