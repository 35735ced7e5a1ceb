//! The codes of the commands in the table. A command that has the MFM bit has it set in its code.

pub const SPECIFY: u8 = 0x03;

pub const SENSE_DRIVE: u8 = 0x04;

pub const RECALIBRATE: u8 = 0x07;

pub const SENSE_INTERRUPT: u8 = 0x08;

pub const SEEK: u8 = 0x0F;

pub const VERSION: u8 = 0x10;

pub const CONFIGURE: u8 = 0x13;

pub const READ_ID: u8 = 0x4A;

pub const READ_DATA: u8 = 0x46;

pub const WRITE_DATA: u8 = 0x45;

pub const WRITE_DELETED: u8 = 0x49;

pub const FORMAT_TRACK: u8 = 0x4D;
