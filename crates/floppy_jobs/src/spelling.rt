// The plain spelling of a request.
ghost use Rattle.std.specs.Prelude.{◌≡◌, Some};
ghost use Rattle.floppy_jobs.specs.Spelling.{hex2, hex5, rate_text, sector_texts, spelling};
ghost use Rattle.std.specs.List.{join_with_byte};
ghost use Rattle.floppy_jobs.specs.declared.request.Request.{Request};

use crate::Request;
use flop_base::{Chrn, Rate};
use std::fmt;

/// An address, shown in five hexadecimal digits.
#[derive(Drop)]
pub struct Address(pub u32);

impl fmt::Display for Address {
    ghost output = { λ address. Some (hex5 address.0) };

    fn fmt<W: fmt::Write>(&self, f: &mut fmt::Formatter<W>) -> fmt::Result {
        let number = self.0;
        let first = number / 65_536 % 16;
        let second = number / 4_096 % 16;
        let third = number / 256 % 16;
        let fourth = number / 16 % 16;
        let fifth = number % 16;
        write!(f, "{first:X}{second:X}{third:X}{fourth:X}{fifth:X}")
    }
}

/// A byte of memory, shown in two hexadecimal digits.
#[derive(Drop)]
pub struct MemoryByte(pub u8);

impl fmt::Display for MemoryByte {
    ghost output = { λ byte. Some (hex2 byte.0) };

    fn fmt<W: fmt::Write>(&self, f: &mut fmt::Formatter<W>) -> fmt::Result {
        let first = self.0 / 16 % 16;
        let second = self.0 % 16;
        write!(f, "{first:X}{second:X}")
    }
}

/// A rate in kbit/s.
fn rate_word(rate: Rate) -> &'static str
    ensures { result.now ≡ rate_text rate }
{
    match rate {
        Rate::R500 => "500",
        Rate::R250 => "250",
    }
}

/// A bay, a key and an address, shown as the words of a line.
#[derive(Drop)]
struct SectorWords {
    bay: u8,
    key: Chrn,
    address: u32,
}

impl fmt::Display for SectorWords {
    ghost output = { λ sector. Some (join_with_byte 32 (sector_texts sector.bay sector.key sector.address)) };

    fn fmt<W: fmt::Write>(&self, f: &mut fmt::Formatter<W>) -> fmt::Result {
        let bay = self.bay;
        let Chrn { c, h, r, n } = self.key;
        let address = Address(self.address);
        write!(f, "{bay} {c} {h} {r} {n} {address}")
    }
}

/// Shows the request as a line of a job in its plain spelling, without the line feed.
impl fmt::Display for Request {
    ghost output = { λ request. Some (spelling request) };

    #[tactic(auto, unfolding(crate::specs::Spelling::spelling))]
    fn fmt<W: fmt::Write>(&self, f: &mut fmt::Formatter<W>) -> fmt::Result {
        match self {
            Request::Insert { bay, name } => write!(f, "insert {bay} {}", name.as_str()),
            Request::Blank {
                bay,
                name,
                cylinders,
            } => write!(f, "blank {bay} {} {cylinders}", name.as_str()),
            Request::BlankDd {
                bay,
                name,
                cylinders,
            } => write!(f, "blankdd {bay} {} {cylinders}", name.as_str()),
            Request::Eject { bay } => write!(f, "eject {bay}"),
            Request::Ack { bay } => write!(f, "ack {bay}"),
            Request::Read { bay, key, address } => write!(
                f,
                "read {}",
                sector_words(*bay, *key, *address)
            ),
            Request::Write { bay, key, address } => write!(
                f,
                "write {}",
                sector_words(*bay, *key, *address)
            ),
            Request::WriteDeleted { bay, key, address } => write!(
                f,
                "writedel {}",
                sector_words(*bay, *key, *address)
            ),
            Request::Format { bay, c, h } => write!(f, "format {bay} {c} {h}"),
            Request::Fill {
                address,
                length,
                byte,
            } => {
                let address = Address(*address);
                let byte = MemoryByte(*byte);
                write!(f, "fill {address} {length} {byte}")
            }
            Request::Dump { address, length } => {
                let address = Address(*address);
                write!(f, "dump {address} {length}")
            }
            Request::Unit { bay } => write!(f, "unit {bay}"),
            Request::SetRate { bay, rate } => write!(f, "rate {bay} {}", rate_word(*rate)),
            Request::Tries { tries } => write!(f, "tries {tries}"),
        }
    }
}

fn sector_words(bay: u8, key: Chrn, address: u32) -> SectorWords
    ensures { result ≡ record { bay = bay; key = key; address = address } }
{
    SectorWords { bay, key, address }
}
