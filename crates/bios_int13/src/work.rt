// What a call asks for.
ghost use Rattle.std.specs.Prelude.{◌≡◌, ◌≤◌};
ghost use Rattle.bios_int13.specs.Registers.{al};
ghost use Rattle.bios_int13.specs.Table.{names_records, is_in_memory, crosses_page, transfer_address, transfer_of, IsDoable};

use crate::Regs;
use flop_base::{Code, USER_BYTES};

/// The functions that move or check records.
#[derive(Clone, Copy, Debug, PartialEq, Eq)]
pub enum Kind {
    /// Function 02.
    Read,
    /// Function 03.
    Write,
    /// Function 04.
    Verify,
}

/// What has to be done for a call. Answers and codes are those of INT 13h.
#[derive(Clone, Copy, Debug, PartialEq, Eq)]
pub enum Work {
    /// There is nothing to do: this is the answer.
    Answer {
        code: u8,
    },
    /// It has to be found out whether the bay isn't acknowledged.
    Changed {
        bay: u8,
    },
    /// Move `count` records of 512 bytes, from record `r` on and from the address on. A verify reads each record to the
    /// same address.
    Move {
        kind: Kind,
        bay: u8,
        c: u8,
        h: u8,
        r: u8,
        count: u8,
        address: u32,
    },
}

/// Whether a drive can have the records that the call names, and their numbers fit in a byte.
fn names_records(regs: Regs) -> bool
    ensures { result ≡ names_records regs }
{
    let behind = u16::from(regs.record()) + u16::from(regs.al());
    regs.names_drive()
        && regs.al() >= 1
        && regs.record() >= 1
        && behind <= 256
        && regs.cylinder() <= 79
        && regs.dh() <= 1
}

/// Whether the bytes of the records are in user memory. A verify uses none there.
fn is_in_memory(kind: Kind, regs: Regs) -> bool
    ensures { result ≡ is_in_memory kind regs }
{
    match kind {
        Kind::Read | Kind::Write => regs.address() + 512 * u32::from(regs.al()) <= USER_BYTES,
        Kind::Verify => true,
    }
}

/// Whether the first and the last byte of the records are in different pages of the DMA channel.
fn crosses_page(kind: Kind, regs: Regs) -> bool
    requires { 1 ≤ al regs }
    ensures { result ≡ crosses_page kind regs }
{
    match kind {
        Kind::Read | Kind::Write => {
            let first = regs.address();
            let last = first + 512 * u32::from(regs.al()) - 1;
            first / 65_536 != last / 65_536
        }
        Kind::Verify => false,
    }
}

/// The work for a transfer of records, or the answer that refuses it.
pub(crate) fn transfer(kind: Kind, regs: Regs) -> Work
    ensures work { result ≡ transfer_of kind regs }
    ensures doable { IsDoable result }
{
    if !names_records(regs) || !is_in_memory(kind, regs) {
        return Work::Answer {
            code: Code::BadRequest.number(),
        };
    }
    if crosses_page(kind, regs) {
        return Work::Answer {
            code: Code::Page.number(),
        };
    }
    let address = match kind {
        Kind::Read | Kind::Write => regs.address(),
        Kind::Verify => 0,
    };
    Work::Move {
        kind,
        bay: regs.dl(),
        c: regs.cylinder() as u8,
        h: regs.dh(),
        r: regs.record(),
        count: regs.al(),
        address,
    }
}
