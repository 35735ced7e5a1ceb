// What the results of a data command come to.
ghost use Rattle.std.specs.Prelude.{◌≡◌};
ghost use Rattle.machine_commands.specs.Codes.{refusal_of, rate_byte};

use fdc_registers::{Flags, St1};
use flop_base::{Code, Rate};

/// The refusal of a command that failed, by its status register 1: that of the first bit that is set, in this order.
pub(crate) fn refusal(status: u8) -> Code
    ensures { result ≡ refusal_of status }
{
    let status = St1(status);
    if status.intersects(St1::NOT_WRITABLE) {
        Code::Protected
    } else if status.intersects(St1::OVERRUN) {
        Code::Overrun
    } else if status.intersects(St1::MISSING_MARK) {
        Code::NoMark
    } else if status.intersects(St1::NO_DATA) {
        Code::NotFound
    } else {
        Code::BadCrc
    }
}

/// The bits of CCR that choose a rate.
pub(crate) fn rate_bits(rate: Rate) -> u8
    ensures { result ≡ rate_byte rate }
{
    match rate {
        Rate::R500 => 0x00,
        Rate::R250 => 0x02,
    }
}
