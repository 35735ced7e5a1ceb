// The line that prints the registers after a call.
ghost use Rattle.std.specs.Prelude.{◌≡◌, Some, IfOk, string_bytes};
ghost use Rattle.text_commands.specs.CallTexts.{hex4, carry_text, call_text};

use bios_int13::Regs;
use std::alloc::{AllocError, Global};
use std::fmt;

/// A register, shown in four hexadecimal digits.
#[derive(Drop)]
struct Register(u16);

impl fmt::Display for Register {
    ghost output = { λ register. Some (hex4 register.0) };

    fn fmt<W: fmt::Write>(&self, f: &mut fmt::Formatter<W>) -> fmt::Result {
        let number = self.0;
        let first = number / 4_096 % 16;
        let second = number / 256 % 16;
        let third = number / 16 % 16;
        let fourth = number % 16;
        write!(f, "{first:X}{second:X}{third:X}{fourth:X}")
    }
}

fn carry_word(carry: bool) -> &'static str
    ensures { result.now ≡ carry_text carry }
{
    if carry { "1" } else { "0" }
}

/// The line of a call: the registers after it except ES, and the carry.
#[tactic(auto, unfolding(crate::specs::CallTexts::call_text))]
pub(crate) fn call_line(alloc: Global, regs: Regs) -> Result<String, AllocError>
    ensures { IfOk result (λ line. string_bytes line ≡ call_text regs) }
{
    let ax = Register(regs.ax);
    let bx = Register(regs.bx);
    let cx = Register(regs.cx);
    let dx = Register(regs.dx);
    let carry = carry_word(regs.carry);
    format!(in alloc; "call {ax} {bx} {cx} {dx} {carry}\n")
}
