// The line that prints an answer.
ghost use Rattle.std.specs.Prelude.{◌≡◌, ◌≢◌, ◌++◌, codes, Some, IfOk, OnErr, string_bytes};
ghost use Rattle.text_commands.specs.Common.{hex2, reason_text, line_end};
ghost use Rattle.commands.specs.Puts.{Puts, printed_of};
ghost use Rattle.text_commands.specs.PortTexts.{answer_lines, latch_text, port_text, verb_text};

use crate::ports::answer::LineAnswer;
use commands::{put_line, reason_word};
use flop_base::{Sink, Status};
use floppy_jobs::{MemoryByte, PortLine};
use sector_model::Reason;
use std::alloc::{AllocError, Global};
use std::fmt;

/// A port, shown in three hexadecimal digits, or in four.
#[derive(Drop)]
struct Port(u16);

impl fmt::Display for Port {
    ghost output = { λ port. Some (port_text port.0) };

    fn fmt<W: fmt::Write>(&self, f: &mut fmt::Formatter<W>) -> fmt::Result {
        let number = self.0;
        let first = number / 4_096 % 16;
        let second = number / 256 % 16;
        let third = number / 16 % 16;
        let fourth = number % 16;
        if number < 4_096 {
            write!(f, "{second:X}{third:X}{fourth:X}")
        } else {
            write!(f, "{first:X}{second:X}{third:X}{fourth:X}")
        }
    }
}

/// The line of a port that was read.
fn byte_line(alloc: Global, port: u16, value: u8) -> Result<String, AllocError>
    ensures { IfOk result (λ line. string_bytes line
        ≡ codes "in " ++ (port_text port ++ (codes " " ++ (hex2 value ++ line_end)))) }
{
    let port = Port(port);
    let value = MemoryByte(value);
    format!(in alloc; "in {port} {value}\n")
}

/// The line of a latch that was taken.
fn latch_line(alloc: Global, set: bool) -> Result<String, AllocError>
    ensures { IfOk result (λ line. string_bytes line ≡ latch_text set) }
{
    if set {
        String::from_str(alloc, "irq 1\n")
    } else {
        String::from_str(alloc, "irq 0\n")
    }
}

/// The first word of a line.
fn verb_word(line: &PortLine) -> &'static str
    ensures { result.now ≡ verb_text line.now }
{
    match line {
        PortLine::In { .. } => "in",
        PortLine::Out { .. } => "out",
        PortLine::Wait { .. } => "wait",
        PortLine::Irq => "irq",
        PortLine::Insert { .. } => "insert",
        PortLine::Eject { .. } => "eject",
    }
}

/// The line for a medium that wasn't put in or taken out.
fn refusal_line(alloc: Global, verb: &str, reason: Reason) -> Result<String, AllocError>
    ensures { IfOk result (λ line. string_bytes line
        ≡ verb.now ++ (codes " refused " ++ (reason_text reason ++ line_end))) }
{
    let word = reason_word(alloc, reason)?;
    let word = word.as_str();
    format!(in alloc; "{verb} refused {word}\n")
}

/// Puts the line for an answer, if it has one.
#[tactic(auto, unfolding(crate::specs::PortTexts::answer_lines))]
pub(crate) fn put_answer<K: Sink>(
    alloc: Global,
    out: &mut K,
    line: &PortLine,
    answer: &LineAnswer,
) -> Result<(), Status>
    ensures puts { Puts (answer_lines line.now answer.now) (printed_of K.told K.fault_count out.old) result
        (printed_of K.told K.fault_count out.new) }
    ensures tells { OnErr result (answer.now ≢ LineAnswer.Nothing) }
{
    let verb = verb_word(line);
    match answer {
        LineAnswer::Nothing => Ok(()),
        LineAnswer::Byte { port, value } => put_line(out, byte_line(alloc, *port, *value)),
        LineAnswer::Latch { set } => put_line(out, latch_line(alloc, *set)),
        LineAnswer::Done => put_line(out, format!(in alloc; "{verb} ok\n")),
        LineAnswer::Refused(reason) => put_line(out, refusal_line(alloc, verb, *reason)),
    }
}
