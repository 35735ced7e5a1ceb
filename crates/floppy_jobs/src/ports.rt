// The text of port accesses.
ghost use Rattle.std.specs.Prelude.{◌≡◌, map};
ghost use Rattle.floppy_jobs.specs.LinesRead.{Reads, ReadsText};
ghost use Rattle.floppy_jobs.specs.Ports.{in_of, out_of, wait_of, irq_of, port_insert_of, port_eject_of, port_line_of};
ghost use Rattle.floppy_jobs.specs.Texts.{ports_of};

use crate::lines::{JobError, Line, LineError, MOST_LINES, read_lines};
use crate::name::named;
use crate::numbers::{byte, hex_byte, port, steps};
use crate::verb::is_verb;
use flop_base::Name;
use std::alloc::Global;

/// One line of a ports text.
#[derive(Drop)]
pub enum PortLine {
    /// Reads a port and prints the byte.
    In { port: u16 },
    /// Writes a byte to a port.
    Out { port: u16, value: u8 },
    /// Lets this many device steps pass.
    Wait { steps: u16 },
    /// Takes the interrupt latch and prints it.
    Irq,
    /// Loads the image of this name and puts its medium in.
    Insert { bay: u8, name: Name },
    /// Takes the medium out and stores its image.
    Eject { bay: u8 },
}

/// Reads a text of port accesses. A text with a bad line is refused as a whole.
#[tactic(auto, unfolding(crate::specs::Texts::ports_of))]
pub fn parse_ports(alloc: Global, bytes: &[u8]) -> Result<Vec<PortLine>, JobError>
    ensures { ReadsText (λ lines. lines.items) result (ports_of bytes.now) }
{
    read_lines(alloc, bytes, MOST_LINES)
}

impl Line for PortLine {
    ghost spelled = { port_line_of };

    fn read(alloc: Global, words: &[&[u8]]) -> Result<PortLine, LineError> {
        port_line(alloc, words)
    }
}

#[tactic(auto, unfolding(crate::specs::Ports::port_line_of))]
fn port_line(alloc: Global, words: &[&[u8]]) -> Result<PortLine, LineError>
    ensures { Reads result (port_line_of (map (λ word. word.now) words.now)) }
{
    let (verb, fields) = words.split_first().ok_or(LineError::NotUnderstood)?;
    if is_verb(verb, "in") {
        input(fields).ok_or(LineError::NotUnderstood)
    } else if is_verb(verb, "out") {
        output(fields).ok_or(LineError::NotUnderstood)
    } else if is_verb(verb, "wait") {
        wait(fields).ok_or(LineError::NotUnderstood)
    } else if is_verb(verb, "irq") {
        irq(fields).ok_or(LineError::NotUnderstood)
    } else if is_verb(verb, "insert") {
        insert(alloc, fields)
    } else if is_verb(verb, "eject") {
        eject(fields).ok_or(LineError::NotUnderstood)
    } else {
        Err(LineError::NotUnderstood)
    }
}

#[tactic(auto, unfolding(crate::specs::Ports::in_of))]
fn input(fields: &[&[u8]]) -> Option<PortLine>
    ensures { result ≡ in_of (map (λ word. word.now) fields.now) }
{
    let [number] = fields else { return None };
    let port = port(number)?;
    Some(PortLine::In { port })
}

#[tactic(auto, unfolding(crate::specs::Ports::out_of))]
fn output(fields: &[&[u8]]) -> Option<PortLine>
    ensures { result ≡ out_of (map (λ word. word.now) fields.now) }
{
    let [number, value] = fields else { return None };
    let port = port(number)?;
    let value = hex_byte(value)?;
    Some(PortLine::Out { port, value })
}

#[tactic(auto, unfolding(crate::specs::Ports::wait_of))]
fn wait(fields: &[&[u8]]) -> Option<PortLine>
    ensures { result ≡ wait_of (map (λ word. word.now) fields.now) }
{
    let [count] = fields else { return None };
    let steps = steps(count)?;
    Some(PortLine::Wait { steps })
}

#[tactic(auto, unfolding(crate::specs::Ports::irq_of))]
fn irq(fields: &[&[u8]]) -> Option<PortLine>
    ensures { result ≡ irq_of (map (λ word. word.now) fields.now) }
{
    if fields.is_empty() {
        Some(PortLine::Irq)
    } else {
        None
    }
}

#[tactic(auto, unfolding(crate::specs::Ports::port_insert_of))]
fn insert(alloc: Global, fields: &[&[u8]]) -> Result<PortLine, LineError>
    ensures { Reads result (port_insert_of (map (λ word. word.now) fields.now)) }
{
    let [bay, name] = fields else {
        return Err(LineError::NotUnderstood);
    };
    let bay = byte(bay).ok_or(LineError::NotUnderstood)?;
    let name = named(alloc, name)?;
    Ok(PortLine::Insert { bay, name })
}

#[tactic(auto, unfolding(crate::specs::Ports::port_eject_of))]
fn eject(fields: &[&[u8]]) -> Option<PortLine>
    ensures { result ≡ port_eject_of (map (λ word. word.now) fields.now) }
{
    let [bay] = fields else { return None };
    let bay = byte(bay)?;
    Some(PortLine::Eject { bay })
}
