// The text of calls of INT 13h.
ghost use Rattle.std.specs.Prelude.{◌≡◌, map};
ghost use Rattle.floppy_jobs.specs.LinesRead.{Reads, ReadsText};
ghost use Rattle.floppy_jobs.specs.Calls.{call_of, is_shared_verb as shared_verb, call_line_of};
ghost use Rattle.floppy_jobs.specs.Texts.{calls_of};

use crate::Request;
use crate::job::request;
use crate::lines::{JobError, Line, LineError, MOST_LINES, read_lines};
use crate::numbers::register;
use crate::verb::is_verb;
use std::alloc::Global;

/// One line of a calls text.
#[derive(Drop)]
pub enum CallLine {
    /// A request as in a job: insert, eject, fill or dump.
    Job(Request),
    /// A call of INT 13h with these registers.
    Call {
        ax: u16,
        bx: u16,
        cx: u16,
        dx: u16,
        es: u16,
    },
}

/// Reads a text of calls. A text with a bad line is refused as a whole.
#[tactic(auto, unfolding(crate::specs::Texts::calls_of))]
pub fn parse_calls(alloc: Global, bytes: &[u8]) -> Result<Vec<CallLine>, JobError>
    ensures { ReadsText (λ lines. lines.items) result (calls_of bytes.now) }
{
    read_lines(alloc, bytes, MOST_LINES)
}

impl Line for CallLine {
    ghost spelled = { call_line_of };

    fn read(alloc: Global, words: &[&[u8]]) -> Result<CallLine, LineError> {
        call_line(alloc, words)
    }
}

/// Whether the verb is one of the four that a calls text shares with a job.
fn is_shared_verb(verb: &[u8]) -> bool
    ensures { result ≡ shared_verb verb.now }
{
    is_verb(verb, "insert")
        || is_verb(verb, "eject")
        || is_verb(verb, "fill")
        || is_verb(verb, "dump")
}

#[tactic(auto, unfolding(crate::specs::Calls::call_line_of))]
fn call_line(alloc: Global, words: &[&[u8]]) -> Result<CallLine, LineError>
    ensures { Reads result (call_line_of (map (λ word. word.now) words.now)) }
{
    let (verb, fields) = words.split_first().ok_or(LineError::NotUnderstood)?;
    if is_verb(verb, "call") {
        call(fields).ok_or(LineError::NotUnderstood)
    } else if is_shared_verb(verb) {
        Ok(CallLine::Job(request(alloc, words)?))
    } else {
        Err(LineError::NotUnderstood)
    }
}

#[tactic(auto, unfolding(crate::specs::Calls::call_of))]
fn call(fields: &[&[u8]]) -> Option<CallLine>
    ensures { result ≡ call_of (map (λ word. word.now) fields.now) }
{
    let [ax, bx, cx, dx, es] = fields else {
        return None;
    };
    let ax = register(ax)?;
    let bx = register(bx)?;
    let cx = register(cx)?;
    let dx = register(dx)?;
    let es = register(es)?;
    Some(CallLine::Call { ax, bx, cx, dx, es })
}
