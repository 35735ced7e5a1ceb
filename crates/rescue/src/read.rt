// Reading a log.
ghost use Rattle.std.specs.Prelude.{◌≡◌, ◌==◌, ◌↔◌, [], ◌∷◌, ◌++◌, position, IsTrue, IfSome, IfOk, MatchOption};
ghost use Rattle.rescue.specs.Fields.{pieces_of, BeginsWith, BeginsWithNone};
ghost use Rattle.rescue.specs.Log.{IsBefore, IsAfterLast, ReadsLog};
ghost use Rattle.rescue.specs.declared.read.LogError.TheVariants as cause;

use crate::LogLine;
use crate::line::read_line;
use flop_base::Chrn;
use std::alloc::{AllocError, AllocFailed, Global};
use thiserror::Error;

/// Why a log wasn't read.
#[derive(Clone, Copy, Debug, PartialEq, Eq, Error)]
pub enum LogError {
    /// The first line that isn't understood, counted from 1.
    #[error("log line {line} not understood")]
    BadLine { line: usize },
    /// Memory ran out. This says nothing about the text.
    #[error("out of memory")]
    NoMemory,
}

impl From<AllocError> for LogError {
    ghost from_gives = { λ _ e. e ≡ cause.NoMemory };

    fn from(_: AllocError) -> Self {
        LogError::NoMemory
    }
}

impl From<AllocFailed<LogLine>> for LogError {
    ghost from_gives = { λ _ e. e ≡ cause.NoMemory };

    fn from(_: AllocFailed<LogLine>) -> Self {
        LogError::NoMemory
    }
}

fn line_end(text: &[u8]) -> Option<usize>
    ensures { result ≡ position (λ byte. byte == 10) text.now }
{
    text.iter().position(|byte| *byte == b'\n')
}

/// What stands before the first line feed and after it; nothing where there is no line feed.
fn split_line(text: &[u8]) -> Option<(&[u8], &[u8])>
    ensures pieces { MatchOption result (pieces_of text.now ≡ text.now ∷ [])
        (λ found. pieces_of text.now ≡ found.0.now ∷ pieces_of found.1.now) }
    ensures joined { IfSome result (λ found. text.now ≡ found.0.now ++ (10 ∷ found.1.now)) }
{
    let (line, rest) = text.split_at(line_end(text)?);
    let (_, others) = rest.split_at(1);
    Some((line, others))
}

/// The line of a log that a text begins with, and the text after its line feed.
fn next_line(
    alloc: Global,
    text: &[u8],
    sectors: u8,
) -> Result<Option<(LogLine, &[u8])>, AllocError>
    ensures { IfOk result (λ next. MatchOption next (BeginsWithNone sectors text.now)
        (λ found. BeginsWith sectors text.now found.0 found.1.now)) }
{
    let Some((line, others)) = split_line(text) else {
        return Ok(None);
    };
    match read_line(alloc, line, sectors)? {
        Some(line) => Ok(Some((line, others))),
        None => Ok(None),
    }
}

/// Whether a record is before another one.
fn is_before(first: Chrn, second: Chrn) -> bool
    ensures { IsTrue result ↔ IsBefore first second }
{
    (first.c, first.h, first.r) < (second.c, second.h, second.r)
}

/// Whether a line may follow these: its record is after that of the last line, if there is one.
fn follows(lines: &[LogLine], line: LogLine) -> bool
    ensures { IsTrue result ↔ IsAfterLast lines.now line }
{
    match lines.last() {
        Some(last) => is_before(last.key, line.key),
        None => true,
    }
}

/// Reads the log of a diskette with so many sectors on a track. A text with a bad line is refused as a whole.
pub fn read_log(alloc: Global, bytes: &[u8], sectors: u8) -> Result<Vec<LogLine>, LogError>
    ensures { ReadsLog (λ lines. lines.items) sectors bytes.now result }
{
    let mut lines = Vec::new(alloc);
    let mut rest = bytes;
    while !rest.is_empty() {
        let bad = LogError::BadLine {
            line: lines.len() + 1,
        };
        let Some((line, others)) = next_line(alloc, rest, sectors)? else {
            return Err(bad);
        };
        if !follows(lines.as_slice(), line) {
            return Err(bad);
        }
        lines.push(line)?;
        rest = others;
    }
    Ok(lines)
}
