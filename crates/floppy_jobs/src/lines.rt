// Lines and their words.
ghost use Rattle.std.specs.Prelude.{◌≡◌, ◌==◌, ◌<◌, List, ℕ, Option, [], ◌∷◌, length, map, MatchOption, IfOk, position};
ghost use Rattle.std.specs.Str.Lines.{strip_carriage_return};
ghost use Rattle.floppy_jobs.specs.declared.lines.LineError.TheVariants.{NoMemory};
ghost use Rattle.floppy_jobs.specs.Lines.{words_of, lines_of, line_of, text_of};
ghost use Rattle.floppy_jobs.specs.LinesRead.{Reads, ReadsText};

use flop_base::NoMemory;
use std::alloc::{AllocError, Global};
use thiserror::Error;

/// The longest text that is read, in bytes.
pub const MOST_BYTES: usize = 4_194_304;

/// The longest line, in bytes, without its line feed and the carriage return before it.
pub const MOST_LINE_BYTES: usize = 200;

/// The most lines of a job, a ports text or a calls text.
pub const MOST_LINES: usize = 100_000;

/// Why a text wasn't read.
#[derive(Clone, Copy, Debug, PartialEq, Eq, Error)]
pub enum JobError {
    /// The first line that isn't understood, counted from 1. It is 0 if the text is too long.
    #[error("line {line} not understood")]
    BadLine { line: usize },
    /// Memory ran out. This says nothing of the text.
    #[error("out of memory")]
    NoMemory,
}

impl From<NoMemory> for JobError {
    fn from(_: NoMemory) -> Self {
        JobError::NoMemory
    }
}

/// Why a line wasn't read.
#[derive(Clone, Copy, Debug, PartialEq, Eq, Error)]
pub enum LineError {
    /// The words of the line spell nothing that the text may have.
    #[error("line not understood")]
    NotUnderstood,
    /// Memory ran out. This says nothing of the text.
    #[error("out of memory")]
    NoMemory,
}

impl From<NoMemory> for LineError {
    ghost from_gives = { λ _ e. e ≡ NoMemory };

    fn from(_: NoMemory) -> Self {
        LineError::NoMemory
    }
}

/// What a line of some text says, by its words.
pub trait Line: Sized + Drop {
    /// What a line's words spell, if anything.
    ghost spelled: { List (List ℕ) → Option Self };

    /// Reads a line that has words. `words` has at least one word, and none of them is empty.
    fn read(alloc: Global, words: &[&[u8]]) -> Result<Self, LineError>
        ensures { Reads result (spelled (map (λ word. word.now) words.now)) };
}

fn line_end(text: &[u8]) -> Option<usize>
    ensures { result ≡ position (λ byte. byte == 10) text.now }
{
    text.iter().position(|byte| *byte == b'\n')
}

/// The first line of a text without its line feed, and the text after it. The answer is nothing if the text has no
/// line.
fn first_line(text: &[u8]) -> Option<(&[u8], &[u8])>
    ensures split { MatchOption result (text.now ≡ [])
        (λ found. lines_of text.now ≡ found.0.now ∷ lines_of found.1.now) }
    ensures shorter { MatchOption result (text.now ≡ [])
        (λ found. length found.1.now < length text.now) }
{
    if text.is_empty() {
        return None;
    }
    match line_end(text) {
        None => Some((text, b"")),
        Some(end) => {
            let (line, rest) = text.split_at(end);
            let (_, rest) = rest.split_at(1);
            Some((line, rest))
        }
    }
}

/// A line without the one carriage return at its end, if there is one.
fn without_return(line: &[u8]) -> &[u8]
    ensures { result.now ≡ strip_carriage_return line.now }
{
    match line.split_last() {
        Some((b'\r', front)) => front,
        _ => line,
    }
}

/// The words of a line, which spaces separate.
fn words(alloc: Global, line: &[u8]) -> Result<Vec<&[u8]>, AllocError>
    ensures { IfOk result (λ words. map (λ word. word.now) words.items ≡ words_of line.now) }
{
    line.split(|byte| *byte == b' ')
        .filter(|word| !word.is_empty())
        .collect(alloc)
}

/// What a line says. It is nothing if the line is blank or a comment.
#[tactic(auto, unfolding(crate::specs::Lines::line_of))]
fn read_line<L: Line>(alloc: Global, line: &[u8]) -> Result<Option<L>, LineError>
    ensures { Reads result (line_of L.spelled (strip_carriage_return line.now)) }
{
    let line = without_return(line);
    if line.len() > MOST_LINE_BYTES {
        return Err(LineError::NotUnderstood);
    }
    if line.first() == Some(&b'#') {
        return Ok(None);
    }
    let words = words(alloc, line).map_err(|_| LineError::NoMemory)?;
    if words.is_empty() {
        return Ok(None);
    }
    Ok(Some(L::read(alloc, words.as_slice())?))
}

/// Reads a text line by line, up to its first bad line. A line is bad if it isn't understood, has more than 200 bytes,
/// or is past the first `most_lines` lines. A text of more than `MOST_BYTES` is refused as line 0.
#[tactic(auto, unfolding(crate::specs::Lines::text_of))]
pub fn read_lines<L: Line>(
    alloc: Global,
    text: &[u8],
    most_lines: usize,
) -> Result<Vec<L>, JobError>
    ensures { ReadsText (λ items. items.items) result (text_of L.spelled most_lines text.now) }
{
    if text.len() > MOST_BYTES {
        return Err(JobError::BadLine { line: 0 });
    }
    let mut items = Vec::new(alloc);
    let mut rest = text;
    let mut line = 0;
    while let Some((first, others)) = first_line(rest) {
        line += 1;
        if line > most_lines {
            return Err(JobError::BadLine { line });
        }
        match read_line(alloc, first) {
            Ok(None) => {}
            Ok(Some(item)) => items.push(item).map_err(|_| JobError::NoMemory)?,
            Err(LineError::NotUnderstood) => return Err(JobError::BadLine { line }),
            Err(LineError::NoMemory) => return Err(JobError::NoMemory),
        }
        rest = others;
    }
    Ok(items)
}
