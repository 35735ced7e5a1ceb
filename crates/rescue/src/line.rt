// One line of a log.
ghost use Rattle.std.specs.Prelude.{◌≡◌, ◌≤◌, map, Some, IfOk};
ghost use Rattle.rescue.specs.Fields.{plain_of, code_of, line_of, words_of};
ghost use Rattle.rescue.specs.Log.{line_text};

use flop_base::standard::SIZE_CODE;
use flop_base::{Chrn, Code};
use floppy_jobs::MemoryByte;
use floppy_jobs::numbers::number;
use std::alloc::{AllocError, Global};
use std::fmt;

/// A record that wasn't read, and the drive's refusal: 02, 04, 08, 10 or 40.
#[derive(Clone, Copy, Debug, PartialEq, Eq)]
pub struct LogLine {
    pub key: Chrn,
    pub code: Code,
}

/// Shows the line `C H R CODE`, without a line feed.
impl fmt::Display for LogLine {
    ghost output = { λ line. Some (line_text line) };

    fn fmt<W: fmt::Write>(&self, f: &mut fmt::Formatter<W>) -> fmt::Result {
        let Chrn { c, h, r, .. } = self.key;
        let code = MemoryByte(self.code.number());
        write!(f, "{c} {h} {r} {code}")
    }
}

/// A decimal number without leading zeros, from `least` to `greatest`.
#[tactic(auto, unfolding(crate::specs::Fields::plain_of))]
fn plain_number(word: &[u8], least: u8, greatest: u8) -> Option<u8>
    ensures { result ≡ plain_of least greatest word.now }
{
    if word.len() > 1 && word.first() == Some(&b'0') {
        return None;
    }
    Some(number(word, 10, 1, 3, u32::from(least), u32::from(greatest))? as u8)
}

/// A refusal of the drive, by its status code.
#[tactic(auto, unfolding(crate::specs::Fields::code_of))]
fn device_code(word: &[u8]) -> Option<Code>
    ensures { result ≡ code_of word.now }
{
    match word {
        b"02" => Some(Code::NoMark),
        b"04" => Some(Code::NotFound),
        b"08" => Some(Code::Overrun),
        b"10" => Some(Code::BadCrc),
        b"40" => Some(Code::Seek),
        _ => None,
    }
}

/// The line that these words spell, for a diskette with so many sectors on a track.
#[tactic(auto, unfolding(crate::specs::Fields::line_of))]
fn spelled_line(words: &[&[u8]], sectors: u8) -> Option<LogLine>
    ensures { result ≡ line_of sectors (map (λ word. word.now) words.now) }
{
    let [c, h, r, code] = words else {
        return None;
    };
    let c = plain_number(c, 0, 79)?;
    let h = plain_number(h, 0, 1)?;
    let r = plain_number(r, 1, sectors)?;
    let code = device_code(code)?;
    let key = Chrn {
        c,
        h,
        r,
        n: SIZE_CODE,
    };
    Some(LogLine { key, code })
}

/// The words of a line: what stands between spaces.
fn words(alloc: Global, line: &[u8]) -> Result<Vec<&[u8]>, AllocError>
    ensures { IfOk result (λ words. map (λ word. word.now) words.items ≡ words_of line.now) }
{
    line.split(|byte| *byte == b' ').collect(alloc)
}

/// The line that a text without line feeds spells, if it spells one.
pub(crate) fn read_line(
    alloc: Global,
    text: &[u8],
    sectors: u8,
) -> Result<Option<LogLine>, AllocError>
    ensures { IfOk result (λ line. line ≡ line_of sectors (words_of text.now)) }
{
    let words = words(alloc, text)?;
    Ok(spelled_line(words.as_slice(), sectors))
}
