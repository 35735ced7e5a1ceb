// Names of files.
ghost use Rattle.std.specs.Prelude.{◌≡◌};
ghost use Rattle.std.specs.List.{list_all};
ghost use Rattle.std.specs.Option.{option_copied};
ghost use Rattle.floppy_jobs.specs.LinesRead.{Reads};
ghost use Rattle.floppy_jobs.specs.Names.{is_name_byte as name_byte, is_name_text, name_of};

use crate::lines::LineError;
use flop_base::Name;
use std::alloc::Global;

/// Whether a byte may stand in a name: a letter, a digit, `.`, `_` or `-`.
fn is_name_byte(byte: u8) -> bool
    ensures { result ≡ name_byte byte }
{
    byte.is_ascii_alphanumeric() || byte == b'.' || byte == b'_' || byte == b'-'
}

fn are_name_bytes(bytes: &[u8]) -> bool
    ensures { result ≡ list_all name_byte bytes.now }
{
    bytes.iter().all(|byte| is_name_byte(*byte))
}

/// Whether the bytes are a name: 1 to 64 letters, digits, `.`, `_` and `-`, where the first isn't `.` or `-`.
#[tactic(auto, unfolding(crate::specs::Names::is_name_text))]
pub fn is_name(bytes: &[u8]) -> bool
    ensures { result ≡ is_name_text bytes.now }
{
    match bytes.first() {
        None | Some(b'.') | Some(b'-') => false,
        Some(_) => bytes.len() <= 64 && are_name_bytes(bytes),
    }
}

/// A name as a text. The answer is nothing if the bytes are no name.
pub fn name_text(bytes: &[u8]) -> Option<&str>
    ensures { option_copied result ≡ name_of bytes.now }
{
    if is_name(bytes) {
        str::from_utf8(bytes).ok()
    } else {
        None
    }
}

/// A name that is kept as a copy.
#[tactic(auto, unfolding(crate::specs::Names::name_of))]
pub fn named(alloc: Global, bytes: &[u8]) -> Result<Name, LineError>
    ensures { Reads result (name_of bytes.now) }
{
    let text = name_text(bytes).ok_or(LineError::NotUnderstood)?;
    Ok(Name::copy(alloc, text)?)
}
