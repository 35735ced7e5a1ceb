// The arguments of a run in one text.
ghost use Rattle.std.specs.Prelude.{◌≡◌, ◌==◌, [], ◌∷◌, ◌++◌, map, string_bytes, IfOk, OnOk, IsErrOf, All};
ghost use Rattle.std.specs.Str.{IsUtf8};
ghost use Rattle.memory_files.specs.Words.{words_in};
ghost use Rattle.memory_files.specs.declared.words.WordsError.TheVariants.{NotText, NoMemory};

use std::alloc::{AllocError, Global};
use thiserror::Error;

/// Why the words of a text weren't given.
#[derive(Clone, Copy, Debug, PartialEq, Eq, Error)]
pub enum WordsError {
    /// Some word isn't UTF-8.
    #[error("word is not UTF-8")]
    NotText,
    /// Memory couldn't be allocated. This says nothing of the text.
    #[error("out of memory")]
    NoMemory,
}

impl From<AllocError> for WordsError {
    ghost from_gives = { λ _ error. error ≡ NoMemory };

    fn from(_: AllocError) -> Self {
        WordsError::NoMemory
    }
}

/// What stands between the line feeds of a text.
fn parts(alloc: Global, text: &[u8]) -> Result<Vec<&[u8]>, AllocError>
    ensures { IfOk result (λ parts. map (λ part. part.now) parts.items ≡ words_in text.now) }
{
    text.split(|byte| *byte == b'\n').collect(alloc)
}

/// Appends what a part spells to the words.
fn push_word(alloc: Global, words: &mut Vec<String>, part: &[u8]) -> Result<(), WordsError>
    ensures ok { OnOk result (map string_bytes words.new.items ≡ map string_bytes words.old.items ++ (part.now ∷ [])) }
    ensures not_text { IsErrOf result NotText → ¬ (IsUtf8 part.now) }
{
    let Ok(text) = str::from_utf8(part) else {
        return Err(WordsError::NotText);
    };
    let Ok(()) = words.push(String::from_str(alloc, text)?) else {
        return Err(WordsError::NoMemory);
    };
    Ok(())
}

/// The words of a text, which line feeds separate.
pub fn split_words(alloc: Global, text: &[u8]) -> Result<Vec<String>, WordsError>
    ensures ok { IfOk result (λ words. map string_bytes words.items ≡ words_in text.now) }
    ensures not_text { IsErrOf result NotText → ¬ (All IsUtf8 (words_in text.now)) }
{
    let parts = parts(alloc, text)?;
    let mut words = Vec::new(alloc);
    for part in parts.iter() {
        push_word(alloc, &mut words, part)?;
    }
    Ok(words)
}
