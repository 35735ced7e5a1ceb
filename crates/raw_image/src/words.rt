// Words as bytes, two each, high byte first.
ghost use Rattle.std.specs.Prelude.{◌≡◌, ◌++◌, ◌+◌, ◌*◌, ◌/◌, length, drop, option_to_list, OnOk, IfOk};
ghost use Rattle.raw_image.specs.Words.{words_of, bytes_of};

use flop_base::NoMemory;

/// Adds the words that bytes spell. If the number of bytes is odd, the last one is left over and is answered.
fn push_pairs(words: &mut Vec<u16>, bytes: &[u8]) -> Result<Option<u8>, NoMemory>
    ensures words { OnOk result (words.new.items ≡ words.old.items ++ words_of bytes.now) }
    ensures left { IfOk result (λ left. option_to_list left
        ≡ drop (length bytes.now / 2 * 2) bytes.now) }
{
    let (pairs, rest) = bytes.as_chunks::<2>();
    for pair in pairs {
        words.push(u16::from_be_bytes(*pair))?;
    }
    Ok(rest.first().copied())
}

/// Adds the words that `high`, a first half of a word, and then the piece spell. Answers the first half of a word that
/// is left over, if there is one. The next piece goes on with it.
pub(crate) fn push_piece(
    words: &mut Vec<u16>,
    high: Option<u8>,
    piece: &[u8],
) -> Result<Option<u8>, NoMemory>
    ensures { IfOk result (λ left. bytes_of words.new.items ++ option_to_list left
        ≡ (bytes_of words.old.items ++ option_to_list high) ++ piece.now) }
{
    match high {
        None => push_pairs(words, piece),
        Some(first) => match piece.split_first() {
            None => Ok(high),
            Some((second, rest)) => {
                words.push(u16::from_be_bytes([first, *second]))?;
                push_pairs(words, rest)
            }
        },
    }
}

/// Adds the bytes of words.
pub(crate) fn push_bytes(bytes: &mut Vec<u8>, words: &[u16]) -> Result<(), NoMemory>
    ensures { OnOk result (bytes.new.items ≡ bytes.old.items ++ bytes_of words.now) }
{
    for word in words {
        bytes.extend_from_slice(&word.to_be_bytes())?;
    }
    Ok(())
}
