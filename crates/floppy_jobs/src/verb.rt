// The first word of a line.
ghost use Rattle.std.specs.Prelude.{◌≡◌};
ghost use Rattle.std.specs.Str.{bytes_eq};

/// Whether a word is this verb.
pub fn is_verb(word: &[u8], verb: &str) -> bool
    ensures { result ≡ bytes_eq word.now verb.now }
{
    word == verb.as_bytes()
}
