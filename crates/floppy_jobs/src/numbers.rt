// Numbers in texts. They are digits without a sign.
ghost use Rattle.std.specs.Prelude.{◌≡◌, ◌≤◌, IfSome};
ghost use Rattle.floppy_jobs.specs.Numbers.{number_of, byte_of, address_of, length_of, hex_byte_of, tries_of};
ghost use Rattle.floppy_jobs.specs.Numbers.{port_of, steps_of, register_of};

/// The number that a word spells. It has `fewest` to `most` digits of the base, and its value is from `least` to
/// `greatest`. Hexadecimal digits may have either case.
pub fn number(
    word: &[u8],
    base: u32,
    fewest: usize,
    most: usize,
    least: u32,
    greatest: u32,
) -> Option<u32>
    requires least_base { 2 ≤ base }
    requires greatest_base { base ≤ 16 }
    ensures value { result ≡ number_of base fewest most least greatest word.now }
    ensures range { IfSome result (λ n. n ≤ greatest) }
{
    if word.len() < fewest || word.len() > most {
        return None;
    }
    let mut value: u64 = 0;
    for byte in word {
        let digit = char::from(*byte).to_digit(base)?;
        value = value * base as u64 + digit as u64;
        if value > greatest as u64 {
            return None;
        }
    }
    if value < least as u64 {
        None
    } else {
        Some(value as u32)
    }
}

/// A bay, cylinder, head, record, size code or count of cylinders: one to three decimal digits, at most 255.
#[tactic(auto, unfolding(crate::specs::Numbers::byte_of))]
pub fn byte(word: &[u8]) -> Option<u8>
    ensures { result ≡ byte_of word.now }
{
    Some(number(word, 10, 1, 3, 0, 255)? as u8)
}

/// An address in memory: one to five hexadecimal digits, so at most FFFFF.
#[tactic(auto, unfolding(crate::specs::Numbers::address_of))]
pub fn address(word: &[u8]) -> Option<u32>
    ensures { result ≡ address_of word.now }
{
    number(word, 16, 1, 5, 0, 0xFFFFF)
}

/// A length in memory: one to five decimal digits, 1 to 65,536.
#[tactic(auto, unfolding(crate::specs::Numbers::length_of))]
pub fn length(word: &[u8]) -> Option<u32>
    ensures { result ≡ length_of word.now }
{
    number(word, 10, 1, 5, 1, 65_536)
}

/// A byte of memory or of a port: two hexadecimal digits.
#[tactic(auto, unfolding(crate::specs::Numbers::hex_byte_of))]
pub fn hex_byte(word: &[u8]) -> Option<u8>
    ensures { result ≡ hex_byte_of word.now }
{
    Some(number(word, 16, 2, 2, 0, 0xFF)? as u8)
}

/// A number of attempts: one or two decimal digits, 1 to 10.
#[tactic(auto, unfolding(crate::specs::Numbers::tries_of))]
pub fn tries(word: &[u8]) -> Option<u8>
    ensures { result ≡ tries_of word.now }
{
    Some(number(word, 10, 1, 2, 1, 10)? as u8)
}

/// A port: one to four hexadecimal digits.
#[tactic(auto, unfolding(crate::specs::Numbers::port_of))]
pub fn port(word: &[u8]) -> Option<u16>
    ensures { result ≡ port_of word.now }
{
    Some(number(word, 16, 1, 4, 0, 0xFFFF)? as u16)
}

/// A number of device steps: one to five decimal digits, at most 65,535.
#[tactic(auto, unfolding(crate::specs::Numbers::steps_of))]
pub fn steps(word: &[u8]) -> Option<u16>
    ensures { result ≡ steps_of word.now }
{
    Some(number(word, 10, 1, 5, 0, 65_535)? as u16)
}

/// A register of a call: four hexadecimal digits.
#[tactic(auto, unfolding(crate::specs::Numbers::register_of))]
pub fn register(word: &[u8]) -> Option<u16>
    ensures { result ≡ register_of word.now }
{
    Some(number(word, 16, 4, 4, 0, 0xFFFF)? as u16)
}
