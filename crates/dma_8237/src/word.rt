// 16-bit registers behind 8-bit ports: a flip-flop says which byte an access reaches.
ghost use Rattle.std.specs.Prelude.{◌≡◌, not};
ghost use Rattle.dma_8237.specs.Channel.{byte_of, with_byte};

/// The low byte, or the high one.
pub fn byte_of(word: u16, high: bool) -> u8
    ensures { result ≡ byte_of word high }
{
    let [low_byte, high_byte] = word.to_le_bytes();
    if high { high_byte } else { low_byte }
}

/// The word with that byte replaced.
pub fn with_byte(word: u16, high: bool, byte: u8) -> u16
    ensures { result ≡ with_byte word high byte }
{
    let [low_byte, high_byte] = word.to_le_bytes();
    let bytes = if high {
        [low_byte, byte]
    } else {
        [byte, high_byte]
    };
    u16::from_le_bytes(bytes)
}

/// Toggles the flip-flop, and tells whether it named the high byte.
pub fn toggle(high_byte_next: &mut bool) -> bool
    ensures was { result ≡ high_byte_next.old }
    ensures toggled { high_byte_next.new ≡ not high_byte_next.old }
{
    let high = *high_byte_next;
    *high_byte_next = !high;
    high
}
