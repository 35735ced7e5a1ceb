// What a formatted track is recorded from.

/// What one word of a formatted track records (IBM System 34).
#[derive(Clone, Copy, Debug, PartialEq, Eq)]
pub enum Symbol {
    /// A byte.
    Byte(u8),
    /// A byte of the key of an address field.
    Key(u8),
    /// A byte that lacks a clock cell, by its cells: 4489 for A1, 5224 for C2.
    Mark(u16),
}
