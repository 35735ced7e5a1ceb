// What a separator keeps, and what it answers.
ghost use Rattle.std.specs.Prelude.{◌<◌, ◌≤◌};
ghost use Rattle.track_separator.specs.Stages.{size_in, since_in};

use flop_base::Chrn;

/// What has become complete by the end of a word.
#[derive(Clone, Copy, Debug, PartialEq, Eq)]
pub enum Seen {
    /// Nothing that is reported.
    Nothing,
    /// An address mark.
    Mark,
    /// An intact address field.
    Address { key: Chrn },
    /// The data mark of the field that was asked for.
    Mode { deleted: bool },
    /// The next byte of the content of that field.
    Byte { value: u8 },
    /// The CRC of that field. `good` says that the CRC is right and that all cells of the field were recorded.
    End { good: bool },
    /// There is no data field, or not all of it.
    NoData,
}

/// What is awaited.
#[derive(Clone, Copy)]
pub(crate) enum Stage {
    /// A run of marks.
    Hunting,
    /// The bytes of an address field, after its run and `bytes` of its bytes.
    Reading {
        bytes: u8,
    },
    /// What the caller does about the address field that ended in the last word.
    Addressed,
    /// The word after the index. A data field was asked for, and the revolution is over.
    TurnEnded,
    /// A data mark, when `since` cells have passed since the address field. `marked` says whether the run before the
    /// mark ended in the last word.
    Waiting {
        size: u16,
        since: u16,
        marked: bool,
    },
    /// The bytes of a data field behind its mark, after `taken` of them. `check` is the CRC of the field so far, and
    /// `touched` says that cells of the field weren't recorded.
    Content {
        size: u16,
        taken: u16,
        check: u16,
        touched: bool,
    },
}

/// Finds the fields of a revolution, word by word.
#[derive(Clone, Copy)]
pub struct Separator {
    /// The last 128 cells, the last in bit 0. Cells before the first word of the revolution are ones, and so are all
    /// cells up to a word 0000, since a run begins with a 0.
    pub(crate) cells: u128,
    /// How many cells stand behind the run or the byte that ended last.
    pub(crate) back: u16,
    pub(crate) stage: Stage,
    ghost few: { back < 16 },
    ghost small: { size_in stage ≤ 8192 },
    ghost early: { since_in stage < 1023 },
}
