// The fields of a plan's lines. All numbers are decimal.
ghost use Rattle.std.specs.Prelude.{◌≡◌};
ghost use Rattle.fault_plan.specs.Fields.{drive_of, cylinder_of, head_of, word_of, count_of, span_of};

use crate::line::PlannedDrive;
use floppy_jobs::numbers::number;

/// A drive: 0 or 1 for the bays, 2 or 3 for the spares.
#[tactic(auto, unfolding(crate::specs::Fields::drive_of))]
pub fn drive(word: &[u8]) -> Option<PlannedDrive>
    ensures { result ≡ drive_of word.now }
{
    match number(word, 10, 1, 1, 0, 3)? {
        0 => Some(PlannedDrive::Bay0),
        1 => Some(PlannedDrive::Bay1),
        2 => Some(PlannedDrive::Spare0),
        _ => Some(PlannedDrive::Spare1),
    }
}

/// A cylinder where heads can be: one or two digits, at most 82.
#[tactic(auto, unfolding(crate::specs::Fields::cylinder_of))]
pub fn cylinder(word: &[u8]) -> Option<u8>
    ensures { result ≡ cylinder_of word.now }
{
    Some(number(word, 10, 1, 2, 0, 82)? as u8)
}

/// A head: 0 or 1.
#[tactic(auto, unfolding(crate::specs::Fields::head_of))]
pub fn head(word: &[u8]) -> Option<u8>
    ensures { result ≡ head_of word.now }
{
    Some(number(word, 10, 1, 1, 0, 1)? as u8)
}

/// A word's place in its track: one to five digits, at most 16,383.
#[tactic(auto, unfolding(crate::specs::Fields::word_of))]
pub fn word_place(word: &[u8]) -> Option<u16>
    ensures { result ≡ word_of word.now }
{
    Some(number(word, 10, 1, 5, 0, 16_383)? as u16)
}

/// How often: one to five digits, 1 to 10,000.
#[tactic(auto, unfolding(crate::specs::Fields::count_of))]
pub fn count(word: &[u8]) -> Option<u16>
    ensures { result ≡ count_of word.now }
{
    Some(number(word, 10, 1, 5, 1, 10_000)? as u16)
}

/// The device steps to a spurious interrupt: one to five digits, 1 to 65,535.
#[tactic(auto, unfolding(crate::specs::Fields::span_of))]
pub fn span(word: &[u8]) -> Option<u16>
    ensures { result ≡ span_of word.now }
{
    Some(number(word, 10, 1, 5, 1, 65_535)? as u16)
}
