// Lists.
ghost use Rattle.std.specs.Prelude.{◌≡◌, ◌≤◌, IfOk, List, ℕ, length, ⊤};
ghost use Rattle.saved_state.specs.Saved.{Adds, Gives, spelled_bytes, spelled_list, spelled_each, EachFits};

use crate::saved::Saved;
use crate::saved_bytes::SavedBytes;
use crate::source::Source;
use flop_base::NoMemory;
use std::alloc::Global;

/// Writes bytes, their number first.
#[tactic(auto, unfolding(crate::specs::Saved::spelled_bytes))]
pub fn save_bytes(bytes: &[u8], to: &mut SavedBytes)
    ensures { Adds (spelled_bytes bytes.now) to.old to.new }
{
    bytes.len().save(to);
    to.part(bytes);
}

/// Reads bytes whose number comes first.
#[tactic(auto, unfolding(crate::specs::Saved::spelled_bytes))]
pub fn load_bytes<'a>(from: &mut Source<'a>) -> &'a [u8]
    ensures gives { Gives (λ _. ⊤) spelled_bytes from.old result.now from.new }
    ensures shorter { length from.new ≤ length from.old }
{
    let count = usize::load(from);
    from.part(count)
}

/// Writes a list of values.
#[tactic(auto, unfolding(crate::specs::Saved::spelled_list))]
pub fn save_list<T: Saved>(values: &[T], to: &mut SavedBytes)
    ensures fits { EachFits T.Fits values.now }
    ensures adds { Adds (spelled_list T.spelled values.now) to.old to.new }
{
    for value in values {
        to.byte(1);
        value.save(to);
    }
    to.byte(0);
}

/// Reads a list of values.
#[tactic(auto, unfolding(crate::specs::Saved::spelled_list))]
pub fn load_list<T: Saved + Drop>(alloc: Global, from: &mut Source<'_>) -> Result<Vec<T>, NoMemory>
    ensures { IfOk result (λ list. Gives (EachFits T.Fits) (spelled_list T.spelled) from.old list.items from.new) }
{
    let mut list = Vec::new(alloc);
    while from.byte() == 1 {
        list.push(T::load(from))?;
    }
    Ok(list)
}

/// Writes four values, one after the other.
#[tactic(auto, unfolding(crate::specs::Saved::spelled_each))]
pub fn save_four<T: Saved>(values: &[T; 4], to: &mut SavedBytes)
    ensures fits { EachFits T.Fits values.now }
    ensures adds { Adds (spelled_each T.spelled values.now) to.old to.new }
{
    for value in values {
        value.save(to);
    }
}

/// Reads four values, one after the other.
#[tactic(auto, unfolding(crate::specs::Saved::spelled_each))]
pub fn load_four<T: Saved>(from: &mut Source<'_>) -> [T; 4]
    ensures gives { Gives (λ values. (length values ≡ 4) × EachFits T.Fits values) (spelled_each T.spelled) from.old result from.new }
    ensures shorter { length from.new ≤ length from.old }
{
    let first = T::load(from);
    let second = T::load(from);
    let third = T::load(from);
    let fourth = T::load(from);
    [first, second, third, fourth]
}
