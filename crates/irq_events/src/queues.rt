// What is left of a list, as bytes.
ghost use Rattle.std.specs.Prelude.{◌≡◌};
ghost use Rattle.saved_state.specs.Saved.{Adds, spelled_bytes, spelled_list, spelled_word};

use saved_state::{Saved, SavedBytes};
use std::collections::VecDeque;

/// Writes bytes, their number first.
#[tactic(auto, unfolding(saved_state::specs::Saved::spelled_bytes))]
pub fn save_bytes_left(bytes: &VecDeque<u8>, to: &mut SavedBytes)
    ensures { Adds (spelled_bytes bytes.now.items) to.old to.new }
{
    let (first, second) = bytes.as_slices();
    bytes.len().save(to);
    to.part(first);
    to.part(second);
}

/// Writes a list of words.
#[tactic(auto, unfolding(saved_state::specs::Saved::spelled_list))]
pub fn save_words_left(words: &VecDeque<u16>, to: &mut SavedBytes)
    ensures { Adds (spelled_list spelled_word words.now.items) to.old to.new }
{
    for word in words {
        to.byte(1);
        word.save(to);
    }
    to.byte(0);
}
