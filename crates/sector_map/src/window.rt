// A data field written over, whole or in part.
ghost use Rattle.std.specs.Prelude.{◌≡◌, ◌+◌, ◌≤◌, length};
ghost use Rattle.sector_map.specs.Common.{IsTrackSized, window_word, cut_of};

use crate::window_word;

/// Replaces the first `cut` words of the window of the address field at cell `place`. A write that stops there does the
/// same.
pub fn place_window(words: &mut [u16], place: usize, window: &[u16], cut: usize)
    requires sized { IsTrackSized words.old }
    requires most { cut ≤ length window.now }
    requires inside { window_word place + cut ≤ length words.old }
    ensures { words.new ≡ cut_of words.old place cut window.now }
{
    let start = window_word(place);
    words[start..start + cut].copy_from_slice(&window[..cut]);
}
