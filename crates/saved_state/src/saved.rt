// Values that are saved and read back.
ghost use Rattle.std.specs.Prelude.{◌≡◌, ◌≤◌, ℕ, List, length, IfOk};
ghost use Rattle.saved_state.specs.Saved.{Adds, Gives};

use crate::saved_bytes::SavedBytes;
use crate::source::Source;
use flop_base::NoMemory;
use std::alloc::Global;

/// A value that owns no memory.
pub trait Saved {
    /// The bytes of a value, with the given rest after them.
    ghost spelled: { Self → List ℕ → List ℕ };

    /// What holds of each value in code.
    ghost Fits: { Self → Type 0 };

    /// Writes the bytes.
    fn save(&self, to: &mut SavedBytes)
        ensures fits { Fits self.now }
        ensures adds { Adds (spelled self.now) to.old to.new };

    /// Reads the value that comes next. Bytes that no value has are read as any value.
    fn load(from: &mut Source<'_>) -> Self
        ensures gives { Gives Fits spelled from.old result from.new }
        ensures shorter { length from.new ≤ length from.old };
}

/// A value that owns memory.
pub trait SavedWhole {
    /// The bytes of a value, with the given rest after them.
    ghost spelled: { Self → List ℕ → List ℕ };

    /// What holds of each value in code.
    ghost Fits: { Self → Type 0 };

    /// Writes the bytes. Memory that writing needs besides is taken from `alloc`.
    fn save(&self, alloc: Global, to: &mut SavedBytes)
        ensures fits { Fits self.now }
        ensures adds { Adds (spelled self.now) to.old to.new };

    /// Reads the value that comes next. Bytes that no value has are read as any value.
    fn load(alloc: Global, from: &mut Source<'_>) -> Result<Self, NoMemory>
        ensures gives { IfOk result (λ value. Gives Fits spelled from.old value from.new) };
}
