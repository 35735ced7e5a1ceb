// The bytes of a saved state as they are written.
ghost use Rattle.std.specs.Prelude.{◌≡◌, ℕ, List, [], ◌∷◌, ◌++◌, IfOk};
ghost use Rattle.saved_state.specs.Saved.{Adds, Awaits};

use flop_base::NoMemory;
use std::alloc::Global;
use std::marker::Model;

/// The bytes of a saved state so far, or nothing if memory ran out.
#[derive(Drop)]
pub struct SavedBytes {
    bytes: Vec<u8>,
    is_lost: bool,
}

impl Model for SavedBytes {
    ghost use Rattle.std.specs.Prelude.{Option, Some, None, if◌then◌else◌, List, ℕ};

    ghost Value = { Option (List ℕ) };

    ghost view = { λ saved. if saved.is_lost then None else Some saved.bytes.items };
}

impl SavedBytes {
    /// No bytes yet.
    pub fn new(alloc: Global) -> SavedBytes
        ensures { (all : List ℕ) → Awaits result all all }
    {
        SavedBytes {
            bytes: Vec::new(alloc),
            is_lost: false,
        }
    }

    /// Adds a byte.
    pub fn byte(&mut self, byte: u8)
        ensures { Adds (λ rest. byte ∷ rest) self.old self.new }
    {
        if self.bytes.push(byte).is_err() {
            self.is_lost = true;
        }
    }

    /// Adds bytes.
    pub fn part(&mut self, bytes: &[u8])
        ensures { Adds (λ rest. bytes.now ++ rest) self.old self.new }
    {
        if self.bytes.extend_from_slice(bytes).is_err() {
            self.is_lost = true;
        }
    }

    /// Memory ran out elsewhere: there will be no bytes.
    pub fn lose(&mut self)
        ensures { (bytes : List ℕ → List ℕ) → Adds bytes self.old self.new }
    {
        self.is_lost = true;
    }

    /// All bytes.
    pub fn finish(self) -> Result<Vec<u8>, NoMemory>
        ensures { (all : List ℕ) → Awaits self all [] → IfOk result (λ bytes. bytes.items ≡ all) }
    {
        if self.is_lost {
            return Err(NoMemory);
        }
        Ok(self.bytes)
    }
}
