// Named files, wherever they lie.
ghost use Rattle.std.specs.Prelude.{◌≡◌, ◌≢◌, ◌≤◌, ℕ, Option, Err, length, IfSome, IfOk, OnOk, OnErr, IsErrOf};
ghost use Rattle.flop_base.specs.Counts.{RoseOnce};
ghost use Rattle.flop_base.specs.Shelf.{Files, Loads, stored};

use crate::{LoadError, StoreError};
use std::alloc::Global;

/// A set of named files: a folder, or a list in memory.
///
/// A shelf may report its files, and then the clauses on content hold of them. Each fault of the outside is counted.
pub trait Shelf {
    /// The files, if the shelf reports them.
    ghost told: { Self → Option Files };

    /// How many faults there were. It stays at its last value.
    ghost fault_count: { Self → ℕ };

    /// The bytes of a file of at most `most` bytes. A longer one is `TooLong`, and none of its bytes are given.
    fn load(&mut self, alloc: Global, name: &str, most: usize) -> Result<Vec<u8>, LoadError>
        ensures gives { IfSome (told self.old) (λ files. Loads files name.now most result) }
        ensures fits { IfOk result (λ bytes. length bytes.items ≤ most) }
        ensures stays { told self.new ≡ told self.old }
        ensures failed { IsErrOf result LoadError.Failed
            → RoseOnce (fault_count self.old) (fault_count self.new) }
        ensures else_stays { result ≢ Err LoadError.Failed → fault_count self.new ≡ fault_count self.old }
        ensures never_falls { fault_count self.old ≤ fault_count self.new };

    /// Puts these bytes under the name, in place of a file that is there. After an error the old file is as it was.
    fn store(&mut self, name: &str, bytes: &[u8]) -> Result<(), StoreError>
        ensures ok { OnOk result (told self.new ≡ stored (told self.old) name.now bytes.now) }
        ensures err { OnErr result (told self.new ≡ told self.old) }
        ensures failed { IsErrOf result StoreError.Failed
            → RoseOnce (fault_count self.old) (fault_count self.new) }
        ensures else_stays { result ≢ Err StoreError.Failed → fault_count self.new ≡ fault_count self.old }
        ensures never_falls { fault_count self.old ≤ fault_count self.new };

    /// The count of faults, which stays at its last value. Each call that ends with `Failed` raises it by one.
    fn faults(&self) -> u64
        ensures { result ≡ fault_count self.now };
}
