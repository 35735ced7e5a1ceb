// Where the program prints.
ghost use Rattle.std.specs.Prelude.{◌≡◌, ◌≢◌, ◌≤◌, ◌∷◌, [], ℕ, List, Option, Err, OnOk, OnErr, IsErrOf};
ghost use Rattle.flop_base.specs.Counts.{RoseOnce};
ghost use Rattle.flop_base.specs.Sink.{grown, GrowsByPart};

use crate::PutError;

/// What takes printed lines in order: standard output, or a list in memory.
///
/// A sink may report its lines, each of which is what one call of `put` printed. The clauses on content then hold of
/// them. Each fault of the outside is counted.
pub trait Sink {
    /// All lines printed so far, one for each call, if the sink reports them.
    ghost told: { Self → Option (List (List ℕ)) };

    /// How many faults there were. It stays at its last value.
    ghost fault_count: { Self → ℕ };

    /// Prints these bytes as one line after all earlier ones. After a refusal, a first part of them may have been
    /// printed.
    fn put(&mut self, bytes: &[u8]) -> Result<(), PutError>
        ensures ok { OnOk result (told self.new ≡ grown (told self.old) (bytes.now ∷ [])) }
        ensures err { OnErr result (GrowsByPart (told self.old) (bytes.now ∷ []) (told self.new)) }
        ensures failed { IsErrOf result PutError.Failed
            → RoseOnce (fault_count self.old) (fault_count self.new) }
        ensures else_stays { result ≢ Err PutError.Failed → fault_count self.new ≡ fault_count self.old }
        ensures never_falls { fault_count self.old ≤ fault_count self.new };

    /// The count of faults, which stays at its last value. Each call that ends with `Failed` raises it by one.
    fn faults(&self) -> u64
        ensures { result ≡ fault_count self.now };
}
