// A shelf and a sink in memory. Whoever makes them says which of their calls fail.
ghost use Rattle.std.specs.Prelude.{◌≡◌, ◌≢◌, ◌≤◌, ◌+◌, ◌++◌, ◌∷◌, ◌↔◌, [], min, length, map, Some, Err, Contains, IsTrue, IfOk, OnOk, OnErr, IsErrOf, option_copied};
ghost use Rattle.std.specs.Bool.{OnTrue, OnFalse};
ghost use Rattle.flop_base.specs.Counts.{RoseOnce, last_count};
ghost use Rattle.flop_base.specs.Shelf.{Loads, no_files, file_at, stored};
ghost use Rattle.flop_base.specs.Sink.{joined, GrowsByPart};

use crate::lines::PrintedLines;
use flop_base::{LoadError, NoMemory, PutError, Shelf, Sink, StoreError};
use std::alloc::Global;
use std::collections::BTreeMap;

/// Files in memory. The calls of `load` and `store` are numbered from 1.
#[derive(Drop)]
pub struct MemShelf {
    alloc: Global,
    files: BTreeMap<String, Vec<u8>>,
    failing: Vec<u64>,
    calls: u64,
    faults: u64,
}

impl MemShelf {
    ghost use Rattle.memory_files.specs.MemShelf.{files_of, calls_of, failing_of, faults_of};

    /// An empty shelf, whose calls with the numbers in `failing` fail.
    pub fn new(alloc: Global, failing: Vec<u64>) -> MemShelf
        ensures empty { files_of result ≡ no_files }
        ensures failing { failing_of result ≡ failing.items }
        ensures calls { calls_of result ≡ 0 }
    {
        MemShelf {
            alloc,
            files: BTreeMap::new(alloc),
            failing,
            calls: 0,
            faults: 0,
        }
    }

    /// Places a file. This doesn't count as a call of `store`.
    pub fn put_file(&mut self, name: &str, bytes: &[u8]) -> Result<(), NoMemory>
        ensures ok { OnOk result (Some (files_of self.new)
            ≡ stored (Some (files_of self.old)) name.now bytes.now) }
        ensures err { OnErr result (files_of self.new ≡ files_of self.old) }
        ensures calls { calls_of self.new ≡ calls_of self.old }
        ensures faults { faults_of self.new ≡ faults_of self.old }
        ensures failing { failing_of self.new ≡ failing_of self.old }
    {
        let kept = Vec::from_slice(self.alloc, bytes)?;
        let name = String::from_str(self.alloc, name)?;
        self.files.insert(name, kept)?;
        Ok(())
    }

    /// A file's bytes, or nothing if no file has the name. This doesn't count as a call of `load`.
    pub fn file(&self, name: &str) -> Option<&[u8]>
        ensures { option_copied result ≡ file_at (files_of self.now) name.now }
    {
        match self.files.get(name) {
            Some(bytes) => Some(bytes.as_slice()),
            None => None,
        }
    }

    // Counts a call. The answer says whether it is one that fails.
    fn call_fails(&mut self) -> bool
        ensures files { files_of self.new ≡ files_of self.old }
        ensures failing { failing_of self.new ≡ failing_of self.old }
        ensures calls { calls_of self.new ≡ min (calls_of self.old + 1) last_count }
        ensures exactly { IsTrue result ↔ Contains (failing_of self.old) (calls_of self.new) }
        ensures counted { OnTrue result (RoseOnce (faults_of self.old) (faults_of self.new)) }
        ensures uncounted { OnFalse result (faults_of self.new ≡ faults_of self.old) }
        ensures never_falls { faults_of self.old ≤ faults_of self.new }
    {
        self.calls = self.calls.saturating_add(1);
        let fails = self.failing.contains(&self.calls);
        if fails {
            self.faults = self.faults.saturating_add(1);
        }
        fails
    }
}

impl Shelf for MemShelf {
    ghost use Rattle.memory_files.specs.MemShelf.{files_of, calls_of, failing_of, faults_of};

    ghost told = { λ shelf. Some (files_of shelf) };

    ghost fault_count = { λ shelf. faults_of shelf };

    fn load(&mut self, alloc: Global, name: &str, most: usize) -> Result<Vec<u8>, LoadError>
        ensures gives { Loads (files_of self.old) name.now most result }
        ensures fits { IfOk result (λ bytes. length bytes.items ≤ most) }
        ensures stays { files_of self.new ≡ files_of self.old }
        ensures failed { IsErrOf result LoadError.Failed
            → RoseOnce (faults_of self.old) (faults_of self.new) }
        ensures else_stays { result ≢ Err LoadError.Failed → faults_of self.new ≡ faults_of self.old }
        ensures never_falls { faults_of self.old ≤ faults_of self.new }

        ensures failing { failing_of self.new ≡ failing_of self.old }
        ensures calls { calls_of self.new ≡ min (calls_of self.old + 1) last_count }
        ensures fails_exactly { IsErrOf result LoadError.Failed
            ↔ Contains (failing_of self.old) (calls_of self.new) }
    {
        if self.call_fails() {
            return Err(LoadError::Failed);
        }
        let Some(bytes) = self.file(name) else {
            return Err(LoadError::Absent);
        };
        if bytes.len() > most {
            return Err(LoadError::TooLong);
        }
        Ok(Vec::from_slice(alloc, bytes)?)
    }

    fn store(&mut self, name: &str, bytes: &[u8]) -> Result<(), StoreError>
        ensures ok { OnOk result (Some (files_of self.new)
            ≡ stored (Some (files_of self.old)) name.now bytes.now) }
        ensures err { OnErr result (files_of self.new ≡ files_of self.old) }
        ensures failed { IsErrOf result StoreError.Failed
            → RoseOnce (faults_of self.old) (faults_of self.new) }
        ensures else_stays { result ≢ Err StoreError.Failed → faults_of self.new ≡ faults_of self.old }
        ensures never_falls { faults_of self.old ≤ faults_of self.new }

        ensures failing { failing_of self.new ≡ failing_of self.old }
        ensures calls { calls_of self.new ≡ min (calls_of self.old + 1) last_count }
        ensures fails_exactly { IsErrOf result StoreError.Failed
            ↔ Contains (failing_of self.old) (calls_of self.new) }
    {
        if self.call_fails() {
            return Err(StoreError::Failed);
        }
        match self.put_file(name, bytes) {
            Ok(()) => Ok(()),
            Err(NoMemory) => Err(StoreError::NoMemory),
        }
    }

    fn faults(&self) -> u64 {
        self.faults
    }
}

/// Printed lines in memory. The calls of `put` are numbered from 1.
#[derive(Drop)]
pub struct MemSink {
    lines: PrintedLines,
    failing: Vec<u64>,
    calls: u64,
    faults: u64,
}

impl MemSink {
    ghost use Rattle.memory_files.specs.MemSink.{lines_of, calls_of, failing_of, faults_of};

    /// An empty sink, whose calls with the numbers in `failing` fail and print nothing.
    pub fn new(alloc: Global, failing: Vec<u64>) -> MemSink
        ensures empty { lines_of result ≡ [] }
        ensures failing { failing_of result ≡ failing.items }
        ensures calls { calls_of result ≡ 0 }
    {
        MemSink {
            lines: PrintedLines::new(alloc),
            failing,
            calls: 0,
            faults: 0,
        }
    }

    /// The printed bytes: the lines, one after the other.
    pub fn bytes(&self) -> &[u8]
        ensures { result.now ≡ joined (lines_of self.now) }
    {
        self.lines.bytes()
    }

    /// How long each line is, in bytes. Each call of `put` that didn't fail printed one line.
    pub fn lengths(&self) -> &[usize]
        ensures { result.now ≡ map length (lines_of self.now) }
    {
        self.lines.lengths()
    }
}

impl Sink for MemSink {
    ghost use Rattle.memory_files.specs.MemSink.{lines_of, calls_of, failing_of, faults_of};

    ghost told = { λ sink. Some (lines_of sink) };

    ghost fault_count = { λ sink. faults_of sink };

    #[tactic(auto, using(crate::proofs::Cuts::nothing_grows))]
    fn put(&mut self, bytes: &[u8]) -> Result<(), PutError>
        ensures ok { OnOk result (lines_of self.new ≡ lines_of self.old ++ bytes.now ∷ []) }
        ensures err { OnErr result (GrowsByPart (Some (lines_of self.old)) (bytes.now ∷ []) (Some (lines_of self.new))) }
        ensures failed { IsErrOf result PutError.Failed
            → RoseOnce (faults_of self.old) (faults_of self.new) }
        ensures else_stays { result ≢ Err PutError.Failed → faults_of self.new ≡ faults_of self.old }
        ensures never_falls { faults_of self.old ≤ faults_of self.new }

        ensures err_stays { OnErr result (lines_of self.new ≡ lines_of self.old) }
        ensures failing { failing_of self.new ≡ failing_of self.old }
        ensures calls { calls_of self.new ≡ min (calls_of self.old + 1) last_count }
        ensures fails_exactly { IsErrOf result PutError.Failed
            ↔ Contains (failing_of self.old) (calls_of self.new) }
    {
        self.calls = self.calls.saturating_add(1);
        if self.failing.contains(&self.calls) {
            self.faults = self.faults.saturating_add(1);
            return Err(PutError::Failed);
        }
        match self.lines.push(bytes) {
            Ok(()) => Ok(()),
            Err(NoMemory) => Err(PutError::NoMemory),
        }
    }

    fn faults(&self) -> u64 {
        self.faults
    }
}
