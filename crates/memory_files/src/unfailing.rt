// Files and printed lines in memory, none of whose calls fails.
ghost use Rattle.std.specs.Prelude.{◌≡◌, [], Some, OnOk, OnErr};
ghost use Rattle.flop_base.specs.Shelf.{no_files, stored};
ghost use Rattle.memory_files.specs.MemShelf.{failing_of, files_of};
ghost use Rattle.memory_files.specs.MemSink.{failing_of as puts_that_fail, lines_of};

use crate::memory::{MemShelf, MemSink};
use flop_base::{LoadError, NoMemory, PutError, Shelf, Sink, StoreError};
use std::alloc::Global;

/// Files whose calls fail only if memory runs out.
#[derive(Drop)]
pub struct UnfailingShelf {
    pub(crate) files: MemShelf,
    ghost unfailing: { failing_of files ≡ [] },
}

impl UnfailingShelf {
    /// No file.
    pub(crate) fn new(alloc: Global) -> UnfailingShelf
        ensures { files_of result.files ≡ no_files }
    {
        UnfailingShelf {
            files: MemShelf::new(alloc, Vec::new(alloc)),
        }
    }

    /// Places a file, in place of one that has the name.
    pub(crate) fn put_file(&mut self, name: &str, bytes: &[u8]) -> Result<(), NoMemory>
        ensures ok { OnOk result (Some (files_of self.new.files) ≡ stored (Some (files_of self.old.files)) name.now bytes.now) }
        ensures err { OnErr result (files_of self.new.files ≡ files_of self.old.files) }
    {
        self.files.put_file(name, bytes)
    }
}

impl Shelf for UnfailingShelf {
    ghost told = { λ shelf. Some (files_of shelf.files) };

    ghost fault_count = { λ _. 0 };

    fn load(&mut self, alloc: Global, name: &str, most: usize) -> Result<Vec<u8>, LoadError> {
        self.files.load(alloc, name, most)
    }

    fn store(&mut self, name: &str, bytes: &[u8]) -> Result<(), StoreError> {
        self.files.store(name, bytes)
    }

    fn faults(&self) -> u64 {
        0
    }
}

/// Printed lines, of which none fails, unless memory runs out.
#[derive(Drop)]
pub struct UnfailingSink {
    pub(crate) lines: MemSink,
    ghost unfailing: { puts_that_fail lines ≡ [] },
}

impl UnfailingSink {
    /// Nothing is printed.
    pub(crate) fn new(alloc: Global) -> UnfailingSink
        ensures { lines_of result.lines ≡ [] }
    {
        UnfailingSink {
            lines: MemSink::new(alloc, Vec::new(alloc)),
        }
    }
}

impl Sink for UnfailingSink {
    ghost told = { λ sink. Some (lines_of sink.lines) };

    ghost fault_count = { λ _. 0 };

    fn put(&mut self, bytes: &[u8]) -> Result<(), PutError> {
        self.lines.put(bytes)
    }

    fn faults(&self) -> u64 {
        0
    }
}
