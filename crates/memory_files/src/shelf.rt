// A shelf in memory on which the program runs.
ghost use Rattle.std.specs.Prelude.{◌≡◌, [], map, string_bytes, OnOk, OnErr, MatchOption, option_copied};
ghost use Rattle.flop_base.specs.Shelf.{no_files, file_at, stored};
ghost use Rattle.flop_base.specs.Sink.{joined};
ghost use Rattle.memory_files.specs.Shelves.{outside_in, files_in, report_in, RanPlain};

use crate::unfailing::{UnfailingShelf, UnfailingSink};
use flop_base::{NoMemory, Status};
use floppy_tools::{Ended, run_plain};
use std::alloc::Global;

/// Files in memory, and what the program printed when it ran on them.
#[derive(Drop)]
pub struct RunShelf {
    shelf: UnfailingShelf,
    sink: UnfailingSink,
}

impl RunShelf {
    /// No file, and nothing printed.
    pub fn new(alloc: Global) -> RunShelf
        ensures files { files_in result ≡ no_files }
        ensures report { report_in result ≡ [] }
    {
        RunShelf {
            shelf: UnfailingShelf::new(alloc),
            sink: UnfailingSink::new(alloc),
        }
    }

    /// Places a file, in place of one that has the name.
    pub fn put(&mut self, name: &str, bytes: &[u8]) -> Result<(), NoMemory>
        ensures ok { OnOk result ((outside_in self.new).files ≡ stored (outside_in self.old).files name.now bytes.now) }
        ensures err { OnErr result (files_in self.new ≡ files_in self.old) }
        ensures report { report_in self.new ≡ report_in self.old }
    {
        self.shelf.put_file(name, bytes)
    }

    /// A file's bytes, or nothing if no file has the name.
    pub fn file(&self, name: &str) -> Option<&[u8]>
        ensures { option_copied result ≡ file_at (files_in self.now) name.now }
    {
        self.shelf.files.file(name)
    }

    /// What was printed, and not forgotten: the lines, one after the other.
    pub fn report(&self) -> &[u8]
        ensures { result.now ≡ joined (report_in self.now) }
    {
        self.sink.lines.bytes()
    }

    /// Forgets what was printed.
    pub fn forget_report(&mut self, alloc: Global)
        ensures files { files_in self.new ≡ files_in self.old }
        ensures report { report_in self.new ≡ [] }
    {
        self.sink = UnfailingSink::new(alloc);
    }

    /// Runs the program with these arguments on a new machine, whose drives have no faults and which nothing delays.
    /// Nothing is run if memory for the machine couldn't be allocated. No call of the files or of the output fails, so the
    /// status is neither 6 nor 8.
    pub fn run(&mut self, alloc: Global, words: &[String]) -> Option<Status>
        ensures { MatchOption result (outside_in self.new ≡ outside_in self.old)
            (λ status. RanPlain (map string_bytes words.now) (outside_in self.old) (outside_in self.new) status) }
    {
        let Ended { status, machine } = run_plain(alloc, words, &mut self.shelf, &mut self.sink);
        match machine {
            None => None,
            Some(_machine) => Some(status),
        }
    }
}
