// Lines, one after the other.
ghost use Rattle.std.specs.Prelude.{◌≡◌, ◌++◌, ◌∷◌, [], length, map, sum, OnOk, OnErr};
ghost use Rattle.flop_base.specs.Sink.{joined};
ghost use Rattle.memory_files.specs.Lines.{lines_in};

use flop_base::NoMemory;
use std::alloc::Global;

/// The bytes of lines, and how long each line is.
#[derive(Drop)]
pub(crate) struct PrintedLines {
    pub(crate) bytes: Vec<u8>,
    pub(crate) lengths: Vec<usize>,
    ghost all: { sum lengths.items ≡ length bytes.items },
}

impl PrintedLines {
    /// No line.
    pub(crate) fn new(alloc: Global) -> PrintedLines
        ensures { lines_in result.bytes.items result.lengths.items ≡ [] }
    {
        PrintedLines {
            bytes: Vec::new(alloc),
            lengths: Vec::new(alloc),
        }
    }

    /// The lines, one after the other.
    pub(crate) fn bytes(&self) -> &[u8]
        ensures { result.now ≡ joined (lines_in self.now.bytes.items self.now.lengths.items) }
    {
        self.bytes.as_slice()
    }

    /// How long each line is.
    pub(crate) fn lengths(&self) -> &[usize]
        ensures { result.now ≡ map length (lines_in self.now.bytes.items self.now.lengths.items) }
    {
        self.lengths.as_slice()
    }

    /// Appends a line to the others.
    pub(crate) fn push(&mut self, line: &[u8]) -> Result<(), NoMemory>
        ensures ok { OnOk result (lines_in self.new.bytes.items self.new.lengths.items
            ≡ lines_in self.old.bytes.items self.old.lengths.items ++ line.now ∷ []) }
        ensures err { OnErr result (self.new.bytes.items ≡ self.old.bytes.items) }
        ensures err_lengths { OnErr result (self.new.lengths.items ≡ self.old.lengths.items) }
    {
        let before = self.bytes.len();
        self.bytes.extend_from_slice(line)?;
        match self.lengths.push(line.len()) {
            Ok(()) => Ok(()),
            Err(_) => {
                self.bytes.truncate(before);
                Err(NoMemory)
            }
        }
    }
}
