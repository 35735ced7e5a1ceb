// The program on files and a sink of one's own, on files in memory, and request by request.
pub use archive_commands::Halt;
pub use flop_base::{Bytes, LoadError, Name, PutError, Shelf, Sink, Status, StoreError};
pub use floppy_jobs::{Address, JobError, MemoryByte, Request, parse_job};
pub use floppy_tools::{Ended, Reason, Reply, Stop, run_plain, run_planned, run_words};
pub use memory_files::{MachineSession, MemShelf, MemSink, RunShelf, WordsError, split_words};
