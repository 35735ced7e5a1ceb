// Standard output, which doesn't tell what it took.
ghost use Rattle.std.specs.Prelude.{None};

use flop_base::{PutError, Sink};
use std::io::ErrorKind;

/// Standard output. A write that was only interrupted is tried again.
#[derive(Drop)]
pub struct StreamSink<'a, R: Print> {
    rt: &'a R,
    faults: u64,
}

impl<'a, R: Print> StreamSink<'a, R> {
    /// Standard output, to which nothing is written yet.
    pub fn new(rt: &'a R) -> StreamSink<'a, R> {
        StreamSink { rt, faults: 0 }
    }
}

impl<R: Print> Sink for StreamSink<'_, R> {
    ghost told = { λ _. None };

    ghost fault_count = { λ sink. sink.faults };

    fn put(&mut self, bytes: &[u8]) -> Result<(), PutError> {
        let mut rest = bytes;
        for _ in 0..u64::MAX {
            if rest.is_empty() {
                return Ok(());
            }
            match self.rt.write_some(rest) {
                Ok(count) if count > 0 => rest = rest.split_at(count).1,
                Err(error) if error.kind() == ErrorKind::Interrupted => {}
                _ => break,
            }
        }
        self.faults = self.faults.saturating_add(1);
        Err(PutError::Failed)
    }

    fn faults(&self) -> u64 {
        self.faults
    }
}
