// The controller's side of the DMA channel.
ghost use Rattle.std.specs.Prelude.{◌≡◌, ℕ, Bool, IsTrue, IsFalse};
ghost use Rattle.fdc_core.specs.Common.{Past, Sent, gave, told_in, took, Numbers, task_asks};
ghost use Rattle.fdc_core.specs.Heard.{MayRead};
ghost use Rattle.fdc_core.specs.Listening.{is_executing};
ghost use Rattle.fdc_core.specs.State.{asks};
ghost use Rattle.fdc_core.specs.Waiting.{CanWait, Feeds};
ghost use Rattle.fdc_core.specs.Written.{MayWrite, MayFormat};
ghost use Rattle.fdc_core.specs.Dma.{asked, byte_out, taken_out, taken_in, with_byte, told_count, told_to, to_memory_of};

use crate::controller::Fdc;
use fdc_phases::{Execution, Phase, Task};

/// What a transfer from an empty FIFO would give.
const NOTHING: u8 = 0xFF;

impl Fdc {
    /// Whether the bytes of the command in execution go to memory.
    pub fn to_memory(&self) -> bool
        ensures { result ≡ to_memory_of self.now }
    {
        self.phase.is_reading()
    }

    /// The channel takes a byte.
    pub fn dma_out(&mut self) -> u8
        requires drq { IsTrue (asks self.old) }
        requires to_memory { IsTrue (to_memory_of self.old) }
        ensures byte { result ≡ byte_out self.old }
        ensures after { self.new ≡ taken_out self.old }
        ensures reads { (past : Past) (sent : Sent) → MayRead past sent self.old → MayRead (gave result past) sent self.new }
        ensures waits { (slack : ℕ) → CanWait slack self.old → CanWait slack self.new }
        ensures feeds { Feeds self.old → Feeds self.new }
    {
        self.take_out()
    }

    /// Takes the oldest byte out of the FIFO.
    fn take_out(&mut self) -> u8
        ensures byte { result ≡ byte_out self.old }
        ensures after { self.new ≡ taken_out self.old }
    {
        let byte = self.fifo.pop().unwrap_or(NOTHING);
        self.ask();
        byte
    }

    /// The channel gives a byte. Where DRQ goes by the FIFO's rule there is room for it.
    pub fn dma_in(&mut self, byte: u8)
        requires drq { IsTrue (asks self.old) }
        requires from_memory { IsFalse (to_memory_of self.old) }
        ensures after { self.new ≡ taken_in byte self.old }
        ensures writes { (past : Past) (sent : Sent) (deleted : Bool) → MayWrite past sent deleted self.old
            → MayWrite (took byte past) sent deleted self.new }
        ensures formats { (past : Past) (sent : ℕ) (numbers : Numbers) → MayFormat past sent numbers self.old
            → MayFormat (took byte past) sent numbers self.new }
        ensures waits { (slack : ℕ) → CanWait slack self.old → CanWait slack self.new }
        ensures feeds { Feeds self.old → Feeds self.new }
    {
        self.take_in(byte);
    }

    /// Appends a byte to the FIFO.
    fn take_in(&mut self, byte: u8)
        ensures { self.new ≡ taken_in byte self.old }
    {
        self.put_in(byte);
        self.ask();
    }

    /// Appends a byte to the FIFO, where there is room.
    fn put_in(&mut self, byte: u8)
        ensures { self.new ≡ record self.old { fifo = with_byte byte self.old.fifo } }
    {
        match self.fifo.push(byte) {
            Ok(()) => {}
            Err(_) => {}
        }
    }

    /// The channel gives the terminal count. A READ DATA then gives no further byte, and a write takes none.
    pub fn tc(&mut self)
        ensures after { self.new ≡ told_count self.old }
        ensures reads { (past : Past) (sent : Sent) → MayRead past sent self.old → MayRead (told_in (is_executing self.old.phase) past) sent self.new }
        ensures writes { (past : Past) (sent : Sent) (deleted : Bool) → MayWrite past sent deleted self.old
            → MayWrite (told_in (is_executing self.old.phase) past) sent deleted self.new }
        ensures formats { (past : Past) (sent : ℕ) (numbers : Numbers) → MayFormat past sent numbers self.old
            → MayFormat (told_in (is_executing self.old.phase) past) sent numbers self.new }
        ensures waits { (slack : ℕ) → CanWait slack self.new }
        ensures feeds { Feeds self.old → Feeds self.new }
    {
        self.end_transfer();
    }

    /// No further byte is moved.
    fn end_transfer(&mut self)
        ensures { self.new ≡ told_count self.old }
    {
        if let Phase::Execute { execution } = self.phase {
            let Execution {
                head_drive,
                steps,
                task,
            } = execution;
            match task {
                Task::ReadId { .. } => {}
                Task::Read { .. } => {
                    self.fifo.clear();
                    self.tell(head_drive, steps, task.told());
                }
                Task::Write { .. } | Task::Format { .. } => {
                    self.tell(head_drive, steps, task.told());
                }
            }
        }
    }

    /// The terminal count came for this task.
    fn tell(&mut self, head_drive: u8, steps: u16, task: Task)
        ensures { self.new ≡ told_to head_drive steps task self.old }
    {
        self.asking = false;
        self.phase = Phase::Execute {
            execution: Execution {
                head_drive,
                steps,
                task,
            },
        };
    }

    /// DRQ goes by the FIFO's rule.
    pub(crate) fn ask(&mut self)
        ensures { self.new ≡ asked self.old }
    {
        self.asking = match &self.phase {
            Phase::Execute { execution } => self.wants(&execution.task),
            _ => false,
        };
    }

    /// Whether DRQ is up now in this task.
    fn wants(&self, task: &Task) -> bool
        ensures { result ≡ task_asks task.now self.now.asking self.now.fifo }
    {
        match task {
            Task::ReadId { .. } => false,
            Task::Read { reading } => self.fifo.wants(true, self.asking, reading.is_over()),
            Task::Write { writing } => self.fifo.wants(false, self.asking, writing.counted),
            Task::Format { formatting } => {
                self.fifo.wants(false, self.asking, formatting.counted)
            }
        }
    }
}
