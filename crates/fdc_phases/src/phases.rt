// What the controller is doing.
ghost use Rattle.std.specs.Prelude.{◌≡◌, ◌<◌, false};
ghost use Rattle.fdc_phases.specs.Dma.{task_told};
ghost use Rattle.fdc_phases.specs.Phases.{is_reading, head_of, key_as_sent, over_at, over_of, ending_of_phase, mark_of_phase, mark_in};

use crate::answers::Answer;
use crate::transfers::{Formatting, Reading, Writing};
use fdc_stages::{Ending, Search};
use flop_base::Chrn;

/// The key in the results of a READ ID that found none, and of a FORMAT that was ended.
pub const NO_KEY: Chrn = Chrn {
    c: 0,
    h: 0,
    r: 0,
    n: 0,
};

/// The step that ends a data command, whatever it does.
pub const LAST_STEP: u16 = 65535;

/// Whether the step after so many others is the last step.
#[inline(always)]
pub fn is_last(steps: u16) -> bool
    ensures { result ≡ false → steps < 65535 }
{
    steps == LAST_STEP
}

/// The phase of the controller.
#[derive(Clone, Copy)]
pub enum Phase {
    /// The controller takes command bytes.
    Command,
    /// The controller executes a data command, word time by word time.
    Execute { execution: Execution },
    /// The controller gives result bytes.
    Result { answer: Answer },
}

/// A data command in execution.
#[derive(Clone, Copy)]
pub struct Execution {
    /// The head in bit 2 and the drive in bits 1 and 0, as the command sent them.
    pub head_drive: u8,
    /// The device steps so far.
    pub steps: u16,
    /// What is done.
    pub task: Task,
}

/// What a data command does.
#[derive(Clone, Copy)]
pub enum Task {
    /// READ ID.
    ReadId { search: Search },
    /// READ DATA.
    Read { reading: Reading },
    /// WRITE DATA and WRITE DELETED.
    Write { writing: Writing },
    /// FORMAT TRACK.
    Format { formatting: Formatting },
}

/// How a data command ends.
#[derive(Clone, Copy)]
pub struct End {
    pub ending: Ending,
    /// The head and the drive, as the command sent them.
    pub head_drive: u8,
    /// The key in its results.
    pub key: Chrn,
}

impl Phase {
    /// Whether a READ DATA is in execution.
    pub fn is_reading(&self) -> bool
        ensures { result ≡ is_reading self.now }
    {
        match self {
            Phase::Execute { execution } => matches!(execution.task, Task::Read { .. }),
            _ => false,
        }
    }

    /// How a data command ended, while its results are given.
    pub fn ending(&self) -> Option<Ending>
        ensures { result ≡ ending_of_phase self.now }
    {
        match self {
            Phase::Result {
                answer: Answer::Long { ending, .. },
            } => Some(*ending),
            _ => None,
        }
    }

    /// The mark of the data field that a READ DATA reads, once the mark is met.
    pub fn mark(&self) -> Option<bool>
        ensures { result ≡ mark_of_phase self.now }
    {
        match self {
            Phase::Execute { execution } => execution.mark(),
            _ => None,
        }
    }

    /// How a READ DATA ends, if its field is over.
    pub fn over(&self) -> Option<End>
        ensures { result ≡ over_of self.now }
    {
        match self {
            Phase::Execute { execution } => execution.over(),
            _ => None,
        }
    }
}

/// The head, bit 2 of the byte that the command sent.
pub fn head_of(head_drive: u8) -> u8
    ensures { result ≡ head_of head_drive }
{
    head_drive / 4 % 2
}

impl Execution {
    /// How a READ DATA ends, if its field is over.
    fn over(&self) -> Option<End>
        ensures { result ≡ over_at self.now.task self.now.head_drive }
    {
        match &self.task {
            Task::Read { reading } => match reading.ending() {
                Some(ending) => Some(End {
                    ending,
                    head_drive: self.head_drive,
                    key: reading.key_after(ending),
                }),
                None => None,
            },
            _ => None,
        }
    }

    /// The mark of the data field that a READ DATA reads, once the mark is met.
    fn mark(&self) -> Option<bool>
        ensures { result ≡ mark_in self.now.task }
    {
        match &self.task {
            Task::Read { reading } => reading.mark(),
            _ => None,
        }
    }
}

impl Task {
    /// The key in the results of a failure: the key as it was sent, 00 00 00 00 where none was sent.
    pub fn key_as_sent(self) -> Chrn
        ensures { result ≡ key_as_sent self }
    {
        match self {
            Task::ReadId { .. } | Task::Format { .. } => NO_KEY,
            Task::Read { reading } => reading.wanted.key,
            Task::Write { writing } => writing.wanted.key,
        }
    }

    /// The same task once the terminal count came.
    pub fn told(self) -> Task
        ensures { result ≡ task_told self }
    {
        match self {
            Task::ReadId { .. } => self,
            Task::Read { reading } => Task::Read {
                reading: reading.told(),
            },
            Task::Write { writing } => Task::Write {
                writing: writing.told(),
            },
            Task::Format { formatting } => Task::Format {
                formatting: formatting.told(),
            },
        }
    }
}
