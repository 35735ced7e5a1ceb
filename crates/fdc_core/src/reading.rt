// READ ID and READ DATA, word by word. What a word changes is changed in place: a stage is large.
ghost use Rattle.std.specs.Prelude.{◌≡◌};
ghost use Rattle.fdc_core.specs.Dma.{gone_on};
ghost use Rattle.fdc_core.specs.Reading.{followed_id, followed, failure_of, with_heard, settled, IsReadingTo};

use crate::controller::Fdc;
use fdc_phases::{Execution, NO_KEY, Phase, Task};
use fdc_stages::{Ending, ReadHeard, Searched};
use flop_base::Chrn;

impl Fdc {
    /// READ ID does what the word that it heard asks for.
    pub(crate) fn follow_id(&mut self, head_drive: u8, searched: Searched)
        ensures { self.new ≡ followed_id head_drive searched self.old }
    {
        match searched {
            Searched::On => self.ask(),
            Searched::Met { key } => {
                self.finish(Ending::Done { deleted: false }, head_drive, key);
            }
            Searched::Missed(ending) => self.finish(ending, head_drive, NO_KEY),
        }
    }

    /// READ DATA does what the word that it heard asks for. `over` says that its field is over.
    #[inline(always)]
    pub(crate) fn follow(
        &mut self,
        head_drive: u8,
        key: Chrn,
        counted: bool,
        heard: ReadHeard,
        over: bool,
    )
        requires { IsReadingTo over self.old.phase }
        ensures { self.new ≡ followed head_drive key counted heard self.old }
    {
        match self.take(counted, heard) {
            None => self.settle(over),
            Some(ending) => self.finish(ending, head_drive, key),
        }
    }

    /// A byte of the field goes to the FIFO, unless the terminal count came. Returns how the command ended, if it
    /// failed: the byte may have found the FIFO full.
    #[inline(always)]
    fn take(&mut self, counted: bool, heard: ReadHeard) -> Option<Ending>
        ensures phase { self.new.phase ≡ self.old.phase }
        ensures failed { result ≡ failure_of counted heard self.old }
        ensures after { self.new ≡ with_heard counted heard self.old }
    {
        match heard {
            ReadHeard::On => None,
            ReadHeard::Byte { value } => {
                if counted {
                    return None;
                }
                match self.fifo.push(value) {
                    Ok(()) => None,
                    Err(_) => Some(Ending::Overrun),
                }
            }
            ReadHeard::Ended(ending) => Some(ending),
        }
    }

    /// The command goes on, unless the field is over and the FIFO is empty.
    #[inline(always)]
    fn settle(&mut self, over: bool)
        requires { IsReadingTo over self.old.phase }
        ensures { self.new ≡ settled self.old }
    {
        if over {
            self.end_or_ask();
        } else if self.asking || !self.fifo.is_empty() {
            self.asking = self.fifo.wants(true, self.asking, false);
        }
    }

    /// The same as `settle`, whatever is in execution.
    #[inline(never)]
    fn end_or_ask(&mut self)
        ensures { self.new ≡ settled self.old }
    {
        match self.phase.over() {
            Some(over) => {
                if self.fifo.is_empty() {
                    self.finish(over.ending, over.head_drive, over.key);
                } else {
                    self.ask();
                }
            }
            None => self.ask(),
        }
    }

    /// The execution goes on with this task.
    pub(crate) fn go_on(&mut self, head_drive: u8, steps: u16, task: Task)
        ensures { self.new ≡ gone_on head_drive steps task self.old }
    {
        self.phase = Phase::Execute {
            execution: Execution {
                head_drive,
                steps,
                task,
            },
        };
        self.ask();
    }
}
