// What a word makes of a write or of a FORMAT in place: what they do is large.
ghost use Rattle.std.specs.Prelude.{◌≡◌, true};
ghost use Rattle.fdc_core.specs.Formatting.{format_followed, is_over};
ghost use Rattle.fdc_core.specs.Listening.{HasStepsLeft};
ghost use Rattle.fdc_core.specs.State.{finished};
ghost use Rattle.fdc_core.specs.Tasks.{ExecutionSteps};
ghost use Rattle.fdc_core.specs.Times.{Closes};
ghost use Rattle.fdc_core.specs.Transfers.{HearsToWrite};
ghost use Rattle.fdc_core.specs.Writing.{gone_or_over, is_end};

use crate::controller::Fdc;
use crate::writing::take_byte;
use drive_model::{Drive, Turn};
use fdc_phases::{End, NO_KEY, Phase, Task, head_of};
use fdc_stages::{Ending, FormatEnd};
use flop_base::Chrn;

impl Fdc {
    /// A write or a FORMAT hears a word, in place.
    pub(crate) fn hear_to_write(&mut self, passing: Turn)
        requires { HasStepsLeft self.old.phase }
        ensures { HearsToWrite self.old.phase passing.index passing.word self.old self.new }
    {
        match &mut self.phase {
            Phase::Execute { execution } => {
                let head_drive = execution.head_drive;
                execution.steps += 1;
                match &mut execution.task {
                    Task::Write { writing } => {
                        let counted = writing.counted;
                        let over = writing.hear(head_drive, passing);
                        self.follow_over(counted, over);
                    }
                    Task::Format { formatting } => {
                        let counted = formatting.counted;
                        let over = formatting.hear(passing.index);
                        self.follow_index(head_drive, counted, over);
                    }
                    _ => {}
                }
            }
            _ => {}
        }
    }

    /// The command goes on, unless it is over.
    #[inline(always)]
    fn follow_over(&mut self, counted: bool, over: Option<End>)
        ensures { self.new ≡ gone_or_over counted over self.old }
    {
        match over {
            None => self.asking = self.fifo.wants(false, self.asking, counted),
            Some(over) => self.finish(over.ending, over.head_drive, over.key),
        }
    }

    /// The FORMAT goes on, unless it is over.
    #[inline(always)]
    fn follow_index(&mut self, head_drive: u8, counted: bool, over: Option<FormatEnd>)
        ensures { self.new ≡ format_followed head_drive counted over self.old }
    {
        match over {
            None => self.asking = self.fifo.wants(false, self.asking, counted),
            Some(over) => self.finish(over.ending, head_drive, over.key),
        }
    }

    /// A device step of a write. The usual one writes the next word of the window in place. Each other is a call at the
    /// end, so that nothing is copied here.
    #[inline(never)]
    pub(crate) fn put_on<D: Drive>(&mut self, drive: &mut D)
        ensures { ExecutionSteps self.old.phase self.old (D.state drive.old) (D.state drive.new) self.new }
    {
        match &mut self.phase {
            Phase::Execute { execution } => match &mut execution.task {
                Task::Write { writing } => {
                    let head_drive = execution.head_drive;
                    let steps = execution.steps;
                    let key = writing.wanted.key;
                    if writing.puts_on(steps) {
                        let needs = writing.stage.needs_byte();
                        let counted = writing.counted;
                        match take_byte(&mut self.fifo, needs, counted) {
                            Some(byte) => {
                                let last = writing.stage.is_last();
                                let word = writing.stage.put(byte);
                                let index = drive.write_word(head_of(head_drive), word);
                                execution.steps = steps + 1;
                                let over = writing.end(head_drive, last, index);
                                self.follow_put(counted, over, drive);
                            }
                            None => self.stop(Ending::Overrun, head_drive, key, drive),
                        }
                    } else {
                        self.execute_rare(drive);
                    }
                }
                _ => self.execute_rare(drive),
            },
            _ => {}
        }
    }

    /// The write goes on after a word that it wrote, unless it is over.
    #[inline(always)]
    fn follow_put<D: Drive>(&mut self, counted: bool, over: Option<End>, drive: &mut D)
        ensures state { self.new ≡ gone_or_over counted over self.old }
        ensures drive { Closes (is_end over) (D.state drive.old) (D.state drive.new) }
    {
        match over {
            None => self.asking = self.fifo.wants(false, self.asking, counted),
            Some(over) => self.close(over.ending, over.head_drive, over.key, drive),
        }
    }

    /// A device step of a FORMAT. The usual one writes the next word of the layout in place. Each other is a call at
    /// the end, so that nothing is copied here.
    #[inline(never)]
    pub(crate) fn lay_on<D: Drive>(&mut self, drive: &mut D)
        ensures { ExecutionSteps self.old.phase self.old (D.state drive.old) (D.state drive.new) self.new }
    {
        match &mut self.phase {
            Phase::Execute { execution } => match &mut execution.task {
                Task::Format { formatting } => {
                    let head_drive = execution.head_drive;
                    let steps = execution.steps;
                    if formatting.lays_on(steps) {
                        let needs = formatting.stage.needs_byte();
                        let counted = formatting.counted;
                        match take_byte(&mut self.fifo, needs, counted) {
                            Some(byte) => {
                                let word = formatting.stage.lay(byte);
                                let index = drive.write_word(head_of(head_drive), word);
                                execution.steps = steps + 1;
                                let over = formatting.stage.end(index);
                                self.follow_laid(head_drive, counted, over, drive);
                            }
                            None => self.stop(Ending::Overrun, head_drive, NO_KEY, drive),
                        }
                    } else {
                        self.execute_rare(drive);
                    }
                }
                // the borrow checker takes the arm above only beside one that reads of a write
                Task::Write { writing } => {
                    let _counted = writing.counted;
                    self.execute_rare(drive);
                }
                _ => self.execute_rare(drive),
            },
            _ => {}
        }
    }

    /// The FORMAT goes on after a word that it wrote, unless it is over.
    #[inline(always)]
    fn follow_laid<D: Drive>(
        &mut self,
        head_drive: u8,
        counted: bool,
        over: Option<FormatEnd>,
        drive: &mut D,
    )
        ensures state { self.new ≡ format_followed head_drive counted over self.old }
        ensures drive { Closes (is_over over) (D.state drive.old) (D.state drive.new) }
    {
        match over {
            None => self.asking = self.fifo.wants(false, self.asking, counted),
            Some(over) => self.close(over.ending, head_drive, over.key, drive),
        }
    }

    /// The command ends after a word that it wrote: the gate is closed.
    #[inline(never)]
    pub(crate) fn close<D: Drive>(
        &mut self,
        ending: Ending,
        head_drive: u8,
        key: Chrn,
        drive: &mut D,
    )
        ensures state { self.new ≡ finished ending head_drive key self.old }
        ensures drive { Closes true (D.state drive.old) (D.state drive.new) }
    {
        drive.gate(false);
        self.finish(ending, head_drive, key);
    }
}
