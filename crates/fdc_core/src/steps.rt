// Device steps: one word time each, with the selected drive or with none.
ghost use Rattle.std.specs.Prelude.{◌≡◌, ◌==◌, false, true};
ghost use Rattle.fdc_core.specs.Common.{Becomes, at_index, pulse_due, rate_fits, seen_of, PassesBy};
ghost use Rattle.fdc_core.specs.Listening.{Listens, ListensToNone, SeesUnder, HearsIn, HasStepsLeft};
ghost use Rattle.fdc_core.specs.State.{finished};
ghost use Rattle.fdc_core.specs.Steps.{polled, seek_stepped, let_pass, Rests, Moves, MovesDrive, Ends, Stays, Flows};
ghost use Rattle.fdc_core.specs.Tasks.{IsListenStep, ExecutionSteps, TaskStepsNowhere, StepsNowhere};
ghost use Rattle.fdc_core.specs.Waiting.{LastsOn, Feeds};
ghost use Rattle.fdc_core.specs.Writes.{WritesOn};

use crate::controller::Fdc;
use drive_model::{Drive, Heard, Turn};
use fdc_phases::{DataRate, Execution, LAST_STEP, Phase, Task, head_of, is_last};
use fdc_stages::{Ending, ReadHeard, ReadStage};
use flop_base::Chrn;

/// What passes where no drive is selected.
const NOTHING: Turn = Turn {
    word: 0,
    index: false,
};

impl Fdc {
    /// One device step with the selected drive: the pulse of a seek, where one is due, and then one word time.
    pub fn step<D: Drive>(&mut self, drive: &mut D)
        ensures rests { Rests ((D.state drive.old).cylinder == 0) (polled self.old) self.new }
        ensures reads { Listens (polled self.old) (at_index (D.state drive.old)) self.old (D.state drive.old) (D.state drive.new) self.new }
        ensures writes { WritesOn (polled self.old) self.old (D.state drive.old) (D.state drive.new) self.new }
        ensures drive { MovesDrive (polled self.old) (D.state drive.old) (D.state drive.new) }
        ensures ends { Ends self.old self.new }
        ensures stays { Stays self.old self.new }
        ensures flows { Flows self.old self.new }
        ensures lasts { LastsOn self.old self.new }
        ensures feeds { Feeds self.old → Feeds self.new }
    {
        self.poll();
        self.advance(drive);
    }

    /// A device step once the poll is done.
    fn advance<D: Drive>(&mut self, drive: &mut D)
        ensures rests { Rests ((D.state drive.old).cylinder == 0) self.old self.new }
        ensures reads { Listens self.old (at_index (D.state drive.old)) self.old (D.state drive.old) (D.state drive.new) self.new }
        ensures writes { WritesOn self.old self.old (D.state drive.old) (D.state drive.new) self.new }
        ensures drive { MovesDrive self.old (D.state drive.old) (D.state drive.new) }
        ensures ends { Ends self.old self.new }
        ensures stays { Stays self.old self.new }
        ensures flows { Flows self.old self.new }
        ensures lasts { LastsOn self.old self.new }
        ensures feeds { Feeds self.old → Feeds self.new }
    {
        match self.phase {
            Phase::Execute { .. } => self.execute(drive),
            _ => self.rest(drive),
        }
    }

    /// One device step where no drive is selected.
    pub fn step_empty(&mut self)
        ensures rests { Rests false (polled self.old) self.new }
        ensures reads { ListensToNone (polled self.old) self.old self.new }
        ensures nowhere { StepsNowhere self.old.phase (polled self.old) self.new }
        ensures ends { Ends self.old self.new }
        ensures stays { Stays self.old self.new }
        ensures flows { Flows self.old self.new }
    {
        self.poll();
        self.advance_empty();
    }

    /// A device step where no drive is selected, once the poll is done.
    fn advance_empty(&mut self)
        ensures rests { Rests false self.old self.new }
        ensures reads { ListensToNone self.old self.old self.new }
        ensures nowhere { StepsNowhere self.old.phase self.old self.new }
        ensures ends { Ends self.old self.new }
        ensures stays { Stays self.old self.new }
        ensures flows { Flows self.old self.new }
    {
        match self.phase {
            Phase::Execute { execution } => self.execute_empty(execution),
            _ => {
                self.step_seek(false);
            }
        }
    }

    /// The poll that a reset leaves comes in the first device step after it.
    fn poll(&mut self)
        ensures state { self.new ≡ polled self.old }
        ensures phase { self.new.phase ≡ self.old.phase }
    {
        if self.poll_due {
            self.poll_drives();
        }
    }

    /// The same where the poll is to come, which it does once the reset is over.
    #[inline(always)]
    fn poll_drives(&mut self)
        requires { self.old.poll_due ≡ true }
        ensures state { self.new ≡ polled self.old }
        ensures phase { self.new.phase ≡ self.old.phase }
    {
        if !self.is_held() {
            self.poll_due = false;
            self.interrupt = true;
            self.seeks.poll();
        }
    }

    /// A device step outside execution: a seek goes on, and a word passes.
    #[inline(always)]
    fn rest<D: Drive>(&mut self, drive: &mut D)
        ensures state { self.new ≡ seek_stepped ((D.state drive.old).cylinder == 0) self.old }
        ensures drive { Moves (pulse_due self.old.seeks ((D.state drive.old).cylinder == 0)) (D.state drive.old) (D.state drive.new) }
    {
        if self.seeks.is_seeking() {
            self.go_seeking(drive);
        } else {
            drive.idle();
        }
    }

    /// The same while a seek runs: a pulse comes first.
    #[inline(never)]
    fn go_seeking<D: Drive>(&mut self, drive: &mut D)
        ensures state { self.new ≡ seek_stepped ((D.state drive.old).cylinder == 0) self.old }
        ensures drive { Moves (pulse_due self.old.seeks ((D.state drive.old).cylinder == 0)) (D.state drive.old) (D.state drive.new) }
    {
        let track0 = drive.track0();
        match self.step_seek(track0) {
            Some(inward) => {
                drive.pulse(inward);
                drive.idle();
            }
            None => drive.idle(),
        }
    }

    /// The pulse that a seek gives in this device step. At its end INT rises.
    fn step_seek(&mut self, track0: bool) -> Option<bool>
        ensures state { self.new ≡ seek_stepped track0 self.old }
        ensures pulse { result ≡ pulse_due self.old.seeks track0 }
    {
        let running = self.seeks.is_seeking();
        let pulse = self.seeks.pulse(track0);
        if running && pulse.is_none() {
            self.interrupt = true;
        }
        pulse
    }

    /// A device step of a data command. The usual one, in which a word passes by a READ DATA that searches, is made in
    /// place. Each other is a call, so that nothing is copied here.
    #[inline(always)]
    fn execute<D: Drive>(&mut self, drive: &mut D)
        ensures { ExecutionSteps self.old.phase self.old (D.state drive.old) (D.state drive.new) self.new }
    {
        match &mut self.phase {
            Phase::Execute { execution } => match &mut execution.task {
                Task::Read { reading } => {
                    let head_drive = execution.head_drive;
                    if is_last(execution.steps) {
                        self.execute_any(drive);
                    } else {
                        let heard = drive.listen(head_of(head_drive));
                        if pass_by(&mut reading.stage, self.rate, heard) {
                            execution.steps += 1;
                            let key = reading.wanted.key;
                            let counted = reading.counted;
                            let over = reading.is_over();
                            self.follow(head_drive, key, counted, ReadHeard::On, over);
                        } else {
                            self.hear_seen(seen(self.rate, heard));
                        }
                    }
                }
                _ => self.execute_any(drive),
            },
            _ => {}
        }
    }

    /// READ DATA hears a word that didn't pass by. Most such words are bytes of its content, which have a short way
    /// here.
    #[inline(never)]
    fn hear_seen(&mut self, passing: Turn)
        requires { HasStepsLeft self.old.phase }
        ensures { HearsIn self.old.phase passing.index passing.word self.old self.new }
    {
        match &mut self.phase {
            Phase::Execute { execution } => match &mut execution.task {
                Task::Read { reading } => {
                    if reading.is_in_content() {
                        let head_drive = execution.head_drive;
                        let key = reading.wanted.key;
                        let counted = reading.counted;
                        execution.steps += 1;
                        let heard = reading.stage.hear(key, passing.word, passing.index);
                        let over = reading.is_over();
                        self.follow(head_drive, key, counted, heard, over);
                    } else {
                        self.hear_other(passing);
                    }
                }
                _ => self.hear_other(passing),
            },
            _ => {}
        }
    }

    /// READ ID and READ DATA hear a word, whatever it is.
    #[inline(never)]
    fn hear_other(&mut self, passing: Turn)
        requires { HasStepsLeft self.old.phase }
        ensures { HearsIn self.old.phase passing.index passing.word self.old self.new }
    {
        self.hear(passing);
    }

    /// A device step of a data command, by its task. The usual steps of a write and of a FORMAT are made in place.
    #[inline(never)]
    fn execute_any<D: Drive>(&mut self, drive: &mut D)
        ensures { ExecutionSteps self.old.phase self.old (D.state drive.old) (D.state drive.new) self.new }
    {
        match &self.phase {
            Phase::Execute { execution } => {
                let head_drive = execution.head_drive;
                let steps = execution.steps;
                match &execution.task {
                    Task::Write { writing } => {
                        if writing.only_hears(steps) {
                            self.hear_writing(head_drive, drive);
                        } else {
                            self.put_on(drive);
                        }
                    }
                    Task::Format { formatting } => {
                        if formatting.only_hears(steps) {
                            self.hear_formatting(head_drive, drive);
                        } else {
                            self.lay_on(drive);
                        }
                    }
                    _ => self.execute_rare(drive),
                }
            }
            _ => {}
        }
    }

    /// A device step of a data command, whatever the step is. What is done is copied here.
    #[inline(never)]
    pub(crate) fn execute_rare<D: Drive>(&mut self, drive: &mut D)
        ensures { ExecutionSteps self.old.phase self.old (D.state drive.old) (D.state drive.new) self.new }
    {
        match &self.phase {
            Phase::Execute { execution } => {
                let head_drive = execution.head_drive;
                let steps = execution.steps;
                match &execution.task {
                    Task::ReadId { .. } | Task::Read { .. } => {
                        let task = execution.task;
                        self.listen_on(head_drive, steps, task, drive);
                    }
                    Task::Write { writing } => {
                        let writing = *writing;
                        self.step_writing(head_drive, steps, writing, drive);
                    }
                    Task::Format { formatting } => {
                        let formatting = *formatting;
                        self.step_formatting(head_drive, steps, formatting, drive);
                    }
                }
            }
            _ => {}
        }
    }

    /// A device step of a data command where no drive is selected, by its task.
    #[inline(never)]
    fn execute_empty(&mut self, execution: Execution)
        requires { self.old.phase ≡ Phase.Execute execution }
        ensures { TaskStepsNowhere execution.task execution.head_drive execution.steps self.old self.new }
    {
        let Execution {
            head_drive,
            steps,
            task,
        } = execution;
        if steps == LAST_STEP {
            self.finish(Ending::Late, head_drive, task.key_as_sent());
            return;
        }
        match task {
            Task::ReadId { .. } | Task::Read { .. } => self.hear(NOTHING),
            Task::Write { .. } | Task::Format { .. } => self.hear_to_write(NOTHING),
        }
    }

    /// A device step of a READ ID or READ DATA, after `steps` others.
    #[inline(always)]
    fn listen_on<D: Drive>(&mut self, head_drive: u8, steps: u16, task: Task, drive: &mut D)
        requires { self.old.phase ≡ Phase.Execute (record { head_drive = head_drive; steps = steps; task = task }) }
        ensures { IsListenStep head_drive steps task self.old (D.state drive.old) (D.state drive.new) self.new }
    {
        if steps == LAST_STEP {
            self.stop(Ending::Late, head_drive, task.key_as_sent(), drive);
            return;
        }
        let passing = listen(self.rate, head_of(head_drive), drive);
        self.hear(passing);
    }

    /// READ ID and READ DATA hear a word. It is heard in place, since a stage is large.
    #[inline(always)]
    fn hear(&mut self, passing: Turn)
        requires { HasStepsLeft self.old.phase }
        ensures { HearsIn self.old.phase passing.index passing.word self.old self.new }
    {
        match &mut self.phase {
            Phase::Execute { execution } => {
                let head_drive = execution.head_drive;
                execution.steps += 1;
                match &mut execution.task {
                    Task::ReadId { search } => {
                        let searched = search.hear(None, passing.word, passing.index);
                        self.follow_id(head_drive, searched);
                    }
                    Task::Read { reading } => {
                        let key = reading.wanted.key;
                        let counted = reading.counted;
                        let heard = reading.stage.hear(key, passing.word, passing.index);
                        let over = reading.is_over();
                        self.follow(head_drive, key, counted, heard, over);
                    }
                    Task::Write { .. } | Task::Format { .. } => {}
                }
            }
            _ => {}
        }
    }

    /// The command ends in this step: the gate is closed, and no word is read or written.
    #[inline(never)]
    pub(crate) fn stop<D: Drive>(
        &mut self,
        ending: Ending,
        head_drive: u8,
        key: Chrn,
        drive: &mut D,
    )
        ensures state { self.new ≡ finished ending head_drive key self.old }
        ensures drive { D.state drive.new ≡ let_pass (D.state drive.old) }
    {
        drive.idle();
        self.finish(ending, head_drive, key);
    }
}

/// The word that a controller of this rate sees in this word time. It is 0000 where the rate isn't the medium's. The
/// gate is closed.
#[inline(always)]
pub(crate) fn listen<D: Drive>(rate: DataRate, head: u8, drive: &mut D) -> Turn
    ensures word { SeesUnder rate head (D.state drive.old) result.word (D.state drive.new) }
    ensures index { result.index ≡ at_index (D.state drive.old) }
    ensures drive { Becomes (let_pass (D.state drive.old)) (D.state drive.old) (D.state drive.new) }
{
    let heard = drive.listen(head);
    seen(rate, heard)
}

/// What a drive gives, as a controller of this rate sees it.
#[inline(always)]
fn seen(rate: DataRate, heard: Heard) -> Turn
    ensures word { result.word ≡ seen_of (rate_fits rate heard.rate) heard.turn.word }
    ensures index { result.index ≡ heard.turn.index }
{
    if rate.fits(heard.rate) {
        return heard.turn;
    }
    Turn {
        word: 0,
        index: heard.turn.index,
    }
}

/// Lets a word of a drive of the controller's rate pass by a READ DATA. Returns whether it passed. If it didn't,
/// nothing changes.
#[inline(always)]
fn pass_by(stage: &mut ReadStage, rate: DataRate, heard: Heard) -> bool
    ensures passed { result ≡ true → (rate_fits rate heard.rate ≡ true) × (heard.turn.index ≡ false)
        × PassesBy heard.turn.word stage.old stage.new }
    ensures others { result ≡ false → stage.new ≡ stage.old }
{
    rate.fits(heard.rate) && stage.pass_by(heard.turn.word, heard.turn.index)
}
