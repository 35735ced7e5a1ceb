// WRITE DATA and WRITE DELETED, word by word.
ghost use Rattle.std.specs.Prelude.{◌≡◌, ◌<◌, ◌+◌, ℕ, true, false};
ghost use Rattle.fdc_core.specs.Common.{rate_of, rate_fits, IsWritingAt};
ghost use Rattle.fdc_stages.specs.Writings.{opens, is_due};
ghost use Rattle.fdc_core.specs.Times.{Opens, Closes};
ghost use Rattle.fdc_core.specs.Listening.{HasStepsLeft};
ghost use Rattle.fdc_core.specs.Writing.{IsWriteStep, IsWriteTime, HearsAWord, PutsByte, after_next, byte_taken, without_byte, fifo_without};

use crate::controller::Fdc;
use crate::steps::listen;
use drive_model::Drive;
use fdc_phases::{LAST_STEP, Task, Writing, head_of, is_write_over};
use fdc_registers::Fifo;
use fdc_stages::{Ending, WriteNext};

/// What is recorded where no byte is needed, or where none came before the terminal count.
const NO_BYTE: u8 = 0x00;

impl Fdc {
    /// A device step of a write, after `steps` others. A protected medium is met in the first.
    pub(crate) fn step_writing<D: Drive>(
        &mut self,
        head_drive: u8,
        steps: u16,
        writing: Writing,
        drive: &mut D,
    )
        requires { IsWritingAt head_drive steps writing self.old.phase }
        ensures { IsWriteStep head_drive steps writing self.old (D.state drive.old) (D.state drive.new) self.new }
    {
        if steps == LAST_STEP {
            self.stop(Ending::Late, head_drive, writing.wanted.key, drive);
        } else if steps == 0 && drive.protected() {
            self.stop(Ending::Protected, head_drive, writing.wanted.key, drive);
        } else {
            self.write_on(head_drive, steps, writing, drive);
        }
    }

    /// The word is heard or written.
    fn write_on<D: Drive>(&mut self, head_drive: u8, steps: u16, writing: Writing, drive: &mut D)
        requires few { steps < 65535 }
        requires at { IsWritingAt head_drive steps writing self.old.phase }
        ensures { IsWriteTime head_drive steps writing self.old (D.state drive.old) (D.state drive.new) self.new }
    {
        if writing.stage.opens() {
            self.open_window(head_drive, steps, writing, drive);
        } else if writing.stage.is_due() {
            self.go_on_window(head_drive, steps, writing, drive);
        } else {
            self.hear_writing(head_drive, drive);
        }
    }

    /// The word is heard.
    #[inline(always)]
    pub(crate) fn hear_writing<D: Drive>(&mut self, head_drive: u8, drive: &mut D)
        requires { HasStepsLeft self.old.phase }
        ensures { (steps : ℕ) (writing : Writing) → IsWritingAt head_drive steps writing self.old.phase
            → HearsAWord head_drive steps writing self.old (D.state drive.old) (D.state drive.new) self.new }
    {
        let passing = listen(self.rate, head_of(head_drive), drive);
        self.hear_to_write(passing);
    }

    /// The first word of the window is written, where the rate is the medium's.
    fn open_window<D: Drive>(&mut self, head_drive: u8, steps: u16, writing: Writing, drive: &mut D)
        requires few { steps < 65535 }
        requires at { IsWritingAt head_drive steps writing self.old.phase }
        requires opens { opens writing.stage ≡ true }
        ensures { IsWriteTime head_drive steps writing self.old (D.state drive.old) (D.state drive.new) self.new }
    {
        if self.rate.fits(drive.rate()) {
            self.go_on_window(head_drive, steps, writing, drive);
        } else {
            self.hear_writing(head_drive, drive);
        }
    }

    /// The next word of the window is written, unless its byte is missing.
    fn go_on_window<D: Drive>(
        &mut self,
        head_drive: u8,
        steps: u16,
        writing: Writing,
        drive: &mut D,
    )
        requires few { steps < 65535 }
        requires fits { opens writing.stage ≡ true → rate_fits self.old.rate (rate_of (D.state drive.old).medium) ≡ true }
        requires due { is_due writing.stage ≡ true }
        ensures { IsWriteTime head_drive steps writing self.old (D.state drive.old) (D.state drive.new) self.new }
    {
        match self.take_byte_for(writing.stage.needs_byte(), writing.counted) {
            Some(byte) => self.put_word(head_drive, steps, writing, byte, drive),
            None => self.stop(Ending::Overrun, head_drive, writing.wanted.key, drive),
        }
    }

    /// Writes the next word. The gate opens before the first word, and closes after the last.
    fn put_word<D: Drive>(
        &mut self,
        head_drive: u8,
        steps: u16,
        writing: Writing,
        byte: u8,
        drive: &mut D,
    )
        requires { steps < 65535 }
        ensures { PutsByte head_drive steps writing byte self.old (D.state drive.old) (D.state drive.new) self.new }
    {
        open_before(writing.stage.opens(), drive);
        let given = writing
            .stage
            .write(writing.wanted.key, writing.deleted, byte);
        let index = drive.write_word(head_of(head_drive), given.word);
        let next = given.after(index, writing.counted);
        close_behind(is_write_over(next), drive);
        self.follow_writing(head_drive, steps + 1, writing, next);
    }

    /// The write does what the word that passed asks for.
    fn follow_writing(&mut self, head_drive: u8, steps: u16, writing: Writing, next: WriteNext)
        ensures { self.new ≡ after_next head_drive steps writing next self.old }
    {
        match next {
            WriteNext::On(stage) => self.go_on(
                head_drive,
                steps,
                Task::Write {
                    writing: writing.at(stage),
                },
            ),
            WriteNext::Ended(ending) => self.finish(ending, head_drive, writing.key_after(ending)),
        }
    }

    /// Takes the byte of the next word.
    pub(crate) fn take_byte_for(&mut self, needs: bool, counted: bool) -> Option<u8>
        ensures byte { result ≡ byte_taken needs counted self.old.fifo }
        ensures after { self.new ≡ without_byte needs self.old }
    {
        take_byte(&mut self.fifo, needs, counted)
    }
}

/// The byte that the next word records, where it needs one: the oldest in the FIFO, or 00 if the FIFO is empty after
/// the terminal count. None if the byte is missing.
#[inline(always)]
pub(crate) fn take_byte(fifo: &mut Fifo, needs: bool, counted: bool) -> Option<u8>
    ensures byte { result ≡ byte_taken needs counted fifo.old }
    ensures after { fifo.new ≡ fifo_without needs fifo.old }
{
    if !needs {
        return Some(NO_BYTE);
    }
    match fifo.pop() {
        Some(byte) => Some(byte),
        None if counted => Some(NO_BYTE),
        None => None,
    }
}

/// Opens the gate, where the word is the first.
pub(crate) fn open_before<D: Drive>(first: bool, drive: &mut D)
    ensures { Opens first (D.state drive.old) (D.state drive.new) }
{
    if first {
        drive.gate(true);
    }
}

/// Closes the gate, where the word was the last.
pub(crate) fn close_behind<D: Drive>(last: bool, drive: &mut D)
    ensures { Closes last (D.state drive.old) (D.state drive.new) }
{
    if last {
        drive.gate(false);
    }
}
