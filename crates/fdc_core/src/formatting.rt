// FORMAT TRACK, word by word.
ghost use Rattle.std.specs.Prelude.{◌≡◌, ◌<◌, ◌+◌, ℕ, Bool, true};
ghost use Rattle.fdc_core.specs.Common.{rate_of, opens, is_due, rate_fits, IsFormattingAt};
ghost use Rattle.fdc_core.specs.Formatting.{IsFormatStep, IsFormatTime, AwaitsIndex, LaysByte, after_laid};
ghost use Rattle.fdc_core.specs.Listening.{HasStepsLeft};

use crate::controller::Fdc;
use crate::steps::listen;
use crate::writing::{close_behind, open_before};
use drive_model::Drive;
use fdc_phases::{Formatting, LAST_STEP, NO_KEY, Task, head_of, is_format_over};
use fdc_stages::{Ending, FormatNext};

impl Fdc {
    /// A device step of a FORMAT, after `steps` others. A protected medium is met in the first.
    pub(crate) fn step_formatting<D: Drive>(
        &mut self,
        head_drive: u8,
        steps: u16,
        formatting: Formatting,
        drive: &mut D,
    )
        requires { IsFormattingAt head_drive steps formatting self.old.phase }
        ensures { IsFormatStep head_drive steps formatting self.old (D.state drive.old) (D.state drive.new) self.new }
    {
        if steps == LAST_STEP {
            self.stop(Ending::Late, head_drive, NO_KEY, drive);
        } else if steps == 0 && drive.protected() {
            self.stop(Ending::Protected, head_drive, NO_KEY, drive);
        } else {
            self.format_on(head_drive, steps, formatting, drive);
        }
    }

    /// The word is heard or written.
    fn format_on<D: Drive>(
        &mut self,
        head_drive: u8,
        steps: u16,
        formatting: Formatting,
        drive: &mut D,
    )
        requires few { steps < 65535 }
        requires at { IsFormattingAt head_drive steps formatting self.old.phase }
        ensures { IsFormatTime head_drive steps formatting self.old (D.state drive.old) (D.state drive.new) self.new }
    {
        if formatting.stage.opens() {
            self.open_track(head_drive, steps, formatting, drive);
        } else if formatting.stage.is_due() {
            self.go_on_track(head_drive, steps, formatting, drive);
        } else {
            self.hear_formatting(head_drive, drive);
        }
    }

    /// The word is heard.
    #[inline(always)]
    pub(crate) fn hear_formatting<D: Drive>(&mut self, head_drive: u8, drive: &mut D)
        requires { HasStepsLeft self.old.phase }
        ensures { (steps : ℕ) (formatting : Formatting) → IsFormattingAt head_drive steps formatting self.old.phase
            → AwaitsIndex head_drive steps formatting self.old (D.state drive.old) (D.state drive.new) self.new }
    {
        let passing = listen(self.rate, head_of(head_drive), drive);
        self.hear_to_write(passing);
    }

    /// The first word of the layout is written, where the rate is the medium's.
    fn open_track<D: Drive>(
        &mut self,
        head_drive: u8,
        steps: u16,
        formatting: Formatting,
        drive: &mut D,
    )
        requires few { steps < 65535 }
        requires at { IsFormattingAt head_drive steps formatting self.old.phase }
        requires opens { opens formatting.stage ≡ true }
        ensures { IsFormatTime head_drive steps formatting self.old (D.state drive.old) (D.state drive.new) self.new }
    {
        if self.rate.fits(drive.rate()) {
            self.go_on_track(head_drive, steps, formatting, drive);
        } else {
            self.hear_formatting(head_drive, drive);
        }
    }

    /// The next word of the layout is written, unless its byte is missing.
    fn go_on_track<D: Drive>(
        &mut self,
        head_drive: u8,
        steps: u16,
        formatting: Formatting,
        drive: &mut D,
    )
        requires few { steps < 65535 }
        requires fits { opens formatting.stage ≡ true → rate_fits self.old.rate (rate_of (D.state drive.old).medium) ≡ true }
        requires due { is_due formatting.stage ≡ true }
        ensures { IsFormatTime head_drive steps formatting self.old (D.state drive.old) (D.state drive.new) self.new }
    {
        let takes = formatting.stage.needs_byte();
        match self.take_byte_for(takes, formatting.counted) {
            Some(byte) => self.lay_word(head_drive, steps, formatting, byte, drive),
            None => self.stop(Ending::Overrun, head_drive, NO_KEY, drive),
        }
    }

    /// Writes the next word. The gate opens before the first word, and closes after the last.
    fn lay_word<D: Drive>(
        &mut self,
        head_drive: u8,
        steps: u16,
        formatting: Formatting,
        byte: u8,
        drive: &mut D,
    )
        requires { steps < 65535 }
        ensures { (takes : Bool) → LaysByte head_drive steps formatting takes byte self.old (D.state drive.old) (D.state drive.new) self.new }
    {
        open_before(formatting.stage.opens(), drive);
        let given = formatting.stage.write(byte);
        let index = drive.write_word(head_of(head_drive), given.word);
        let next = given.after(index);
        close_behind(is_format_over(next), drive);
        self.follow_formatting(head_drive, steps + 1, formatting, next);
    }

    /// The FORMAT does what the word that passed asks for.
    fn follow_formatting(
        &mut self,
        head_drive: u8,
        steps: u16,
        formatting: Formatting,
        next: FormatNext,
    )
        ensures { self.new ≡ after_laid head_drive steps formatting next self.old }
    {
        match next {
            FormatNext::On(stage) => self.go_on(
                head_drive,
                steps,
                Task::Format {
                    formatting: formatting.at(stage),
                },
            ),
            FormatNext::Ended { ending, key } => self.finish(ending, head_drive, key),
        }
    }
}
