// What READ DATA, WRITE DATA, WRITE DELETED and FORMAT TRACK do.
ghost use Rattle.std.specs.Prelude.{◌≡◌, ◌<◌, ◌≤◌, IfSome, true, false};
ghost use Rattle.fdc_phases.specs.Common.{mark_at, is_open, is_due, is_format_open, is_format_due, format_next};
ghost use Rattle.fdc_phases.specs.Answers.{next_key, key_after};
ghost use Rattle.fdc_phases.specs.Formatting.{StageHearsIndex, is_ended as is_format_ended};
ghost use Rattle.fdc_phases.specs.Phases.{told, is_over, ending_of, write_at, write_told, format_at, format_told};
ghost use Rattle.fdc_phases.specs.Writing.{StageHearsWord, EndsWord, write_over, write_end, is_ended};

use crate::phases::{End, LAST_STEP};
use crate::sized_key::SizedKey;
use drive_model::Turn;
use fdc_stages::{Ending, FormatEnd, FormatNext, FormatStage, ReadStage, WriteNext, WriteStage};
use flop_base::Chrn;

/// A READ DATA.
#[derive(Clone, Copy)]
pub struct Reading {
    /// The key of the sector.
    pub wanted: SizedKey,
    /// The number of the cylinder's last sector.
    pub last_sector: u8,
    /// The terminal count came.
    pub counted: bool,
    /// How far the command is.
    pub stage: ReadStage,
}

/// A WRITE DATA or WRITE DELETED.
#[derive(Clone, Copy)]
pub struct Writing {
    /// The key of the sector.
    pub wanted: SizedKey,
    /// The data mark is F8.
    pub deleted: bool,
    /// The number of the cylinder's last sector.
    pub last_sector: u8,
    /// The terminal count came.
    pub counted: bool,
    /// How far the command is.
    pub stage: WriteStage,
}

/// A FORMAT TRACK.
#[derive(Clone, Copy)]
pub struct Formatting {
    /// The terminal count came.
    pub counted: bool,
    /// How far the command is.
    pub stage: FormatStage,
}

impl Reading {
    /// The same command once the terminal count came.
    pub(crate) fn told(self) -> Reading
        ensures { result ≡ told self }
    {
        Reading {
            counted: true,
            ..self
        }
    }

    /// The mark of the data field, once it is met.
    pub(crate) fn mark(&self) -> Option<bool>
        ensures { result ≡ mark_at self.now.stage }
    {
        match &self.stage {
            ReadStage::Content { deleted, .. } | ReadStage::Over { deleted, .. } => Some(*deleted),
            _ => None,
        }
    }

    /// Whether the content of the field passes.
    #[inline(always)]
    pub fn is_in_content(&self) -> bool {
        matches!(self.stage, ReadStage::Content { .. })
    }

    /// Whether the field is over.
    pub fn is_over(&self) -> bool
        ensures { result ≡ is_over self.now.stage }
    {
        matches!(self.stage, ReadStage::Over { .. })
    }

    /// How the command ends, if its field is over and all its bytes went to memory.
    pub(crate) fn ending(&self) -> Option<Ending>
        ensures { result ≡ ending_of self.now }
    {
        match self.stage {
            ReadStage::Over { good: false, .. } => Some(Ending::BadCheck),
            ReadStage::Over { .. } if !self.counted => Some(Ending::NoCount),
            ReadStage::Over { deleted, .. } => Some(Ending::Done { deleted }),
            _ => None,
        }
    }

    /// The key in the results of this ending.
    pub(crate) fn key_after(&self, ending: Ending) -> Chrn
        ensures { result ≡ key_after ending self.now.wanted.key self.now.last_sector }
    {
        match ending {
            Ending::Done { .. } => next_key(self.wanted.key, self.last_sector),
            _ => self.wanted.key,
        }
    }
}

impl Writing {
    /// Whether the step after `steps` others only hears a word: it isn't the first nor the last, and no word is due.
    #[inline(always)]
    pub fn only_hears(&self, steps: u16) -> bool
        ensures { result ≡ true → (1 ≤ steps) × (steps < 65535) × (is_due self.now.stage ≡ false) }
    {
        if steps == 0 || steps == LAST_STEP {
            return false;
        }
        !self.stage.is_due()
    }

    /// Hears a word, and tells how the command ends, if it ends with this word.
    #[inline(always)]
    pub fn hear(&mut self, head_drive: u8, passing: Turn) -> Option<End>
        ensures same { self.new ≡ write_at self.old self.new.stage }
        ensures hears { StageHearsWord self.old passing.index passing.word (write_over self.new.stage result) }
        ensures over { IfSome result (λ over. over ≡ write_end over.ending head_drive self.old) }
    {
        match self
            .stage
            .hear(self.wanted.key, passing.word, passing.index)
        {
            None => None,
            Some(ending) => Some(End {
                ending,
                head_drive,
                key: self.key_after(ending),
            }),
        }
    }

    /// Whether the step after `steps` others writes a word of the window that isn't its first. The step must not be the
    /// first or the last, and the gate must be open.
    #[inline(always)]
    pub fn puts_on(&self, steps: u16) -> bool
        ensures { result ≡ true → (1 ≤ steps) × (steps < 65535) × (is_open self.now.stage ≡ true) }
    {
        if steps == 0 || steps == LAST_STEP {
            return false;
        }
        self.stage.is_open()
    }

    /// How the command ends after a word of the window was written, the last one or not; none if the command goes on.
    #[inline(always)]
    pub fn end(&self, head_drive: u8, last: bool, index: bool) -> Option<End>
        ensures ends { EndsWord self.now.stage last index self.now.counted (write_over self.now.stage result) }
        ensures over { IfSome result (λ over. over ≡ write_end over.ending head_drive self.now) }
    {
        match self.stage.end(last, index, self.counted) {
            None => None,
            Some(ending) => Some(End {
                ending,
                head_drive,
                key: self.key_after(ending),
            }),
        }
    }

    /// The same command at this stage.
    pub fn at(self, stage: WriteStage) -> Writing
        ensures { result ≡ write_at self stage }
    {
        Writing { stage, ..self }
    }

    /// The same command once the terminal count came.
    pub(crate) fn told(self) -> Writing
        ensures { result ≡ write_told self }
    {
        Writing {
            counted: true,
            ..self
        }
    }

    /// The key in the results of this ending.
    pub fn key_after(&self, ending: Ending) -> Chrn
        ensures { result ≡ key_after ending self.now.wanted.key self.now.last_sector }
    {
        match ending {
            Ending::Done { .. } => next_key(self.wanted.key, self.last_sector),
            _ => self.wanted.key,
        }
    }
}

impl Formatting {
    /// Whether the step after `steps` others only hears a word: it isn't the first nor the last, and no word is due.
    #[inline(always)]
    pub fn only_hears(&self, steps: u16) -> bool
        ensures { result ≡ true → (1 ≤ steps) × (steps < 65535) × (is_format_due self.now.stage ≡ false) }
    {
        if steps == 0 || steps == LAST_STEP {
            return false;
        }
        !self.stage.is_due()
    }

    /// Whether the step after `steps` others writes a word of the layout that isn't its first. The step must not be the
    /// first or the last, and the gate must be open.
    #[inline(always)]
    pub fn lays_on(&self, steps: u16) -> bool
        ensures { result ≡ true → (1 ≤ steps) × (steps < 65535) × (is_format_open self.now.stage ≡ true) }
    {
        if steps == 0 || steps == LAST_STEP {
            return false;
        }
        self.stage.is_open()
    }

    /// Hears a word, and tells how the command ends, if it ends with this word.
    #[inline(always)]
    pub fn hear(&mut self, index: bool) -> Option<FormatEnd>
        ensures same { self.new ≡ format_at self.old self.new.stage }
        ensures hears { StageHearsIndex self.old index (format_next self.new.stage result) }
    {
        self.stage.hear(index)
    }

    /// The same command at this stage.
    pub fn at(self, stage: FormatStage) -> Formatting
        ensures { result ≡ format_at self stage }
    {
        Formatting {
            counted: self.counted,
            stage,
        }
    }

    /// The same command once the terminal count came.
    pub(crate) fn told(self) -> Formatting
        ensures { result ≡ format_told self }
    {
        Formatting {
            counted: true,
            stage: self.stage,
        }
    }
}

/// The key of the next sector: the next record, or record 1 of the next cylinder after the last record.
fn next_key(key: Chrn, last_sector: u8) -> Chrn
    ensures { result ≡ next_key key last_sector }
{
    let Chrn { c, h, r, n } = key;
    if r == last_sector {
        return Chrn {
            c: c.wrapping_add(1),
            h,
            r: 1,
            n,
        };
    }
    Chrn {
        c,
        h,
        r: r.wrapping_add(1),
        n,
    }
}

/// Whether the write is over with the word that gave this.
pub fn is_write_over(next: WriteNext) -> bool
    ensures { result ≡ is_ended next }
{
    matches!(next, WriteNext::Ended(_))
}

/// Whether the FORMAT is over with the word that gave this.
pub fn is_format_over(next: FormatNext) -> bool
    ensures { result ≡ is_format_ended next }
{
    matches!(next, FormatNext::Ended { .. })
}
