// How long a data command surely leaves both lines as they are.
ghost use Rattle.std.specs.Prelude.{◌≡◌, ◌≤◌, ◌<◌, ◌+◌, ℕ, true, false, IfSome, None, Option, List, length, take};
ghost use Rattle.fdc_core.specs.Common.{Chrn, InRange, Numbers, Past, rate_of, IsContent, is_due, mark_at, rate_fits, wants};
ghost use Rattle.fdc_stages.specs.Formats.{IsFormatting};
ghost use Rattle.fdc_stages.specs.Writings.{is_search};
ghost use Rattle.fdc_phases.specs.declared.phases.Phase.TheVariants as phases;
ghost use Rattle.fdc_phases.specs.declared.phases.Task.TheVariants as tasks;
ghost use Rattle.fdc_core.specs.Courses.{IsQuiet};
ghost use Rattle.fdc_core.specs.Quiet.{Foresees, HasBytesLeft, HasMostLeft, HasSupply, IsLongest, LaysWith, MarksBy, MarksNothing, MeetsBy, MeetsNothing};

use crate::contents::room_for;
use crate::controller::Fdc;
use crate::courses::first_words;
use drive_model::Drive;
use fdc_phases::{Execution, Formatting, Phase, Reading, Task, Writing, head_of};
use fdc_registers::Fifo;
use fdc_stages::{FormatNext, FormatStage, ReadHeard, ReadStage, Search, Searched, WriteStage};
use flop_base::Chrn;

/// Nothing is said of the next device step.
const UNKNOWN: u32 = 0;

/// A byte of a sector ID that isn't known yet. How many words a layout has doesn't depend on it.
const ANY_BYTE: u8 = 0x00;

impl Fdc {
    /// This many device steps with the selected drive, at most `most`, surely change neither line. In them no data
    /// command ends, and no data mark is met. In a FORMAT TRACK, and in a write after its search, this holds whatever the
    /// drive does. Else it holds if no fault can come, if the track is Plain and, for a READ DATA, if it has the sector ID
    /// once.
    ///
    /// In a READ ID these are the steps until an address field ends. In a READ DATA they are those until the data mark,
    /// and then those until the FIFO asks or the last byte of the content comes. In a write they are those until the
    /// address field of its sector ends, and then those until the FIFO asks or the last word of the window is written. In
    /// a FORMAT TRACK they are those until the FIFO asks. The index ends them too. If no fault can come, `longest` says
    /// how large the number is at least. It is 0 in all other cases, in the first step of a write and of a FORMAT TRACK,
    /// while DRQ is up, and at another rate than the medium's.
    pub fn quiet_ahead<D: Drive>(&self, most: u32, drive: &D) -> u32
        ensures few { result ≤ most }
        ensures foresees { Foresees result self.now (D.state drive.now) }
        ensures longest { IsLongest most result self.now (D.state drive.now) }
    {
        if self.poll_due || self.asking {
            return UNKNOWN;
        }
        // Its contract says that the drive is in its ranges.
        drive.faults();
        let rate = drive.rate();
        if self.rate.fits(rate) {
            self.quiet_task(most, drive)
        } else {
            UNKNOWN
        }
    }

    /// `quiet_ahead`, by the task.
    #[tactic(auto, using(crate::proofs::Foreseeing::nothing_foreseen))]
    fn quiet_task<D: Drive>(&self, most: u32, drive: &D) -> u32
        requires quiet { IsQuiet self.now }
        requires fits { rate_fits self.now.rate (rate_of (D.state drive.now).medium) ≡ true }
        requires range { InRange (D.state drive.now) }
        ensures few { result ≤ most }
        ensures foresees { Foresees result self.now (D.state drive.now) }
        ensures longest { IsLongest most result self.now (D.state drive.now) }
    {
        match &self.phase {
            Phase::Execute { execution } => match &execution.task {
                Task::ReadId { search } => {
                    self.quiet_identifying(execution, *search, most, drive)
                }
                Task::Read { reading } => self.quiet_reading(execution, reading, most, drive),
                Task::Write { writing } => self.quiet_writing(execution, writing, most, drive),
                Task::Format { formatting } => {
                    self.quiet_formatting(execution, formatting, most, drive)
                }
            },
            _ => UNKNOWN,
        }
    }

    /// `quiet_ahead` of a READ ID.
    fn quiet_identifying<D: Drive>(
        &self,
        execution: &Execution,
        search: Search,
        most: u32,
        drive: &D,
    ) -> u32
        requires quiet { IsQuiet self.now }
        requires fits { rate_fits self.now.rate (rate_of (D.state drive.now).medium) ≡ true }
        requires range { InRange (D.state drive.now) }
        requires executes { self.now.phase ≡ phases.Execute execution.now }
        requires identifies { execution.now.task ≡ tasks.ReadId search }
        ensures few { result ≤ most }
        ensures foresees { Foresees result self.now (D.state drive.now) }
        ensures longest { IsLongest most result self.now (D.state drive.now) }
    {
        let head = head_of(execution.head_drive);
        let words = first_words(drive.ahead(head), execution.steps, most);
        count_searching(search, None, words) as u32
    }

    /// `quiet_ahead` of a write, whose first step may meet a protected medium.
    fn quiet_writing<D: Drive>(
        &self,
        execution: &Execution,
        writing: &Writing,
        most: u32,
        drive: &D,
    ) -> u32
        requires quiet { IsQuiet self.now }
        requires fits { rate_fits self.now.rate (rate_of (D.state drive.now).medium) ≡ true }
        requires range { InRange (D.state drive.now) }
        requires executes { self.now.phase ≡ phases.Execute execution.now }
        requires writes { execution.now.task ≡ tasks.Write writing.now }
        ensures few { result ≤ most }
        ensures foresees { Foresees result self.now (D.state drive.now) }
        ensures longest { IsLongest most result self.now (D.state drive.now) }
    {
        let asks = self.fifo.wants(false, false, writing.counted);
        if asks {
            return UNKNOWN;
        }
        if execution.steps == 0 {
            return UNKNOWN;
        }
        match &writing.stage {
            WriteStage::Search(search) => {
                let head = head_of(execution.head_drive);
                let words = first_words(drive.ahead(head), execution.steps, most);
                count_searching(*search, Some(writing.wanted.key), words) as u32
            }
            _ => self.quiet_filling(execution, writing, most, drive),
        }
    }

    /// `quiet_ahead` of a write that has met its address field.
    fn quiet_filling<D: Drive>(
        &self,
        execution: &Execution,
        writing: &Writing,
        most: u32,
        drive: &D,
    ) -> u32
        requires quiet { IsQuiet self.now }
        requires fits { rate_fits self.now.rate (rate_of (D.state drive.now).medium) ≡ true }
        requires executes { self.now.phase ≡ phases.Execute execution.now }
        requires writes { execution.now.task ≡ tasks.Write writing.now }
        requires low { wants false false writing.now.counted self.now.fifo ≡ false }
        requires later { 1 ≤ execution.now.steps }
        requires found { is_search writing.now.stage ≡ false }
        ensures few { result ≤ most }
        ensures foresees { Foresees result self.now (D.state drive.now) }
        ensures longest { IsLongest most result self.now (D.state drive.now) }
    {
        let head = head_of(execution.head_drive);
        let words = first_words(drive.ahead(head), execution.steps, most);
        let bytes = supply_for(&self.fifo, writing.counted, most);
        let filled = writing.stage.words_with(writing.wanted.key, bytes);
        words.len().min(filled) as u32
    }

    /// `quiet_ahead` of a FORMAT, whose first step may meet a protected medium.
    fn quiet_formatting<D: Drive>(
        &self,
        execution: &Execution,
        formatting: &Formatting,
        most: u32,
        drive: &D,
    ) -> u32
        requires quiet { IsQuiet self.now }
        requires fits { rate_fits self.now.rate (rate_of (D.state drive.now).medium) ≡ true }
        requires executes { self.now.phase ≡ phases.Execute execution.now }
        requires formats { execution.now.task ≡ tasks.Format formatting.now }
        ensures few { result ≤ most }
        ensures foresees { Foresees result self.now (D.state drive.now) }
        ensures longest { IsLongest most result self.now (D.state drive.now) }
    {
        let asks = self.fifo.wants(false, false, formatting.counted);
        if asks {
            return UNKNOWN;
        }
        if execution.steps == 0 {
            return UNKNOWN;
        }
        let head = head_of(execution.head_drive);
        let words = first_words(drive.ahead(head), execution.steps, most).len();
        if !formatting.stage.is_due() {
            return words as u32;
        }
        let bytes = supply_for(&self.fifo, formatting.counted, most);
        count_laying(formatting.stage, bytes, words) as u32
    }

    /// `quiet_ahead` of a READ DATA.
    fn quiet_reading<D: Drive>(
        &self,
        execution: &Execution,
        reading: &Reading,
        most: u32,
        drive: &D,
    ) -> u32
        requires quiet { IsQuiet self.now }
        requires fits { rate_fits self.now.rate (rate_of (D.state drive.now).medium) ≡ true }
        requires range { InRange (D.state drive.now) }
        requires executes { self.now.phase ≡ phases.Execute execution.now }
        requires reads { execution.now.task ≡ tasks.Read reading.now }
        ensures few { result ≤ most }
        ensures foresees { Foresees result self.now (D.state drive.now) }
        ensures longest { IsLongest most result self.now (D.state drive.now) }
    {
        if self.fifo.wants(true, false, false) {
            return UNKNOWN;
        }
        let head = head_of(execution.head_drive);
        match &reading.stage {
            ReadStage::Content { .. } => {
                // One byte more has to come, so that the field surely isn't over.
                let room = room_for(&self.fifo, reading.counted, most);
                let more = room.saturating_add(1);
                let words = first_words(drive.ahead(head), execution.steps, more);
                count_bytes(reading.stage, words).saturating_sub(1) as u32
            }
            ReadStage::Over { .. } => UNKNOWN,
            _ => {
                let words = first_words(drive.ahead(head), execution.steps, most);
                count_unmarked(*reading, words) as u32
            }
        }
    }
}

/// How many of these words a search would hear before it meets an address field that is wanted. No index pulse follows
/// any of them.
fn count_searching(mut search: Search, wanted: Option<Chrn>, words: &[u16]) -> usize
    ensures within { result ≤ length words.now }
    ensures meets { MeetsNothing wanted (take result words.now) search }
    ensures longest { result < length words.now → MeetsBy wanted (take (result + 1) words.now) search }
{
    for i in 0..words.len() {
        match search.hear(wanted, words[i], false) {
            Searched::On => {}
            _ => return i,
        }
    }
    words.len()
}

/// How many of these words a reading would hear before it meets its data mark. No index pulse follows any of them.
fn count_unmarked(reading: Reading, words: &[u16]) -> usize
    ensures within { result ≤ length words.now }
    ensures marks { MarksNothing reading.wanted.key (take result words.now) reading.stage }
    ensures longest { result < length words.now → MarksBy reading.wanted.key (take (result + 1) words.now) reading.stage }
{
    let key = reading.wanted.key;
    let mut stage = reading.stage;
    for i in 0..words.len() {
        let heard = stage.hear(key, words[i], false);
        if !is_unmarked(heard, &stage) {
            return i;
        }
    }
    words.len()
}

/// Whether a reading goes on after a word, and has met no data mark.
fn is_unmarked(heard: ReadHeard, stage: &ReadStage) -> bool
    ensures goes_on { result ≡ true → heard ≡ ReadHeard.On }
    ensures unmarked { result ≡ true → mark_at stage.now ≡ None }
    ensures over { result ≡ false → heard ≡ ReadHeard.On → mark_at stage.now ≡ None → ⊥ }
{
    match heard {
        ReadHeard::On => matches!(stage, ReadStage::Search(_) | ReadStage::Wait(_)),
        _ => false,
    }
}

/// How many of these words a reading would hear that give bytes of its content. No index pulse follows any of them.
fn count_bytes(mut stage: ReadStage, words: &[u16]) -> usize
    requires content { IsContent stage }
    ensures within { result ≤ length words.now }
    ensures left { HasBytesLeft result stage }
    ensures longest { result < length words.now → HasMostLeft result stage }
{
    for i in 0..words.len() {
        match stage.next_byte(words[i]) {
            Some(_) => {}
            None => return i,
        }
    }
    words.len()
}

/// How many bytes from memory can be taken with DRQ down, at most `most`. After the terminal count none is missing.
fn supply_for(fifo: &Fifo, counted: bool, most: u32) -> usize
    requires low { wants false false counted fifo.now ≡ false }
    ensures few { result ≤ most }
    ensures supply { HasSupply result counted fifo.now }
    ensures longest { (n : ℕ) → n ≤ most → HasSupply n counted fifo.now → n ≤ result }
{
    if counted {
        return most as usize;
    }
    fifo.quiet_supply().min(most as usize)
}

/// How many words of a layout, at most `most`, are written with so many bytes of sector IDs.
fn count_laying(mut stage: FormatStage, bytes: usize, most: usize) -> usize
    requires due { is_due stage ≡ true }
    ensures few { result ≤ most }
    ensures lays { (past : Past) (numbers : Numbers) (handed : List ℕ) → IsFormatting past numbers handed stage
        → LaysWith result bytes numbers past }
    ensures longest { (past : Past) (numbers : Numbers) (handed : List ℕ) → IsFormatting past numbers handed stage
        → result < most → LaysWith (result + 1) bytes numbers past → ⊥ }
{
    let mut left = bytes;
    for i in 0..most {
        let Some(rest) = left_after(stage.needs_byte(), left) else {
            return i;
        };
        match stage.write(ANY_BYTE).after(false) {
            FormatNext::On(next) => stage = next,
            FormatNext::Ended { .. } => return i,
        }
        left = rest;
    }
    most
}

/// How many bytes are left after a word, which takes one or doesn't. None if the byte is missing.
fn left_after(takes: bool, left: usize) -> Option<usize>
    ensures taken { takes ≡ true → IfSome result (λ rest. rest + 1 ≡ left) }
    ensures kept { takes ≡ false → IfSome result (λ rest. rest ≡ left) }
    ensures needed { result ≡ None → takes ≡ true }
    ensures missing { result ≡ None → left ≡ 0 }
{
    if takes {
        left.checked_sub(1)
    } else {
        Some(left)
    }
}
