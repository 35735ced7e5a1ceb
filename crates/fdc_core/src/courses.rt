// Device steps at once.
ghost use Rattle.std.specs.Prelude.{◌≡◌, ◌≤◌, ◌+◌, ◌-◌, true, length, min, take};
ghost use Rattle.fdc_core.specs.Common.{rate_of, head_of, rate_fits, pulses_ahead};
ghost use Rattle.fdc_core.specs.Courses.{Courses, IsStill, IsQuiet, PassesMany, awaits_nothing, comes_poll, is_at_rest};

use crate::controller::Fdc;
use drive_model::Drive;
use fdc_phases::{LAST_STEP, Phase, Task, head_of};
use fdc_stages::{ReadStage, Search, WriteStage};

impl Fdc {
    /// Whether a device step changes nothing but the places of the disks. Then each further step changes no more.
    #[inline(always)]
    pub fn is_still(&self) -> bool
        ensures value { result ≡ is_at_rest self.now }
        ensures still { result ≡ true → IsStill self.now }
    {
        if self.comes_poll() {
            return false;
        }
        if self.seeks.is_seeking() {
            return false;
        }
        match &self.phase {
            Phase::Execute { .. } => false,
            _ => true,
        }
    }

    /// Whether the poll comes in the next device step. The poll waits while DOR holds the controller in reset.
    #[inline(always)]
    fn comes_poll(&self) -> bool
        ensures { result ≡ comes_poll self.now }
    {
        self.poll_due && !self.is_held()
    }

    /// Whether no poll comes in the next device step, and no result of a seek or poll is pending.
    pub fn awaits_nothing(&self) -> bool
        ensures { result ≡ awaits_nothing self.now }
    {
        if self.comes_poll() {
            return false;
        }
        !self.seeks.has_result()
    }

    /// The pulses that the seek surely still gives, or 0 if none runs. The heads of its drive stand on this cylinder.
    pub fn pulses_ahead(&self, heads: u8) -> u8
        ensures { result ≡ pulses_ahead heads self.now.seeks }
    {
        self.seeks.pulses_ahead(heads)
    }

    /// Whether `is_still` or `skim` may find steps to make at once. The answer only chooses between two ways.
    #[inline(always)]
    pub fn may_skim(&self) -> bool {
        match &self.phase {
            Phase::Execute { execution } => match &execution.task {
                Task::ReadId { .. } => true,
                Task::Read { reading } => match &reading.stage {
                    ReadStage::Search(_) => !self.asking,
                    ReadStage::Content { .. } => {
                        !self.asking && (reading.counted || self.fifo.quiet_room() != 0)
                    }
                    _ => false,
                },
                Task::Write { writing } => {
                    matches!(writing.stage, WriteStage::Search(_)) && !self.asking
                }
                Task::Format { .. } => false,
            },
            _ => true,
        }
    }

    /// Makes device steps at once with the selected drive, for as long as a search hears words in which nothing is
    /// seen, or a READ DATA hears bytes of its content and DRQ stays down. Returns how many it made, at most `most`.
    /// Where it returns 0, the next step is one for `step`.
    #[tactic(auto, unfolding(crate::specs::Courses::Courses))]
    pub fn skim<D: Drive>(&mut self, most: u32, drive: &mut D) -> u32
        ensures few { result ≤ most }
        ensures courses { Courses result self.old (D.state drive.old) self.new (D.state drive.new) }
    {
        if self.poll_due || self.asking {
            return 0;
        }
        let rate = drive.rate();
        if self.rate.fits(rate) {
            self.skim_task(most, drive)
        } else {
            0
        }
    }

    /// `skim`, by the task.
    #[tactic(auto, unfolding(crate::specs::Courses::Courses))]
    fn skim_task<D: Drive>(&mut self, most: u32, drive: &mut D) -> u32
        requires quiet { IsQuiet self.old }
        requires fits { rate_fits self.old.rate (rate_of (D.state drive.old).medium) ≡ true }
        ensures few { result ≤ most }
        ensures courses { Courses result self.old (D.state drive.old) self.new (D.state drive.new) }
    {
        match &self.phase {
            Phase::Execute { execution } => match &execution.task {
                Task::ReadId { .. } => self.skim_id(most, drive),
                Task::Read { reading } => match &reading.stage {
                    ReadStage::Search(_) => self.skim_reading(most, drive),
                    ReadStage::Content { .. } => self.read_content(most, drive),
                    _ => 0,
                },
                Task::Write { .. } => self.skim_writing(most, drive),
                Task::Format { .. } => 0,
            },
            _ => 0,
        }
    }

    /// `skim` of a READ ID.
    #[tactic(auto, unfolding(crate::specs::Courses::Courses))]
    fn skim_id<D: Drive>(&mut self, most: u32, drive: &mut D) -> u32
        requires quiet { IsQuiet self.old }
        requires fits { rate_fits self.old.rate (rate_of (D.state drive.old).medium) ≡ true }
        ensures few { result ≤ most }
        ensures courses { Courses result self.old (D.state drive.old) self.new (D.state drive.new) }
    {
        match &mut self.phase {
            Phase::Execute { execution } => match &mut execution.task {
                Task::ReadId { search } => {
                    let head_drive = execution.head_drive;
                    pass_many(search, head_drive, &mut execution.steps, most, drive)
                }
                _ => 0,
            },
            _ => 0,
        }
    }

    /// `skim` of a READ DATA.
    #[tactic(auto, unfolding(crate::specs::Courses::Courses))]
    fn skim_reading<D: Drive>(&mut self, most: u32, drive: &mut D) -> u32
        requires quiet { IsQuiet self.old }
        requires fits { rate_fits self.old.rate (rate_of (D.state drive.old).medium) ≡ true }
        ensures few { result ≤ most }
        ensures courses { Courses result self.old (D.state drive.old) self.new (D.state drive.new) }
    {
        if self.fifo.wants(true, false, false) {
            return 0;
        }
        match &mut self.phase {
            Phase::Execute { execution } => match &mut execution.task {
                Task::Read { reading } => match &mut reading.stage {
                    ReadStage::Search(search) => {
                        let head_drive = execution.head_drive;
                        pass_many(search, head_drive, &mut execution.steps, most, drive)
                    }
                    _ => 0,
                },
                _ => 0,
            },
            _ => 0,
        }
    }

    /// `skim` of a write, whose first step may meet a protected medium.
    #[tactic(auto, unfolding(crate::specs::Courses::Courses))]
    fn skim_writing<D: Drive>(&mut self, most: u32, drive: &mut D) -> u32
        requires quiet { IsQuiet self.old }
        requires fits { rate_fits self.old.rate (rate_of (D.state drive.old).medium) ≡ true }
        ensures few { result ≤ most }
        ensures courses { Courses result self.old (D.state drive.old) self.new (D.state drive.new) }
    {
        match &mut self.phase {
            Phase::Execute { execution } => match &mut execution.task {
                Task::Write { writing } => {
                    let asks = self.fifo.wants(false, false, writing.counted);
                    if asks || execution.steps == 0 {
                        return 0;
                    }
                    match &mut writing.stage {
                        WriteStage::Search(search) => {
                            let head_drive = execution.head_drive;
                            pass_many(search, head_drive, &mut execution.steps, most, drive)
                        }
                        _ => 0,
                    }
                }
                _ => 0,
            },
            _ => 0,
        }
    }
}

/// A search hears the words ahead under a head, for as long as nothing is seen in them and the last step isn't reached.
/// Each is a device step, with the gate closed.
#[inline(always)]
fn pass_many<D: Drive>(
    search: &mut Search,
    head_drive: u8,
    steps: &mut u16,
    most: u32,
    drive: &mut D,
) -> u32
    ensures few { result ≤ most }
    ensures passes { PassesMany (head_of head_drive) steps.old steps.new result search.old search.new (D.state drive.old) (D.state drive.new) }
{
    let words = first_words(drive.ahead(head_of(head_drive)), *steps, most);
    let heard = search.pass_many(words);
    *steps += heard as u16;
    drive.let_pass(heard as u32);
    heard as u32
}

/// The first of these words that a data command may hear after `steps` device steps, at most `most`. Its last step
/// hears none.
pub(crate) fn first_words(words: &[u16], steps: u16, most: u32) -> &[u16]
    ensures first { result.now ≡ take (length result.now) words.now }
    ensures few { length result.now ≤ most }
    ensures left { steps + length result.now ≤ 65535 }
    ensures all { length result.now ≡ min (length words.now) (min most (65535 - steps)) }
{
    let left = LAST_STEP - steps;
    let count = words.len().min(most as usize).min(usize::from(left));
    &words[..count]
}
