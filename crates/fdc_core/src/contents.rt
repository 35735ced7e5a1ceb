// The bytes of a content, in many device steps at once.
ghost use Rattle.std.specs.Prelude.{◌≡◌, ◌≤◌, ◌+◌, ◌∷◌, ℕ, [], true, false, length, take};
ghost use Rattle.fdc_core.specs.Common.{rate_of, wants, rate_fits};
ghost use Rattle.fdc_core.specs.Contents.{with_bytes, TakesByte, TakesBytes, HasSpace, HasRoom, TakesMany};
ghost use Rattle.fdc_core.specs.Courses.{Courses, IsQuiet};

use crate::controller::Fdc;
use crate::courses::first_words;
use drive_model::Drive;
use fdc_phases::{Phase, Task, head_of};
use fdc_registers::Fifo;
use fdc_stages::ReadStage;

impl Fdc {
    /// Makes device steps at once with the selected drive, for as long as a READ DATA hears bytes of its content and
    /// DRQ stays down. Returns how many it made, at most `most`.
    #[tactic(auto, unfolding(crate::specs::Courses::Courses))]
    pub(crate) fn read_content<D: Drive>(&mut self, most: u32, drive: &mut D) -> u32
        requires quiet { IsQuiet self.old }
        requires fits { rate_fits self.old.rate (rate_of (D.state drive.old).medium) ≡ true }
        ensures few { result ≤ most }
        ensures courses { Courses result self.old (D.state drive.old) self.new (D.state drive.new) }
    {
        if self.fifo.wants(true, false, false) {
            return 0;
        }
        match &mut self.phase {
            Phase::Execute { execution } => match &mut execution.task {
                Task::Read { reading } => {
                    let head = head_of(execution.head_drive);
                    let counted = reading.counted;
                    take_many(
                        &mut reading.stage,
                        &mut self.fifo,
                        counted,
                        head,
                        &mut execution.steps,
                        most,
                        drive,
                    )
                }
                _ => 0,
            },
            _ => 0,
        }
    }
}

/// A stage hears the words ahead under a head, for as long as they give bytes of a content, DRQ stays down and the last
/// step isn't reached. Each is a device step, with the gate closed.
#[inline(always)]
fn take_many<D: Drive>(
    stage: &mut ReadStage,
    fifo: &mut Fifo,
    counted: bool,
    head: u8,
    steps: &mut u16,
    most: u32,
    drive: &mut D,
) -> u32
    requires low { wants true false false fifo.old ≡ false }
    ensures few { result ≤ most }
    ensures takes { TakesMany head steps.old steps.new result counted stage.old stage.new fifo.old fifo.new
        (D.state drive.old) (D.state drive.new) }
{
    let room = room_for(fifo, counted, most);
    let words = first_words(drive.ahead(head), *steps, room);
    let taken = take_bytes(stage, fifo, counted, words);
    *steps += taken as u16;
    drive.let_pass(taken as u32);
    taken as u32
}

/// How many bytes can come with DRQ down, at most `most`. After the terminal count they are dropped.
pub(crate) fn room_for(fifo: &Fifo, counted: bool, most: u32) -> u32
    requires low { wants true false false fifo.now ≡ false }
    ensures few { result ≤ most }
    ensures room { HasRoom result counted fifo.now }
    ensures longest { (n : ℕ) → n ≤ most → HasRoom n counted fifo.now → n ≤ result }
{
    if counted {
        return most;
    }
    (most as usize).min(fifo.quiet_room()) as u32
}

/// A stage hears the first of these words, for as long as they give bytes of a content. Returns how many. The bytes go
/// to the FIFO.
fn take_bytes(stage: &mut ReadStage, fifo: &mut Fifo, counted: bool, words: &[u16]) -> usize
    requires space { HasSpace (length words.now) counted fifo.old }
    ensures within { result ≤ length words.now }
    ensures takes { TakesBytes (take result words.now) counted stage.old stage.new fifo.old fifo.new }
{
    for i in 0..words.len() {
        if !take_byte(stage, fifo, counted, words[i]) {
            return i;
        }
    }
    words.len()
}

/// A stage hears a word, and its byte of a content goes to the FIFO. Returns whether there was a byte. If there was
/// none, nothing changes.
#[inline(always)]
fn take_byte(stage: &mut ReadStage, fifo: &mut Fifo, counted: bool, word: u16) -> bool
    requires space { HasSpace 1 counted fifo.old }
    ensures taken { result ≡ true → TakesByte word counted stage.old stage.new fifo.old fifo.new }
    ensures other_stage { result ≡ false → stage.new ≡ stage.old }
    ensures other_fifo { result ≡ false → fifo.new ≡ fifo.old }
{
    match stage.next_byte(word) {
        Some(value) => {
            keep_byte(fifo, counted, value);
            true
        }
        None => false,
    }
}

/// A byte goes to the FIFO. After the terminal count it is dropped.
#[inline(always)]
fn keep_byte(fifo: &mut Fifo, counted: bool, value: u8)
    requires space { HasSpace 1 counted fifo.old }
    ensures { fifo.new ≡ with_bytes counted (value ∷ []) fifo.old }
{
    if counted {
        return;
    }
    match fifo.push(value) {
        Ok(()) => {}
        Err(_) => {}
    }
}
