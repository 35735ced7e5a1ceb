// The controller and its drives: ports, device steps, and the controller's lines.
ghost use Rattle.std.specs.Prelude.{◌≡◌, ◌≤◌, ◌%◌, Bool, IfOk, IsTrue, IsFalse, true};
ghost use Rattle.fdc_sequencer.specs.WordTimes.{nanoseconds};
ghost use Rattle.fdc_sequencer.specs.History.{gave_if, took_if};
ghost use Rattle.fdc_sequencer.specs.Common.{told_count, to_memory_of, Sent, told_in, is_executing, value_read, after_read, Writes, asks, interrupts, dor_of, data_rate, Past, WordTimes, LinesValue};
ghost use Rattle.fdc_core.specs.Heard.{MayRead};
ghost use Rattle.fdc_core.specs.Written.{KeepsKnown, MayWrite};

mod bays;
mod rates;
mod refitting;
mod saving;
mod senses;
mod still;
mod whole;

use crate::adapter::rates::word_time_after;
use drive_model::Inspect;
use fdc_core::drives::{follow_write, lines, may_leap, pass_word_time, pass_word_times};
use fdc_core::{Fdc, Lines};
use flop_base::NoMemory;
use std::alloc::Global;

/// A controller with a drive in each of its two bays.
#[derive(Drop)]
pub struct DisketteAdapter<D> {
    pub(crate) controller: Fdc,
    pub(crate) first: D,
    pub(crate) second: D,
    /// The nanoseconds of a word time.
    word_time: u32,
    ghost at_rate: { word_time ≡ nanoseconds (data_rate controller) },
}

impl<D: Inspect> DisketteAdapter<D> {
    ghost use Rattle.fdc_sequencer.specs.Adapters.{adapter_state, controller_of, lines_at, SameDrives, IsNewAdapter, WritesAdapter, Takes, Gives, HasLines, StepsAdapter, LeapsAdapter, RunsTo, RunsWith, selected_at};

    /// The controller in reset, with two drives. The motors of the drives are turned off.
    pub fn new(alloc: Global, bay0: D, bay1: D) -> Result<DisketteAdapter<D>, NoMemory>
        ensures { IfOk result (λ adapter. IsNewAdapter (D.state bay0) (D.state bay1) (adapter_state D.state adapter)) }
    {
        let controller = Fdc::new(alloc)?;
        let mut first = bay0;
        first.motor(false);
        let mut second = bay1;
        second.motor(false);
        Ok(DisketteAdapter {
            controller,
            first,
            second,
            word_time: 32_000,
        })
    }

    /// Reads a port, 3F0 to 3F7.
    pub fn read(&mut self, port: u16) -> u8
        ensures value { result ≡ value_read port (lines_at (adapter_state D.state self.old)) (controller_of self.old) }
        ensures after { controller_of self.new ≡ after_read port (controller_of self.old) }
        ensures keeps { KeepsKnown (controller_of self.old) (controller_of self.new) }
        ensures drives { SameDrives self.old self.new }
    {
        let lines = lines(&self.controller, &self.first, &self.second);
        self.controller.read(port, lines)
    }

    /// Writes a port, 3F0 to 3F7. The motors follow DOR at once, and a reset closes the write gates of both drives.
    pub fn write(&mut self, port: u16, value: u8)
        ensures writes { WritesAdapter port value (adapter_state D.state self.old) (adapter_state D.state self.new) }
        ensures keeps { KeepsKnown (controller_of self.old) (controller_of self.new) }
    {
        let lines = lines(&self.controller, &self.first, &self.second);
        self.write_controller(port, value, lines);
        follow_write(
            &self.controller,
            port,
            value,
            &mut self.first,
            &mut self.second,
        );
    }

    /// Writes a port of the controller.
    fn write_controller(&mut self, port: u16, value: u8, lines: Lines)
        ensures writes { Writes port value lines (controller_of self.old) (controller_of self.new) }
        ensures keeps { KeepsKnown (controller_of self.old) (controller_of self.new) }
        ensures drives { SameDrives self.old self.new }
    {
        self.word_time = word_time_after(port, value, self.word_time);
        self.controller.write(port, value, lines);
    }

    /// Does one device step: that of the controller with the selected drive, and the word time of the other drives.
    pub fn step(&mut self)
        ensures { StepsAdapter (adapter_state D.state self.old) (adapter_state D.state self.new) }
    {
        pass_word_time(&mut self.controller, &mut self.first, &mut self.second);
    }

    /// Does device steps until the interrupt line or the request line changes, at most `most`, and gives their number.
    pub fn run(&mut self, most: u32) -> u32
        ensures { RunsTo most (adapter_state D.state self.old) result (adapter_state D.state self.new) }
    {
        let int = self.int();
        let drq = self.drq();
        let mut made = 0;
        while made < most {
            made += self.advance(most - made);
            if !self.has_lines(int, drq) {
                return made;
            }
        }
        most
    }

    /// Does at least one device step and at most `most`, and gives their number. No step comes after one in which a
    /// line changes.
    fn advance(&mut self, most: u32) -> u32
        requires { 1 ≤ most }
        ensures some { 1 ≤ result }
        ensures few { result ≤ most }
        ensures runs { RunsWith (interrupts (controller_of self.old)) (asks (controller_of self.old)) result
            (adapter_state D.state self.old) (adapter_state D.state self.new) }
    {
        let made = self.pass_times(most);
        if made != 0 {
            return made;
        }
        self.step();
        1
    }

    /// Does device steps at once, at most `most`, and gives their number. In them neither line changes, no data command
    /// ends and no data mark is met. If the number is 0, the next step has to be done alone.
    pub fn leap(&mut self, most: u32) -> u32
        ensures few { result ≤ most }
        ensures leaps { LeapsAdapter result (adapter_state D.state self.old) (adapter_state D.state self.new) }
    {
        self.pass_times(most)
    }

    /// Does what `leap` does. The contract speaks of word times.
    fn pass_times(&mut self, most: u32) -> u32
        ensures few { result ≤ most }
        ensures passes { WordTimes result (selected_at (adapter_state D.state self.old)) (controller_of self.old)
            (D.state self.old.first) (D.state self.old.second)
            (controller_of self.new) (D.state self.new.first) (D.state self.new.second) }
    {
        if !may_leap(&self.controller, most) {
            return 0;
        }
        pass_word_times(
            &mut self.controller,
            &mut self.first,
            &mut self.second,
            most,
        )
    }

    /// Whether the lines have these values.
    fn has_lines(&self, int: bool, drq: bool) -> bool
        ensures yes { IsTrue result → HasLines int drq (adapter_state D.state self.now) }
        ensures no { IsFalse result → HasLines int drq (adapter_state D.state self.now) → ⊥ }
    {
        self.int() == int && self.drq() == drq
    }

    /// The interrupt line.
    pub fn int(&self) -> bool
        ensures { result ≡ interrupts (controller_of self.now) }
    {
        self.controller.int()
    }

    /// The DMA request line.
    pub fn drq(&self) -> bool
        ensures { result ≡ asks (controller_of self.now) }
    {
        self.controller.drq()
    }

    /// Whether the bytes of the command in execution go to memory.
    pub fn to_memory(&self) -> bool
        ensures { result ≡ to_memory_of (controller_of self.now) }
    {
        self.controller.to_memory()
    }

    /// The channel takes a byte, if the controller asks for one.
    pub fn dack_read(&mut self) -> Option<u8>
        ensures takes { Takes (controller_of self.old) result (controller_of self.new) }
        ensures reads { (past : Past) (sent : Sent) → MayRead past sent (controller_of self.old)
            → MayRead (gave_if result past) sent (controller_of self.new) }
        ensures drives { SameDrives self.old self.new }
    {
        if self.controller.drq() && self.controller.to_memory() {
            Some(self.controller.dma_out())
        } else {
            None
        }
    }

    /// The channel gives a byte, if the controller asks for one. The result says whether it did.
    pub fn dack_write(&mut self, byte: u8) -> bool
        ensures gives { Gives byte (controller_of self.old) result (controller_of self.new) }
        ensures writes { (past : Past) (sent : Sent) (deleted : Bool) → MayWrite past sent deleted (controller_of self.old)
            → MayWrite (took_if result byte past) sent deleted (controller_of self.new) }
        ensures drives { SameDrives self.old self.new }
    {
        if self.controller.drq() && !self.controller.to_memory() {
            self.controller.dma_in(byte);
            true
        } else {
            false
        }
    }

    /// The channel signals the terminal count.
    pub fn tc(&mut self)
        ensures told { controller_of self.new ≡ told_count (controller_of self.old) }
        ensures reads { (past : Past) (sent : Sent) → MayRead past sent (controller_of self.old)
            → MayRead (told_in (is_executing (controller_of self.old).phase) past) sent (controller_of self.new) }
        ensures writes { (past : Past) (sent : Sent) (deleted : Bool) → MayWrite past sent deleted (controller_of self.old)
            → MayWrite (told_in (is_executing (controller_of self.old).phase) past) sent deleted (controller_of self.new) }
        ensures drives { SameDrives self.old self.new }
    {
        self.controller.tc();
    }

    /// The drive that DOR selects. Drives 2 and 3 are absent.
    pub fn selected(&self) -> u8
        ensures { result ≡ dor_of (controller_of self.now) % 4 }
    {
        self.controller.selected()
    }

    /// The nanoseconds of a word time at the rate that was chosen last: 16,000 at 500 kbit/s, 26,667 at 300 kbit/s,
    /// 32,000 at 250 kbit/s (the rate at power-up), and 8,000 at 1 Mbit/s.
    pub fn word_time(&self) -> u32
        ensures { result ≡ nanoseconds (data_rate (controller_of self.now)) }
    {
        self.word_time
    }
}
