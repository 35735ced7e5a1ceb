// A bench: a machine in memory, and what is done to it.
ghost use Rattle.std.specs.Prelude.{◌≡◌, ◌≤◌, ◌<◌, ◌^◌, ℕ, length, slice_index, IfOk};
ghost use Rattle.test_driver.specs.Common.{Code, user_bytes, IsSound, IsReadCode, IsWriteCode, IsFormatCode, IsAttached, CanSetUp};
ghost use Rattle.floppy_driver.specs.declared.driver.Driver.{Driver};
ghost use Rattle.test_driver.specs.Sent.{HasFault, IsDisturbed};

use crate::counts::BenchCounts;
use crate::drive::BenchDrive;
use crate::drives::take;
use crate::script::{Call, CommandTrouble, Script};
use flop_base::{Code, NoMemory, Two, USER_BYTES};
use floppy_driver::Driver;
use raw_image::Medium;
use std::alloc::{AllocError, Global};

/// The bytes of the driver's page.
const PAGE_BYTES: usize = 65_536;

/// The most words of a track.
const TRACK_WORDS: usize = 16_384;

/// A machine in memory that runs one command at a time. Its commands do what those of a machine do, except for the
/// troubles that are planned.
#[derive(Drop)]
pub(crate) struct Bench {
    pub(crate) alloc: Global,
    pub(crate) drives: Two<BenchDrive>,
    pub(crate) memory: Vec<u8>,
    pub(crate) page: Vec<u8>,
    pub(crate) counts: BenchCounts,
    pub(crate) script: Script,
    // the words of a field or of a track that is written
    pub(crate) words: Vec<u16>,
    ghost user: { length memory.items ≡ user_bytes },
    ghost paged: { length page.items ≡ 65536 },
    ghost room: { length words.items ≡ 16384 },
}

/// Its contract says what range bytes have; the function does nothing.
fn keep_bytes(_bytes: &[u8])
    ensures { (k : ℕ) → slice_index _bytes.now k < 2 ^ 8 }
{}

impl Bench {
    ghost use Rattle.test_driver.specs.Shown.{rig_shown};

    /// Two empty drives, memory of 00, no troubles.
    pub fn new(alloc: Global) -> Result<Bench, NoMemory>
        ensures { IfOk result (λ bench. CanSetUp (rig_shown bench)) }
    {
        let memory = vec![in alloc; 0; USER_BYTES as usize]?;
        let page = vec![in alloc; 0; PAGE_BYTES]?;
        let words = vec![in alloc; 0; TRACK_WORDS]?;
        Ok(Bench {
            alloc,
            drives: Two::new(BenchDrive::empty(), BenchDrive::empty()),
            memory,
            page,
            counts: BenchCounts {
                commands: 0,
                taken: 0,
                stalls: 0,
            },
            script: Script::calm(alloc),
            words,
        })
    }

    /// Exchanges the medium of a bay, or takes it out. The change line is set, and the drive has to come to speed
    /// again.
    pub fn exchange(&mut self, bay: u8, medium: Option<Medium>)
        ensures { (driver : Driver) → IsAttached driver (rig_shown self.old) → IsAttached driver (rig_shown self.new) }
    {
        let mut drive = take(&mut self.drives, bay);
        drive.exchange(medium);
        self.drives.replace(bay, drive);
    }

    /// Plans the troubles of the next data commands.
    pub fn plan(&mut self, troubles: &[CommandTrouble]) -> Result<(), AllocError>
        ensures { (driver : Driver) → IsAttached driver (rig_shown self.old) → IsAttached driver (rig_shown self.new) }
    {
        self.script.plan(troubles)
    }

    /// Plans how many pulses the next movements of heads lose.
    pub fn lose(&mut self, lost: &[u8]) -> Result<(), AllocError>
        ensures { (driver : Driver) → IsAttached driver (rig_shown self.old) → IsAttached driver (rig_shown self.new) }
    {
        self.script.lose(lost)
    }

    /// Sets the number of attempts of a driver that the bench is attached to.
    pub fn set_tries(&self, driver: &mut Driver, tries: u8)
        requires least { 1 ≤ tries }
        requires most { tries ≤ 10 }
        requires attached { IsAttached driver.old (rig_shown self.now) }
        ensures { IsAttached driver.new (rig_shown self.now) }
    {
        driver.set_tries(tries);
    }

    /// How many data commands began.
    pub fn commands(&self) -> u64 {
        self.counts.commands
    }

    /// The movements of heads and the data commands since the calls were last forgotten, in their order.
    pub fn calls(&self) -> &[Call] {
        self.script.calls()
    }

    /// Forgets the calls.
    pub fn forget_calls(&mut self)
        ensures { (driver : Driver) → IsAttached driver (rig_shown self.old) → IsAttached driver (rig_shown self.new) }
    {
        self.script.forget_calls();
    }

    /// Its contract says what ranges the numbers have that the bench shows; the function does nothing.
    pub(crate) fn keep_ranges(&self)
        ensures { IsSound (rig_shown self.now) }
    {
        keep_bytes(self.memory.as_slice());
        keep_bytes(self.page.as_slice());
    }

    /// Does a data command that a fault of the drive ends.
    pub(crate) fn fault(&mut self, bay: u8)
        requires { bay ≤ 1 }
        ensures { HasFault bay (rig_shown self.old) (rig_shown self.new) }
    {
        let mut drive = take(&mut self.drives, bay);
        drive.fail(1);
        self.drives.replace(bay, drive);
        self.counts.send();
    }

    /// Does a write or a format that fails by this trouble, and gives its refusal.
    pub(crate) fn refuse_write(&mut self, bay: u8, trouble: CommandTrouble) -> Code
        requires { bay ≤ 1 }
        ensures write { IsDisturbed IsWriteCode bay (rig_shown self.old) result (rig_shown self.new) }
        ensures format { IsDisturbed IsFormatCode bay (rig_shown self.old) result (rig_shown self.new) }
    {
        match trouble {
            CommandTrouble::Stalled => {
                self.counts.send();
                self.counts.stall();
                Code::Overrun
            }
            _ => {
                self.fault(bay);
                Code::NoMark
            }
        }
    }

    /// Does a read that fails by this trouble, and gives its refusal.
    pub(crate) fn refuse_read(&mut self, bay: u8, trouble: CommandTrouble) -> Code
        requires { bay ≤ 1 }
        ensures { IsDisturbed IsReadCode bay (rig_shown self.old) result (rig_shown self.new) }
    {
        match trouble {
            CommandTrouble::Stalled => {
                self.counts.send();
                self.counts.stall();
                Code::Overrun
            }
            CommandTrouble::Damaged => {
                self.fault(bay);
                Code::BadCrc
            }
            _ => {
                self.fault(bay);
                Code::NoMark
            }
        }
    }
}
