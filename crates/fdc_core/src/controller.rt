// The controller's state, its reset and its lines.
ghost use Rattle.std.specs.Prelude.{◌≡◌, ◌<◌, ◌+◌, ◌↔◌, ◌%◌, IfOk, IsTrue, IsBitSet, true, false};
ghost use Rattle.fdc_core.specs.Ranges.{IsInRange};
ghost use Rattle.fdc_core.specs.State.{at_power_up, reset, is_held, interrupts, asks, is_gated, data_commands_of, dor_of, data_rate, finished};

use fdc_commands::{CommandBytes, Seeks};
use fdc_phases::{Answer, DataRate, Phase, results};
use fdc_registers::{Dor, Fifo, Flags};
use fdc_stages::Ending;
use flop_base::{Chrn, NoMemory};
use std::alloc::Global;

/// The lines of the selected drive.
#[derive(Clone, Copy, PartialEq, Eq, Debug)]
pub struct Lines {
    /// The heads stand over cylinder 0.
    pub track0: bool,
    /// A protected medium is in.
    pub protected: bool,
    /// The change line.
    pub changed: bool,
}

/// The diskette controller. A device step is one word time.
#[derive(Drop)]
pub struct Fdc {
    pub(crate) dor: Dor,
    pub(crate) rate: DataRate,
    /// SPECIFY set ND.
    pub(crate) non_dma: bool,
    /// Polling is on.
    pub(crate) polling: bool,
    /// The poll after a reset is still to come.
    pub(crate) poll_due: bool,
    /// INT before its gate.
    pub(crate) interrupt: bool,
    /// DRQ before its gate.
    pub(crate) asking: bool,
    pub(crate) phase: Phase,
    pub(crate) seeks: Seeks,
    pub(crate) command: CommandBytes,
    pub(crate) fifo: Fifo,
    /// How many data commands began, which stays at its last value.
    pub(crate) data_commands: u64,
}

impl Fdc {
    /// The controller at power-up, held in reset.
    pub fn new(alloc: Global) -> Result<Fdc, NoMemory>
        ensures { IfOk result (λ fdc. fdc ≡ at_power_up) }
    {
        Ok(Fdc {
            dor: Dor(0),
            rate: DataRate::Kbit250,
            non_dma: false,
            polling: true,
            poll_due: true,
            interrupt: false,
            asking: false,
            phase: Phase::Command,
            seeks: Seeks::new(),
            command: CommandBytes::new(),
            fifo: Fifo::new(alloc)?,
            data_commands: 0,
        })
    }

    /// Ends a command, empties the FIFO and turns it off, turns polling on and forgets all seeks. What SPECIFY set and
    /// the rate stay.
    pub(crate) fn reset(&mut self)
        ensures { self.new ≡ reset self.old }
    {
        self.polling = true;
        self.poll_due = true;
        self.interrupt = false;
        self.asking = false;
        self.phase = Phase::Command;
        self.seeks.reset();
        self.command = CommandBytes::new();
        self.fifo.set(false, 1);
    }

    /// The result phase of a data command begins: INT rises, the FIFO is emptied and DRQ falls.
    #[inline(never)]
    pub(crate) fn finish(&mut self, ending: Ending, head_drive: u8, key: Chrn)
        ensures { self.new ≡ finished ending head_drive key self.old }
    {
        self.interrupt = true;
        self.asking = false;
        self.fifo.clear();
        self.phase = Phase::Result {
            answer: Answer::Long {
                ending,
                results: results(ending, head_drive, key),
                read: 0,
            },
        };
    }

    /// Whether DOR holds the controller in reset.
    pub(crate) fn is_held(&self) -> bool
        ensures { result ≡ is_held self.now }
    {
        !self.dor.contains(Dor::NOT_RESET)
    }

    /// Whether DOR lets INT and DRQ out.
    pub fn is_gated(&self) -> bool
        ensures { result ≡ is_gated self.now }
    {
        self.dor.contains(Dor::GATE)
    }

    /// The interrupt line, as DOR lets it out.
    pub fn int(&self) -> bool
        ensures { result ≡ interrupts self.now }
    {
        self.interrupt && self.is_gated()
    }

    /// The DMA request line, as DOR lets it out.
    pub fn drq(&self) -> bool
        ensures { result ≡ asks self.now }
    {
        self.asking && self.is_gated()
    }

    /// The data rate that DSR or CCR chose last.
    pub fn data_rate(&self) -> DataRate
        ensures { result ≡ data_rate self.now }
    {
        self.rate
    }

    /// The drive that DOR selects, 0 to 3.
    pub fn selected(&self) -> u8
        ensures { result ≡ dor_of self.now % 4 }
    {
        self.dor.selected()
    }

    /// Whether DOR turns the motor of a drive on.
    pub fn motor(&self, bay: u8) -> bool
        requires { bay < 4 }
        ensures { IsTrue result ↔ IsBitSet (dor_of self.now) (4 + bay) }
    {
        self.dor.is_motor_on(bay)
    }

    /// How many data commands began execution, which stays at its last value.
    pub fn data_commands(&self) -> u64
        ensures { result ≡ data_commands_of self.now }
    {
        self.data_commands
    }

    /// The numbers of the controller are those that its registers hold. The function does nothing.
    pub fn ranges(&self)
        ensures { IsInRange self.now }
    {
        self.seeks.bits();
        match &self.phase {
            Phase::Execute { execution } => keep_steps(execution.steps),
            _ => {}
        }
    }
}

// The count of device steps is one that its register holds. The function does nothing.
fn keep_steps(_steps: u16)
    ensures { _steps < 65536 }
{}
