// The state, the straps, and the lines that are seen outside.
ghost use Rattle.std.specs.Prelude.{◌≡◌, IfOk, IsTrue, IsFalse};
ghost use Rattle.fdc_chip.specs.Common.{controller_of, SameDrives, to_memory_of, adapter_of};
ghost use Rattle.fdc_chip.specs.Chips.{chip_state, behind_of, IsNewChip, interrupts_chip, asks_chip, passes, passes_by_port, passes_by_channel, passes_at, passes_bytes, is_data};
ghost use Rattle.fdc_chip.specs.Steps.{HasLinesChip};

use crate::interrupts::Interrupts;
use crate::order::Order;
use crate::pace::PacedSeek;
use crate::settings::Settings;
use crate::stage::{ChipStage, ChipTask, Place};
use drive_model::Inspect;
use fdc_sequencer::Sequencer;
use flop_base::NoMemory;
use std::alloc::Global;

/// The whole controller with its drives.
#[derive(Drop)]
pub struct Chip<D> {
    pub(crate) behind: Sequencer<D>,
    pub(crate) stage: ChipStage,
    /// The bytes of the command that is coming, or that came last.
    pub(crate) order: Order,
    /// How many bytes came of a command that isn't whole.
    pub(crate) count: u8,
    pub(crate) interrupts: Interrupts,
    pub(crate) settings: Settings,
    /// Whether a strap of the adapter implies seeks.
    pub(crate) strapped: bool,
    /// How many bytes of sector IDs a FORMAT TRACK still takes.
    pub(crate) keys: u16,
    /// Whether DOR lets INT and DRQ out.
    pub(crate) gated: bool,
    /// A seek whose pulses come in the time that SPECIFY sets.
    pub(crate) pace: Option<PacedSeek>,
    /// Whether a strap of the adapter lets the pulses of seeks come in that time.
    pub(crate) paced: bool,
    /// What TDR, the tape drive register, keeps: two bits that say which drive is a tape drive.
    pub(crate) tape: u8,
}

impl ChipTask {
    /// Whether the host takes or gives the bytes of what the inner controller executes.
    pub(crate) fn passes_bytes(&self) -> bool
        ensures { result ≡ passes_bytes self.now }
    {
        match self {
            ChipTask::Sent => true,
            ChipTask::Track { track } => matches!(track.place, Place::Data),
            _ => false,
        }
    }
}

impl<D: Inspect> Chip<D> {
    /// The controller in reset, with two drives. The motors of the drives are turned off.
    pub fn new(alloc: Global, bay0: D, bay1: D) -> Result<Chip<D>, NoMemory>
        ensures { IfOk result (λ new. IsNewChip (D.state bay0) (D.state bay1) (chip_state D.state new)) }
    {
        Ok(Chip {
            behind: Sequencer::new(alloc, bay0, bay1)?,
            stage: ChipStage::Ready,
            order: Order::blank(),
            count: 0,
            interrupts: Interrupts::new(),
            settings: Settings::new(),
            strapped: false,
            keys: 0,
            gated: false,
            pace: None,
            paced: false,
            tape: 0,
        })
    }

    /// Lets each data command seek its cylinder first, whatever CONFIGURE sets, as a strap of an adapter would. With
    /// `on` false, this is left to CONFIGURE.
    pub fn strap_seeks(&mut self, on: bool)
        ensures state { chip_state D.state self.new ≡ record (chip_state D.state self.old) { strapped = on } }
        ensures drives { SameDrives (adapter_of (behind_of self.old)) (adapter_of (behind_of self.new)) }
    {
        self.strapped = on;
    }

    /// Lets the pulses of SEEK, RELATIVE SEEK and RECALIBRATE come in the time that SPECIFY sets, or else one in each
    /// word time. A RECALIBRATE gives the pulses of the cylinders that the controller has counted in that time. The
    /// pulses that are left until track 0 then come one in each word time. It gives at most 79 in all.
    pub fn strap_steps(&mut self, on: bool)
        ensures state { chip_state D.state self.new ≡ record (chip_state D.state self.old) { paced = on } }
        ensures drives { SameDrives (adapter_of (behind_of self.old)) (adapter_of (behind_of self.new)) }
    {
        self.paced = on;
    }

    /// Whether the host takes or gives bytes of what is under way.
    fn passes_at(&self) -> bool
        ensures { result ≡ passes_at (chip_state D.state self.now).stage }
    {
        match &self.stage {
            ChipStage::Busy { task } => task.passes_bytes(),
            _ => false,
        }
    }

    /// Whether the host takes or gives more bytes of the command. A FORMAT TRACK takes no more than the bytes of its
    /// sector IDs.
    pub(crate) fn passes(&self) -> bool
        ensures { result ≡ passes (chip_state D.state self.now) }
    {
        self.passes_at() && !(self.order.is_format() && self.keys == 0)
    }

    /// Whether these bytes pass by the data port.
    pub(crate) fn passes_by_port(&self) -> bool
        ensures { result ≡ passes_by_port (chip_state D.state self.now) }
    {
        self.settings.is_by_port() && self.passes()
    }

    /// Whether these bytes pass by the channel, if DOR lets DRQ out.
    pub(crate) fn passes_by_channel(&self) -> bool
        ensures { result ≡ passes_by_channel (chip_state D.state self.now) }
    {
        self.gated && !self.settings.is_by_port() && self.passes()
    }

    /// The interrupt line, if DOR lets it out. In the non-DMA mode it asks for a byte. Otherwise it rises with results
    /// and with the end of a seek.
    pub fn int(&self) -> bool
        ensures { result ≡ interrupts_chip (chip_state D.state self.now) }
    {
        if !self.gated {
            return false;
        }
        if self.passes_by_port() {
            return self.behind.drq();
        }
        match self.stage {
            ChipStage::Ready => self.interrupts.is_up() || self.behind.int(),
            _ => self.interrupts.is_up(),
        }
    }

    /// The DMA request line.
    pub fn drq(&self) -> bool
        ensures { result ≡ asks_chip (chip_state D.state self.now) }
    {
        self.passes_by_channel() && self.behind.drq()
    }

    /// Whether the lines have these values.
    pub(crate) fn has_lines(&self, int: bool, drq: bool) -> bool
        ensures yes { IsTrue result → HasLinesChip int drq (chip_state D.state self.now) }
        ensures no { IsFalse result → HasLinesChip int drq (chip_state D.state self.now) → ⊥ }
    {
        self.int() == int && self.drq() == drq
    }

    /// Whether the bytes of the command in execution go to memory.
    pub fn to_memory(&self) -> bool
        ensures { result ≡ to_memory_of (controller_of (adapter_of (behind_of self.now))) }
    {
        self.behind.to_memory()
    }
}
