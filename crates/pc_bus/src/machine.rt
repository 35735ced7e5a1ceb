// The machine, its making and its counts.
ghost use Rattle.std.specs.Prelude.{◌≡◌, ◌≤◌, IfOk};
ghost use Rattle.pc_bus.specs.Common.{InRange, rate_of, data_commands_of};
ghost use Rattle.pc_bus.specs.Boards.{board, drive_in, controller_of, memory_of, holds_of, IsEmpty, IsInRange, IsNew};

use crate::bus::Bus;
use drive_model::Drive;
use flop_base::{NoMemory, Rate};
use irq_events::Pace;
use std::alloc::Global;

/// The machine, with a drive in each of its two bays.
#[derive(Drop)]
pub struct MachineOf<D> {
    pub(crate) bus: Bus,
    pub(crate) first: D,
    pub(crate) second: D,
}

/// The machine with drives of any kind.
pub type Machine = MachineOf<Box<dyn Drive>>;

impl<D: Drive> MachineOf<D> {
    /// The machine with its controller in reset, memory all 00 and two empty drives. It runs at this timing (pace).
    pub fn new(alloc: Global, bay0: D, bay1: D, pace: Pace) -> Result<MachineOf<D>, NoMemory>
        requires first { IsEmpty (D.state bay0) }
        requires second { IsEmpty (D.state bay1) }
        ensures { IfOk result (λ machine. IsNew pace (D.state bay0) (D.state bay1) (board D.state machine)) }
    {
        let bus = Bus::new(alloc, pace)?;
        let mut first = bay0;
        first.motor(false);
        let mut second = bay1;
        second.motor(false);
        Ok(MachineOf { bus, first, second })
    }

    /// Whether no call that may change the machine came since it was made.
    pub fn is_fresh(&self) -> bool
        ensures { result ≡ (board D.state self.now).bus.fresh }
    {
        self.bus.fresh
    }

    /// How many device steps were made. The count stays at its last value.
    pub fn steps(&self) -> u64
        ensures { result ≡ (board D.state self.now).bus.steps }
    {
        self.bus.steps
    }

    /// How many DMA requests were held back for more than 8 device steps. The count stays at its last value.
    pub fn stalls(&self) -> u64
        ensures { result ≡ (holds_of (board D.state self.now)).stalls }
    {
        self.bus.chips.holding.stalls()
    }

    /// How many data commands began execution. The count stays at its last value.
    pub fn data_commands(&self) -> u64
        ensures { result ≡ data_commands_of (controller_of (board D.state self.now)) }
    {
        self.bus.chips.controller.data_commands()
    }

    /// How many accesses to user memory, media and drives went past the controller. The count stays at its last value.
    pub fn direct(&self) -> u64
        ensures { result ≡ (board D.state self.now).bus.direct }
    {
        self.bus.direct
    }

    /// How many interrupts were taken. The count stays at its last value.
    pub fn taken(&self) -> u64
        ensures { result ≡ (board D.state self.now).bus.taken }
    {
        self.bus.taken
    }

    /// The count of faults of a drive. The count stays at its last value.
    pub fn faults(&self, bay: u8) -> u64
        requires { bay ≤ 1 }
        ensures count { result ≡ (drive_in (board D.state self.now) bay).faults }
        ensures range { InRange (drive_in (board D.state self.now) bay) }
    {
        if bay == 0 {
            self.first.faults()
        } else {
            self.second.faults()
        }
    }

    /// The rate of the medium in a bay. It is R500 if no medium is in.
    pub fn rate(&self, bay: u8) -> Rate
        requires { bay ≤ 1 }
        ensures { result ≡ rate_of (drive_in (board D.state self.now) bay).medium }
    {
        if bay == 0 {
            self.first.rate()
        } else {
            self.second.rate()
        }
    }

    /// Makes known that the numbers in the machine's parts are in range. It does nothing.
    pub fn ranges(&self)
        ensures { IsInRange (board D.state self.now) }
    {
        self.bus.chips.controller.ranges();
        self.bus.chips.holding.ranges();
        self.first.faults();
        self.second.faults();
    }
}
