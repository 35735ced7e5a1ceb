// A driver on its bench: calls of the driver, and what the bench then shows.
ghost use Rattle.std.specs.Prelude.{◌≤◌, ◌<◌};
ghost use Rattle.test_driver.specs.Common.{user_bytes, IsAttached};
ghost use Rattle.test_driver.specs.Shown.{rig_shown};

use crate::bench::Bench;
use crate::script::{Call, CommandTrouble};
use flop_base::{Chrn, Code, NoMemory, Rate};
use floppy_driver::{Commands, Driver};
use raw_image::Medium;
use std::alloc::{AllocError, Global};

/// A bench, and a driver that is set up on it.
#[derive(Drop)]
pub struct DrivenBench {
    bench: Bench,
    driver: Driver,
    ghost attached: { IsAttached driver (rig_shown bench) },
}

impl DrivenBench {
    /// A bench of two empty drives and memory of 00, without troubles, and a driver that was set up on it.
    pub fn new(alloc: Global) -> Result<DrivenBench, NoMemory> {
        let mut bench = Bench::new(alloc)?;
        let driver = Driver::set_up(&mut bench);
        Ok(DrivenBench { bench, driver })
    }

    /// Exchanges the medium of a bay, or takes it out. The change line is set, and the drive has to come to speed
    /// again.
    pub fn exchange(&mut self, bay: u8, medium: Option<Medium>) {
        self.bench.exchange(bay, medium);
    }

    /// Plans the troubles of the next data commands.
    pub fn plan(&mut self, troubles: &[CommandTrouble]) -> Result<(), AllocError> {
        self.bench.plan(troubles)
    }

    /// Plans how many pulses the next movements of heads lose.
    pub fn lose(&mut self, lost: &[u8]) -> Result<(), AllocError> {
        self.bench.lose(lost)
    }

    /// Sets the number of attempts.
    pub fn set_tries(&mut self, tries: u8)
        requires least { 1 ≤ tries }
        requires most { tries ≤ 10 }
    {
        self.bench.set_tries(&mut self.driver, tries);
    }

    /// Acknowledges the medium of a bay.
    pub fn ack(&mut self, bay: u8) -> Result<(), Code> {
        self.driver.ack(&mut self.bench, bay)
    }

    /// Sets the rate of a bay.
    pub fn set_rate(&mut self, bay: u8, rate: Rate) -> Result<(), Code> {
        self.driver.set_rate(&mut self.bench, bay, rate)
    }

    /// Reads a sector to user memory.
    pub fn read(&mut self, bay: u8, key: Chrn, address: u32) -> Result<bool, Code> {
        self.driver.read(&mut self.bench, bay, key, address)
    }

    /// Writes user memory to a sector.
    pub fn write(&mut self, bay: u8, key: Chrn, address: u32, deleted: bool) -> Result<(), Code> {
        self.driver
            .write(&mut self.bench, bay, key, address, deleted)
    }

    /// Formats a track.
    pub fn format(&mut self, bay: u8, c: u8, h: u8, gap3: u8, fill: u8) -> Result<(), Code> {
        self.driver.format(&mut self.bench, bay, c, h, gap3, fill)
    }

    /// The number of attempts.
    pub fn tries(&self) -> u8 {
        self.driver.tries()
    }

    /// The rate that the driver has noted for a bay.
    pub fn rate(&self, bay: u8) -> Rate
        requires { bay ≤ 1 }
    {
        self.driver.rate(bay)
    }

    /// A byte of user memory.
    pub fn memory(&self, address: u32) -> u8
        requires { address < user_bytes }
    {
        self.bench.memory(address)
    }

    /// The count of faults of a drive.
    pub fn faults(&self, bay: u8) -> u64
        requires { bay ≤ 1 }
    {
        self.bench.faults(bay)
    }

    /// How many data commands began.
    pub fn commands(&self) -> u64 {
        self.bench.commands()
    }

    /// The movements of heads and the data commands since the calls were last forgotten, in their order.
    pub fn calls(&self) -> &[Call] {
        self.bench.calls()
    }

    /// Forgets the calls.
    pub fn forget_calls(&mut self) {
        self.bench.forget_calls();
    }
}
