// The calls of a station with a machine.
ghost use Rattle.std.specs.Prelude.{◌≡◌, ◌≤◌, Bool, if◌then◌else◌};
ghost use Rattle.machine_commands.specs.Common.{R500, notes_of};

use crate::station::MachineStation;
use drive_model::Drive;
use flop_base::{Chrn, Code, Rate};
use floppy_driver::{Commands, Driver};
use raw_image::Medium;
use sector_model::Station;

/// The rate of a bay after an acknowledgement was tried.
fn rate_after(driver: &Driver, bay: u8, acknowledged: bool) -> Rate
    requires { bay ≤ 1 }
    ensures { result ≡ (if acknowledged then (notes_of driver.now bay).rate else R500) }
{
    if acknowledged {
        driver.rate(bay)
    } else {
        Rate::R500
    }
}

impl<D: Drive> Station for MachineStation<D> {
    ghost use Rattle.machine_commands.specs.StationReady.{is_station_ready};
    ghost use Rattle.machine_commands.specs.StationShown.{station_shown};

    ghost shown = { λ station. station_shown D.state station };

    ghost is_ready = { λ station. is_station_ready D.state station };

    fn insert(&mut self, bay: u8, medium: Medium) -> Result<(), Medium> {
        let answer = self.machine.insert(bay, medium);
        if answer.is_err() {
            return answer;
        }
        self.flags.exchange_medium(bay, true);
        answer
    }

    fn eject(&mut self, bay: u8) -> Option<Medium> {
        let medium = self.machine.eject(bay);
        if medium.is_none() {
            return medium;
        }
        self.flags.exchange_medium(bay, false);
        medium
    }

    fn take_unit(&mut self, bay: u8) -> bool {
        let Some(drive) = self.spare.pop_front() else {
            return false;
        };
        drop(self.machine.exchange(bay, drive));
        self.flags.exchange_drive(bay);
        true
    }

    fn is_loaded(&self, bay: u8) -> bool {
        self.flags.get(bay).loaded
    }

    fn rate(&self, bay: u8) -> Rate {
        self.flags.get(bay).rate
    }

    fn memory(&self, address: u32) -> u8 {
        self.hold_size();
        self.machine.memory(address)
    }

    fn set_memory(&mut self, address: u32, byte: u8) {
        self.hold_size();
        self.machine.set_memory(address, byte);
    }

    fn ack(&mut self, bay: u8) -> Result<(), Code> {
        let answer = self.driver.ack(&mut self.machine, bay);
        if bay > 1 {
            return answer;
        }
        let rate = rate_after(&self.driver, bay, answer.is_ok());
        self.flags.set_rate(bay, rate);
        answer
    }

    fn changed(&mut self, bay: u8) -> bool {
        self.driver.changed(&mut self.machine, bay)
    }

    fn read(&mut self, bay: u8, key: Chrn, address: u32) -> Result<bool, Code> {
        self.driver.read(&mut self.machine, bay, key, address)
    }

    fn write(&mut self, bay: u8, key: Chrn, address: u32, deleted: bool) -> Result<(), Code> {
        self.driver
            .write(&mut self.machine, bay, key, address, deleted)
    }

    fn format(&mut self, bay: u8, c: u8, h: u8, gap3: u8, fill: u8) -> Result<(), Code> {
        self.driver.format(&mut self.machine, bay, c, h, gap3, fill)
    }

    fn set_rate(&mut self, bay: u8, rate: Rate) -> Result<(), Code> {
        let answer = self.driver.set_rate(&mut self.machine, bay, rate);
        if answer.is_err() {
            return answer;
        }
        self.flags.set_rate(bay, rate);
        answer
    }

    fn set_tries(&mut self, tries: u8) {
        self.driver.set_tries(tries);
    }

    fn faults(&self, bay: u8) -> u64 {
        self.machine.faults(bay)
    }

    fn stalls(&self) -> u64 {
        self.machine.machine().stalls()
    }

    fn data_commands(&self) -> u64 {
        self.machine.machine().data_commands()
    }

    fn taken(&self) -> u64 {
        self.machine.machine().taken()
    }

    fn direct(&self) -> u64 {
        self.machine.machine().direct()
    }
}
