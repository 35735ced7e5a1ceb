// The commands, each from the accesses that it makes.
ghost use Rattle.machine_commands.specs.Shown.{is_idle, rig_shown};

use crate::asking::{PAGE_START, PROTECTED};
use crate::heads::EQUIPMENT_CHECK;
use crate::machine::CommandedMachine;
use crate::results::{key_of, mark_of};
use crate::writing::told;
use drive_model::Drive;
use flop_base::{Chrn, Code, Rate};
use floppy_driver::Commands;

impl<D: Drive> Commands for CommandedMachine<D> {
    ghost rig = { rig_shown D.state };

    ghost is_idle = { is_idle D.state };

    fn reset(&mut self) {
        self.set_up();
        self.keep_ranges();
    }

    fn is_changed(&mut self, bay: u8) -> bool {
        let changed = self.read_line(bay);
        self.keep_ranges();
        changed
    }

    fn is_protected(&mut self, bay: u8) -> bool {
        let status = self.sense_drive(bay);
        self.keep_ranges();
        status & PROTECTED != 0
    }

    fn start_motor(&mut self, bay: u8) {
        self.spin_up(bay);
        self.keep_ranges();
    }

    fn recalibrate(&mut self, bay: u8) -> bool {
        let status = self.step_outward(bay);
        self.keep_ranges();
        status & EQUIPMENT_CHECK == 0
    }

    fn seek(&mut self, bay: u8, target: u8) {
        self.step_toward(bay, target);
        self.keep_ranges();
    }

    fn read_id(&mut self, bay: u8, head: u8, rate: Rate) -> Result<Chrn, Code> {
        let outcome = self.identify(bay, head, rate);
        self.keep_ranges();
        key_of(outcome)
    }

    fn read(&mut self, bay: u8, key: Chrn, rate: Rate, address: u32) -> Result<bool, Code> {
        let outcome = self.read_to(bay, key, rate, address);
        self.keep_ranges();
        mark_of(outcome)
    }

    fn read_back(&mut self, bay: u8, key: Chrn, rate: Rate) -> Result<bool, Code> {
        let outcome = self.read_to(bay, key, rate, PAGE_START);
        self.keep_ranges();
        mark_of(outcome)
    }

    fn write(
        &mut self,
        bay: u8,
        key: Chrn,
        rate: Rate,
        address: u32,
        deleted: bool,
    ) -> Result<(), Code> {
        let outcome = self.write_sector(bay, key, rate, address, deleted);
        self.keep_ranges();
        told(outcome)
    }

    fn format(
        &mut self,
        bay: u8,
        c: u8,
        h: u8,
        rate: Rate,
        gap3: u8,
        fill: u8,
    ) -> Result<(), Code> {
        self.keep_memory();
        self.put_keys(c, h, rate);
        let outcome = self.format_track(bay, h, rate, gap3, fill);
        self.keep_ranges();
        told(outcome)
    }

    fn memory(&self, address: u32) -> u8 {
        self.machine.ram(address)
    }

    fn page(&self, i: u16) -> u8 {
        self.machine.ram(PAGE_START + u32::from(i))
    }

    fn faults(&self, bay: u8) -> u64 {
        self.machine.faults(bay)
    }
}
