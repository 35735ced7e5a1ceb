// The commands of a bench.
ghost use Rattle.std.specs.Prelude.{◌≡◌};
ghost use Rattle.test_driver.specs.Shown.{rig_shown};

use crate::bench::Bench;
use crate::drives::take;
use crate::script::Call;
use flop_base::{Chrn, Code, Rate};
use floppy_driver::Commands;

impl Commands for Bench {
    ghost rig = { λ bench. rig_shown bench };

    ghost is_idle = { λ _. Unit {0} };

    fn reset(&mut self) {}

    fn is_changed(&mut self, bay: u8) -> bool {
        self.keep_ranges();
        self.drives.get(bay).changed
    }

    fn is_protected(&mut self, bay: u8) -> bool {
        self.keep_ranges();
        self.drives.get(bay).is_protected()
    }

    fn start_motor(&mut self, bay: u8) {
        let mut drive = take(&mut self.drives, bay);
        drive.spin();
        self.drives.replace(bay, drive);
        self.keep_ranges();
    }

    fn recalibrate(&mut self, bay: u8) -> bool {
        self.script.note(Call::Recalibrate);
        let lost = self.script.lost_pulses();
        let mut drive = take(&mut self.drives, bay);
        let reached = drive.recalibrate(lost);
        self.drives.replace(bay, drive);
        self.keep_ranges();
        reached
    }

    fn seek(&mut self, bay: u8, target: u8) {
        self.script.note(Call::Seek(target));
        let lost = self.script.lost_pulses();
        let mut drive = take(&mut self.drives, bay);
        drive.seek(target, lost);
        self.drives.replace(bay, drive);
        self.keep_ranges();
    }

    fn read_id(&mut self, bay: u8, head: u8, rate: Rate) -> Result<Chrn, Code> {
        self.script.note(Call::ReadId(rate));
        let answer = self.find_id(bay, head, rate);
        self.keep_ranges();
        answer
    }

    fn read(&mut self, bay: u8, key: Chrn, rate: Rate, address: u32) -> Result<bool, Code> {
        self.script.note(Call::Read);
        let answer = self.read_to_memory(bay, key, rate, address);
        self.keep_ranges();
        answer
    }

    fn read_back(&mut self, bay: u8, key: Chrn, rate: Rate) -> Result<bool, Code> {
        self.script.note(Call::ReadBack(key.r));
        let answer = self.read_to_page(bay, key, rate);
        self.keep_ranges();
        answer
    }

    fn write(
        &mut self,
        bay: u8,
        key: Chrn,
        rate: Rate,
        address: u32,
        deleted: bool,
    ) -> Result<(), Code> {
        self.script.note(Call::Write);
        let answer = self.write_field(bay, key, rate, address, deleted);
        self.keep_ranges();
        answer
    }

    fn format(
        &mut self,
        bay: u8,
        c: u8,
        h: u8,
        rate: Rate,
        gap3: u8,
        fill: u8,
    ) -> Result<(), Code> {
        self.script.note(Call::Format);
        let answer = self.format_track(bay, c, h, rate, gap3, fill);
        self.keep_ranges();
        answer
    }

    fn memory(&self, address: u32) -> u8 {
        self.memory[address as usize]
    }

    fn page(&self, i: u16) -> u8 {
        self.page[usize::from(i)]
    }

    fn faults(&self, bay: u8) -> u64 {
        self.drives.get(bay).faults
    }
}
