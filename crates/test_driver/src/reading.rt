// Reads of a bench.
ghost use Rattle.std.specs.Prelude.{◌≡◌, ◌≤◌, ◌+◌};
ghost use Rattle.test_driver.specs.Common.{user_bytes, IsSizeCode, content_size, ReadsId, ReadsData, ReadsBack};

use crate::bench::Bench;
use crate::script::CommandTrouble;
use flop_base::{Chrn, Code, Rate, sector_size};

impl Bench {
    ghost use Rattle.test_driver.specs.Shown.{rig_shown};

    /// Finds the key of the first address field on the track under a head.
    pub(crate) fn find_id(&mut self, bay: u8, head: u8, rate: Rate) -> Result<Chrn, Code>
        requires { bay ≤ 1 }
        ensures { ReadsId bay head rate (rig_shown self.old) result (rig_shown self.new) }
    {
        if self.script.trouble() != CommandTrouble::Calm {
            self.fault(bay);
            return Err(Code::NoMark);
        }
        match self.drives.get(bay).read_id(self.alloc, rate, head) {
            Ok(Some(key)) => {
                self.counts.send();
                Ok(key)
            }
            Ok(None) => {
                self.counts.send();
                Err(Code::NoMark)
            }
            Err(_) => {
                self.fault(bay);
                Err(Code::NoMark)
            }
        }
    }

    /// Reads a record to user memory.
    pub(crate) fn read_to_memory(
        &mut self,
        bay: u8,
        key: Chrn,
        rate: Rate,
        address: u32,
    ) -> Result<bool, Code>
        requires bay { bay ≤ 1 }
        requires coded { IsSizeCode key.n }
        requires range { address + content_size key.n ≤ user_bytes }
        ensures { ReadsData bay key rate address (rig_shown self.old) result (rig_shown self.new) }
    {
        let trouble = self.script.trouble();
        if trouble != CommandTrouble::Calm {
            return Err(self.refuse_read(bay, trouble));
        }
        self.counts.send();
        let start = address as usize;
        let content = &mut self.memory[start..start + sector_size(key.n)];
        self.drives.get(bay).read(key, rate, content)
    }

    /// Reads a record to the beginning of the driver's page.
    pub(crate) fn read_to_page(&mut self, bay: u8, key: Chrn, rate: Rate) -> Result<bool, Code>
        requires bay { bay ≤ 1 }
        requires coded { IsSizeCode key.n }
        ensures { ReadsBack bay key rate (rig_shown self.old) result (rig_shown self.new) }
    {
        let trouble = self.script.trouble();
        if trouble != CommandTrouble::Calm {
            return Err(self.refuse_read(bay, trouble));
        }
        self.counts.send();
        let content = &mut self.page[0..sector_size(key.n)];
        self.drives.get(bay).read(key, rate, content)
    }
}
