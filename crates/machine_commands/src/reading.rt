// Commands that read.
ghost use Rattle.std.specs.Prelude.{◌≡◌, ◌≤◌, ◌+◌, ◌-◌};
ghost use Rattle.machine_commands.specs.Common.{IsSizeCode, content_size};
ghost use Rattle.machine_commands.specs.Awaited.{sector_bytes, SendsReadId, SendsRead};
ghost use Rattle.machine_commands.specs.Shown.{board_of};

use crate::channel::Way;
use crate::machine::CommandedMachine;
use crate::results::Done;
use drive_model::Drive;
use fdc_commands::Command;
use fdc_commands::codes::READ_DATA;
use flop_base::{Chrn, Code, Rate, sector_size};

/// The data length, which matters only where the size code is 0.
const DATA_LENGTH: u8 = 0xFF;

impl<D: Drive> CommandedMachine<D> {
    /// READ ID.
    pub(crate) fn identify(&mut self, bay: u8, head: u8, rate: Rate) -> Result<Done, Code>
        requires bay { bay ≤ 1 }
        requires head { head ≤ 1 }
        ensures sends { SendsReadId self.old.motors bay head rate (board_of D.state self.old) result (board_of D.state self.new) }
        ensures motors { self.new.motors ≡ self.old.motors }
    {
        self.prepare(bay, rate);
        self.send_command(Command::ReadId {
            head_drive: head * 4 + bay,
        });
        self.finish()
    }

    /// READ DATA to memory.
    pub(crate) fn read_to(
        &mut self,
        bay: u8,
        key: Chrn,
        rate: Rate,
        address: u32,
    ) -> Result<Done, Code>
        requires bay { bay ≤ 1 }
        requires head { key.h ≤ 1 }
        requires coded { IsSizeCode key.n }
        requires range { address + content_size key.n ≤ 1048576 }
        ensures sends { SendsRead self.old.motors bay key rate address (board_of D.state self.old) result (board_of D.state self.new) }
        ensures motors { self.new.motors ≡ self.old.motors }
    {
        self.prepare(bay, rate);
        self.set_channel(Way::ToMemory, address, (sector_size(key.n) - 1) as u16);
        self.send(&sector_command(READ_DATA, bay, key, rate));
        self.finish()
    }
}

/// The bytes of a command of one sector. That sector is given as the last of its track, so that the command ends with
/// it.
pub(crate) fn sector_command(command: u8, bay: u8, key: Chrn, rate: Rate) -> [u8; 9]
    requires bay { bay ≤ 1 }
    requires head { key.h ≤ 1 }
    ensures { result ≡ sector_bytes command bay key rate }
{
    [
        command,
        key.h * 4 + bay,
        key.c,
        key.h,
        key.r,
        key.n,
        key.r,
        rate.read_gap(),
        DATA_LENGTH,
    ]
}
