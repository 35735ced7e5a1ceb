// Commands that write sectors.
ghost use Rattle.std.specs.Prelude.{◌≡◌, ◌≤◌, ◌+◌, ◌-◌};
ghost use Rattle.machine_commands.specs.Common.{IsSizeCode, content_size, write_code};
ghost use Rattle.machine_commands.specs.Shown.{board_of};
ghost use Rattle.machine_commands.specs.WriteSent.{SendsWriteBytes, told_of};

use crate::channel::Way;
use crate::machine::CommandedMachine;
use crate::reading::sector_command;
use crate::results::Done;
use drive_model::Drive;
use fdc_commands::codes::{WRITE_DATA, WRITE_DELETED};
use flop_base::{Chrn, Code, Rate, sector_size};

impl<D: Drive> CommandedMachine<D> {
    /// WRITE DATA or WRITE DELETED DATA from memory.
    pub(crate) fn write_sector(
        &mut self,
        bay: u8,
        key: Chrn,
        rate: Rate,
        address: u32,
        deleted: bool,
    ) -> Result<Done, Code>
        requires bay { bay ≤ 1 }
        requires head { key.h ≤ 1 }
        requires coded { IsSizeCode key.n }
        requires range { address + content_size key.n ≤ 1048576 }
        ensures sends { SendsWriteBytes self.old.motors bay key rate address deleted (board_of D.state self.old) result (board_of D.state self.new) }
        ensures motors { self.new.motors ≡ self.old.motors }
    {
        let command = write_byte(deleted);
        self.prepare(bay, rate);
        self.set_channel(Way::FromMemory, address, (sector_size(key.n) - 1) as u16);
        self.send(&sector_command(command, bay, key, rate));
        self.finish()
    }
}

/// The code of a write, with the mark of deleted data or without.
fn write_byte(deleted: bool) -> u8
    ensures { result ≡ write_code deleted }
{
    if deleted { WRITE_DELETED } else { WRITE_DATA }
}

/// What a driver is answered where a command has no answer but that it was done.
pub(crate) fn told(outcome: Result<Done, Code>) -> Result<(), Code>
    ensures { result ≡ told_of outcome }
{
    match outcome {
        Ok(_) => Ok(()),
        Err(code) => Err(code),
    }
}
