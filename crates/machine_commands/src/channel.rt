// DMA channel 2.
ghost use Rattle.std.specs.Prelude.{◌≡◌, ◌≤◌, ◌<◌};
ghost use Rattle.machine_commands.specs.Awaited.{SetsAddress, SetsChannel, SetsCount};
ghost use Rattle.machine_commands.specs.Channels.{mode_of};
ghost use Rattle.machine_commands.specs.Shown.{board_of};

use crate::machine::CommandedMachine;
use crate::ports::{ADDRESS, CLEAR_FLIP_FLOP, COUNT, DMA_COMMAND, MASK, MODE, PAGE};
use drive_model::Drive;

/// The mask of channel 2 set.
const MASKED: u8 = 0x06;

/// The mask of channel 2 cleared.
const UNMASKED: u8 = 0x02;

/// Which way the bytes of a transfer go: single transfers of channel 2, the address going up.
#[derive(Clone, Copy, Debug, PartialEq, Eq)]
pub(crate) enum Way {
    ToMemory,
    FromMemory,
}

impl Way {
    /// The mode of the channel.
    fn mode(self) -> u8
        ensures { result ≡ mode_of self }
    {
        match self {
            Way::ToMemory => 0x46,
            Way::FromMemory => 0x4A,
        }
    }
}

impl<D: Drive> CommandedMachine<D> {
    /// Sets the channel to a range of memory inside one page of 65,536 bytes. The range is given by its first address,
    /// and by its number of bytes less one.
    pub(crate) fn set_channel(&mut self, way: Way, address: u32, last: u16)
        requires { address < 1048576 }
        ensures sets { SetsChannel (mode_of way) address last (board_of D.state self.old) (board_of D.state self.new) }
        ensures motors { self.new.motors ≡ self.old.motors }
    {
        self.machine.outb(DMA_COMMAND, 0);
        self.machine.outb(MASK, MASKED);
        self.machine.outb(CLEAR_FLIP_FLOP, 0);
        self.machine.outb(MODE, way.mode());
        self.set_address(address);
        self.set_count(last);
        self.machine.outb(MASK, UNMASKED);
    }

    /// Sets the first address, by the low and the high byte and the page.
    fn set_address(&mut self, address: u32)
        requires { address < 1048576 }
        ensures sets { SetsAddress address (board_of D.state self.old) (board_of D.state self.new) }
        ensures motors { self.new.motors ≡ self.old.motors }
    {
        self.machine.outb(ADDRESS, (address % 256) as u8);
        self.machine.outb(ADDRESS, (address / 256 % 256) as u8);
        self.machine.outb(PAGE, (address / 65_536) as u8);
    }

    /// Sets the number of bytes less one, by the low and the high byte.
    fn set_count(&mut self, last: u16)
        ensures sets { SetsCount last (board_of D.state self.old) (board_of D.state self.new) }
        ensures motors { self.new.motors ≡ self.old.motors }
    {
        self.machine.outb(COUNT, (last % 256) as u8);
        self.machine.outb(COUNT, (last / 256) as u8);
    }
}
