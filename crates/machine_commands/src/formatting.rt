// FORMAT TRACK.
ghost use Rattle.std.specs.Prelude.{◌≡◌, ◌≤◌, ◌+◌, ◌*◌, ℕ, length};
ghost use Rattle.machine_commands.specs.Common.{sectors_at, memory_of};
ghost use Rattle.machine_commands.specs.Shown.{board_of};
ghost use Rattle.machine_commands.specs.WriteSent.{PutsByte, PutsKey, PutsKeys, SendsFormatBytes, keys_at};

use crate::channel::Way;
use crate::machine::CommandedMachine;
use crate::results::Done;
use drive_model::Drive;
use fdc_commands::Command;
use flop_base::standard::SIZE_CODE;
use flop_base::{Code, Rate};

/// The address of the keys of a format, in the driver's page.
const KEYS: u32 = 0xF_8000;

/// The bytes of a key.
const KEY_BYTES: u32 = 4;

impl<D: Drive> CommandedMachine<D> {
    /// FORMAT TRACK by the keys in the driver's page.
    pub(crate) fn format_track(
        &mut self,
        bay: u8,
        h: u8,
        rate: Rate,
        gap3: u8,
        fill: u8,
    ) -> Result<Done, Code>
        requires bay { bay ≤ 1 }
        requires head { h ≤ 1 }
        ensures sends { (c : ℕ) → SendsFormatBytes self.old.motors bay (record { c = c; h = h; rate = rate; gap3 = gap3; fill = fill }) (board_of D.state self.old) result (board_of D.state self.new) }
        ensures motors { self.new.motors ≡ self.old.motors }
    {
        let sectors = rate.sectors();
        self.prepare(bay, rate);
        self.set_channel(Way::FromMemory, KEYS, u16::from(sectors) * 4 - 1);
        self.send_command(Command::FormatTrack {
            head_drive: h * 4 + bay,
            n: SIZE_CODE,
            sc: sectors,
            gpl: gap3,
            fill,
        });
        self.finish()
    }

    /// Puts the keys of all records that a track of a rate has, from record 1 on, into the driver's page.
    pub(crate) fn put_keys(&mut self, c: u8, h: u8, rate: Rate)
        requires { length (memory_of (board_of D.state self.old)) ≡ 1048576 }
        ensures keys { PutsKeys c h (sectors_at rate) (board_of D.state self.old) (board_of D.state self.new) }
        ensures few { sectors_at rate ≤ 18 }
        ensures motors { self.new.motors ≡ self.old.motors }
    {
        for i in 0..rate.sectors() {
            self.put_key(KEYS + u32::from(i) * KEY_BYTES, c, h, i + 1);
        }
    }

    /// Puts the key of a record into the driver's page.
    fn put_key(&mut self, address: u32, c: u8, h: u8, r: u8)
        requires page { keys_at ≤ address }
        requires range { address + 4 ≤ 1048576 }
        requires memory { length (memory_of (board_of D.state self.old)) ≡ 1048576 }
        ensures key { PutsKey address c h r (board_of D.state self.old) (board_of D.state self.new) }
        ensures motors { self.new.motors ≡ self.old.motors }
    {
        self.put_byte(address, c);
        self.put_byte(address + 1, h);
        self.put_byte(address + 2, r);
        self.put_byte(address + 3, SIZE_CODE);
    }

    /// Puts a byte into the driver's page.
    fn put_byte(&mut self, address: u32, value: u8)
        requires page { keys_at ≤ address }
        requires range { address + 1 ≤ 1048576 }
        ensures byte { PutsByte address value (board_of D.state self.old) (board_of D.state self.new) }
        ensures motors { self.new.motors ≡ self.old.motors }
    {
        self.machine.ram_set(address, value);
    }
}
