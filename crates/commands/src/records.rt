// Where the records of a track lie in memory.
ghost use Rattle.std.specs.Prelude.{◌≡◌, ◌≤◌};
ghost use Rattle.commands.specs.Records.{record_address};

/// Where the first record of a track lies in memory.
pub const TRACK_ADDRESS: u32 = 0x10000;

/// Where a record of a track lies in memory, from 1 on, with 512 bytes each.
pub fn record_address(r: u8) -> u32
    requires { 1 ≤ r }
    ensures { result ≡ record_address r }
{
    TRACK_ADDRESS + 512 * (r as u32 - 1)
}
