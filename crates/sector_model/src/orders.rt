// What can be asked for, before a station is looked at.
ghost use Rattle.std.specs.Prelude.{◌≡◌, ◌+◌, ◌≤◌, IsTrue};
ghost use Rattle.sector_model.specs.Common.{user_bytes};
ghost use Rattle.sector_model.specs.Orders.{is_place, is_sector_request, crosses_page, most_format_gap};
ghost use Rattle.sector_model.specs.Asked.{IsAsked};

use flop_base::{Chrn, Rate, USER_BYTES, sector_size};

/// Whether a drive has this cylinder and head: cylinders 0 to 79, heads 0 and 1.
pub fn is_place(c: u8, h: u8) -> bool
    ensures { result ≡ is_place c h }
{
    c <= 79 && h <= 1
}

/// Whether a read or a write of this key can be asked for, at this address. It needs bay 0 or 1, a place of a drive, a
/// record from 1, a size code from 1 to 6, and all bytes in user memory.
pub fn is_sector_request(bay: u8, key: Chrn, address: u32) -> bool
    ensures value { result ≡ is_sector_request bay key address }
    ensures asked { IsTrue result → IsAsked bay key address }
{
    if bay > 1 || !is_place(key.c, key.h) || key.n < 1 || key.n > 6 || key.r < 1 {
        return false;
    }
    address as usize + sector_size(key.n) <= USER_BYTES as usize
}

/// Whether the first and the last byte of a range of user memory lie in different pages of 65,536 bytes.
pub fn crosses_page(address: u32, count: usize) -> bool
    requires some { 1 ≤ count }
    requires within { address + count ≤ user_bytes }
    ensures { result ≡ crosses_page address count }
{
    let first = address as usize;
    first / 65_536 != (first + count - 1) / 65_536
}

/// The longest gap 3, in bytes, with which the sectors of a rate fit on a track of that rate's usual length.
pub fn most_format_gap(rate: Rate) -> u8
    ensures { result ≡ most_format_gap rate }
{
    match rate {
        Rate::R500 => 112,
        Rate::R250 => 104,
    }
}
