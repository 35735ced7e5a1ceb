// The key of a sector, as its address field has it.
ghost use Rattle.std.specs.Prelude.{◌≡◌, ◌≤◌, ◌*◌, ◌^◌};

/// The sector ID, the four bytes of an address field (IBM System 34). They are what the field says, on whatever track
/// it stands.
#[derive(Clone, Copy, Debug, PartialEq, Eq)]
pub struct Chrn {
    /// The cylinder, from 0.
    pub c: u8,
    /// The head, from 0.
    pub h: u8,
    /// The record, from 1 in the standard formats.
    pub r: u8,
    /// The size code: 1 to 6 for 256 to 8,192 bytes. Other bytes name no size here.
    pub n: u8,
}

/// The bytes of a sector with size code `n`, from 256 for 1 to 8,192 for 6.
pub fn sector_size(n: u8) -> usize
    requires at_least { 1 ≤ n }
    requires at_most { n ≤ 6 }
    ensures size { result ≡ 128 * 2 ^ n }
    ensures most { result ≤ 8192 }
{
    128usize << n
}
