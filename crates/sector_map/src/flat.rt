//! Flat files: the sectors of a diskette and nothing else, by cylinder, then head, then record, 512 bytes each. A file
//! has 80 cylinders of 2 heads, and each track has 9 sectors (720 KB) or 18 (1.44 MB).
ghost use Rattle.std.specs.Prelude.{◌≡◌, ◌+◌, ◌<◌, ◌≤◌, ◌↔◌, length, IfOk};
ghost use Rattle.sector_map.specs.Flat.{IsDensity, IsSector, flat_length, sector_place, sectors_told};

use raw_image::ImageError;

/// The tracks of a file: 80 cylinders of 2 heads.
pub const TRACKS: usize = 160;

/// The bytes of a sector.
pub const SECTOR_BYTES: usize = 512;

/// The bytes of a file with 9 sectors on each track.
const LENGTH_OF_9: usize = TRACKS * 9 * SECTOR_BYTES;

/// The bytes of a file with 18 sectors on each track.
const LENGTH_OF_18: usize = TRACKS * 18 * SECTOR_BYTES;

/// The offset of a sector's first byte, by cylinder, then head, then record. `c` and `h` count from 0, `r` from 1.
pub fn place(sectors: u8, c: u8, h: u8, r: u8) -> usize
    requires density { IsDensity sectors }
    requires there { IsSector sectors c h r }
    ensures place { result ≡ sector_place sectors c h r }
    ensures inside { result + 512 ≤ flat_length sectors }
{
    let track = usize::from(c) * 2 + usize::from(h);
    (track * usize::from(sectors) + usize::from(r) - 1) * SECTOR_BYTES
}

/// The sectors on each track of a flat file, 9 or 18, by the file's length. Any other length is an error.
pub fn check(bytes: &[u8]) -> Result<u8, ImageError>
    ensures told { result ≡ sectors_told (length bytes.now) }
    ensures ok { IfOk result (λ sectors. IsDensity sectors
        × (length bytes.now ≡ flat_length sectors)) }
    ensures nine { (result ≡ Ok 9) ↔ (length bytes.now ≡ 737280) }
    ensures eighteen { (result ≡ Ok 18) ↔ (length bytes.now ≡ 1474560) }
    ensures short { (result ≡ Err (ImageError.TooShort 737280 (length bytes.now)))
        ↔ (length bytes.now < 737280) }
    ensures between { (result ≡ Err (ImageError.TooShort 1474560 (length bytes.now)))
        ↔ ((737280 < length bytes.now) × (length bytes.now < 1474560)) }
    ensures long { (result ≡ Err (ImageError.Trailing 1474560)) ↔ (1474560 < length bytes.now) }
{
    let have = bytes.len();
    if have == LENGTH_OF_9 {
        Ok(9)
    } else if have == LENGTH_OF_18 {
        Ok(18)
    } else if have < LENGTH_OF_9 {
        let need = LENGTH_OF_9;
        Err(ImageError::TooShort { need, have })
    } else if have < LENGTH_OF_18 {
        let need = LENGTH_OF_18;
        Err(ImageError::TooShort { need, have })
    } else {
        let offset = LENGTH_OF_18;
        Err(ImageError::Trailing { offset })
    }
}
