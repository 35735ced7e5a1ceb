// What is printed of a file.
use crate::draft::Draft;

/// Prints a file's name with its length and its sum, or that it isn't there.
pub fn put_file(out: &mut Draft, name: &str, bytes: Option<&[u8]>) {
    out.text(name);
    match bytes {
        Some(bytes) => {
            out.numbers(&[bytes.len() as u64]);
            out.text(" ");
            out.hex_long(sum_of(bytes));
            out.line("");
        }
        None => out.line(" absent"),
    }
}

/// CRC-32 (IEEE 802.3).
fn sum_of(bytes: &[u8]) -> u32 {
    let mut sum = 0xFFFF_FFFFu32;
    for byte in bytes {
        sum = with_byte(sum, *byte);
    }
    sum ^ 0xFFFF_FFFF
}

fn with_byte(sum: u32, byte: u8) -> u32 {
    let mut sum = sum ^ u32::from(byte);
    for _ in 0..8 {
        let half = sum >> 1;
        sum = if sum & 1 == 1 {
            half ^ 0xEDB8_8320
        } else {
            half
        };
    }
    sum
}
