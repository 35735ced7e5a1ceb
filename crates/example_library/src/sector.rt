// Reads one sector of an image, and prints its mark and its first bytes.
ghost use Rattle.std.specs.Prelude.{◌≡◌, length};
ghost use Rattle.telwyddus.specs.Disk.Fields.{content_size};

use crate::trouble::Trouble;
use std::alloc::Global;
use telwyddus::disk::{ImageError, Medium, TurnRead, read_image, read_turn, write_image};
use telwyddus::track::{fill_field_words, fill_layout};
use telwyddus::{Chrn, NoMemory};

/// Cylinder 0, head 0, record 1, of 256 bytes.
const KEY: Chrn = Chrn {
    c: 0,
    h: 0,
    r: 1,
    n: 1,
};

/// The image of a disk of one track. One sector on it has the bytes 00, 01, 02 and so on, and is marked deleted.
fn image(alloc: Global) -> Result<Vec<u8>, NoMemory> {
    let mut content = [0; 256];
    for i in 0..256 {
        content[i] = i as u8;
    }
    let mut track = vec![in alloc; 0; 500]?;
    fill_layout(track.as_mut_slice(), &[KEY], KEY.n, 27, 0xF6);
    // The words of the data field begin 146 + 44 words after the index. They are 12 of sync, 4 of marks, the content,
    // and 2 of the CRC.
    fill_field_words(&mut track[190..464], true, &content);
    let mut medium = Medium::blank(alloc, 1, 1, 500)?;
    medium.set_words(0, 0, 0, &track);
    write_image(alloc, &medium)
}

/// Reads the sector with this sector ID from an image.
fn read_sector(alloc: Global, bytes: &[u8], content: &mut [u8]) -> Result<TurnRead, ImageError>
    requires { length content.old ≡ content_size 1 }
{
    let medium = read_image(alloc, bytes)?;
    match medium.track(0, 0) {
        Some(track) => Ok(read_turn(track, KEY, content)),
        None => Ok(TurnRead::NoMark),
    }
}

/// The data mark and the content of the sector.
fn found(alloc: Global) -> Result<(bool, [u8; 256]), Trouble> {
    let bytes = image(alloc)?;
    let mut content = [0; 256];
    match read_sector(alloc, &bytes, &mut content)? {
        TurnRead::Found { deleted } => Ok((deleted, content)),
        _ => Err(Trouble::Differs),
    }
}

/// Makes the image, and reads the sector.
pub(crate) fn run(rt: &(impl Print + AllocGlobal)) -> Result<(), Trouble> {
    let (deleted, content) = found(rt.alloc())?;
    // F8 is the mark of deleted data (IBM System 34). `image` gives its field this mark.
    let mark = if deleted { 0xF8 } else { 0xFB };
    println!(rt; "mark {mark:02X}")?;
    // The bytes are 00 01 02 03, since `image` counts from 00.
    let [first, second, third, fourth, ..] = content;
    println!(rt; "{first:02X} {second:02X} {third:02X} {fourth:02X}")?;
    Ok(())
}
