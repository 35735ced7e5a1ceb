// Media of flat files of any geometry, and of ImageDisk files.
ghost use Rattle.std.specs.Prelude.{IfOk};
ghost use Rattle.imagedisk.specs.Images.{IsImdImage};

use super::{FileBytes, rate, texts};
use flat_files::{FlatForm, FormFault, flat_medium_as};
use floppy_jobs::is_verb;
use imagedisk::{ImdError, ImdImage, read_imd, to_medium};
use raw_image::{ImageError, Medium, write_image};
use test_files::{Draft, LineWords, Wrong, put_file};

pub(crate) fn answer(
    verb: &[u8],
    asked: FileBytes,
    line: &mut LineWords,
    out: &mut Draft,
) -> Result<(), Wrong> {
    if is_verb(verb, "flat-as") {
        flat_as(asked, line, out)
    } else if is_verb(verb, "imd-as") {
        imd_as(asked, line, out)
    } else {
        texts::answer(verb, asked, line, out)
    }
}

/// Prints the length and the sum of a medium's image.
fn put_image(asked: FileBytes, medium: &Medium, out: &mut Draft) -> Result<(), Wrong> {
    let file = write_image(asked.alloc, medium)?;
    put_file(out, "image", Some(&file));
    Ok(())
}

/// `flat-as CYLINDERS HEADS SECTORS N 500` and `.. 250`: the image of the medium of a flat file
fn flat_as(asked: FileBytes, line: &mut LineWords, out: &mut Draft) -> Result<(), Wrong> {
    let (cylinders, heads, sectors, n) = (line.byte(), line.byte(), line.byte(), line.byte());
    let form = FlatForm {
        cylinders,
        heads,
        sectors,
        n,
        rate: rate(line),
    };
    match flat_medium_as(asked.alloc, asked.bytes, form) {
        Ok(medium) => put_image(asked, &medium, out),
        Err(FormFault::NoMemory) => Err(Wrong::NoMemory),
        Err(fault) => {
            out.show_line(&fault);
            Ok(())
        }
    }
}

/// The image of the ImageDisk file that was asked for.
fn imd_asked(asked: FileBytes) -> Result<ImdImage, Wrong>
    ensures { IfOk result IsImdImage }
{
    match read_imd(asked.alloc, asked.bytes) {
        Ok(image) => Ok(image),
        Err(ImageError::NoMemory) => Err(Wrong::NoMemory),
        Err(_) => Err(Wrong::Line),
    }
}

/// `imd-as LEAST`: the image of the medium of an ImageDisk file, with gaps of LEAST bytes or more
fn imd_as(asked: FileBytes, line: &mut LineWords, out: &mut Draft) -> Result<(), Wrong> {
    let least = line.byte();
    let image = imd_asked(asked)?;
    match to_medium(asked.alloc, &image, least) {
        Ok(medium) => put_image(asked, &medium, out),
        Err(ImdError::NoMemory) => Err(Wrong::NoMemory),
        Err(error) => {
            out.show_line(&error);
            Ok(())
        }
    }
}
