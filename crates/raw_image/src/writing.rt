// From a medium to the bytes of its image file.
ghost use Rattle.std.specs.Prelude.{◌≡◌, [], IfOk, OnOk, Ok};
ghost use Rattle.raw_image.specs.declared.header.Version.TheVariants.{Second};
ghost use Rattle.raw_image.specs.Image.{header_bytes, disk_of, file_of, image_of};
ghost use Rattle.raw_image.specs.Shape.{header_view};

use crate::header::HEADER;
use crate::medium::Medium;
use crate::shape::ImageShape;
use crate::words::push_bytes;
use flop_base::{NoMemory, Rate};
use std::alloc::Global;

/// Adds the header of version 2.
fn push_header(bytes: &mut Vec<u8>, shape: ImageShape) -> Result<(), NoMemory>
    requires { bytes.old.items ≡ [] }
    ensures { OnOk result (bytes.new.items ≡ header_bytes Second (disk_of (header_view shape) [])) }
{
    bytes.extend_from_slice(b"RTIMAGE2")?;
    bytes.push(if shape.protected { 1 } else { 0 })?;
    bytes.push(shape.cylinders)?;
    bytes.push(shape.heads)?;
    bytes.push(match shape.rate {
        Rate::R500 => 0,
        Rate::R250 => 2,
    })?;
    bytes.extend_from_slice(&shape.words_per_track.to_be_bytes())?;
    Ok(())
}

/// The image file of a medium, in version 2.
pub fn write_image(alloc: Global, medium: &Medium) -> Result<Vec<u8>, NoMemory>
    ensures spelled { IfOk result (λ bytes. bytes.items ≡ file_of medium.now) }
    // Reading the file gives the medium again.
    ensures again { IfOk result (λ bytes. image_of bytes.items ≡ Ok medium.now) }
{
    let shape = medium.shape();
    let mut bytes = Vec::with_capacity(alloc, HEADER + 2 * shape.count())?;
    push_header(&mut bytes, shape)?;
    push_bytes(&mut bytes, medium.all_words())?;
    Ok(bytes)
}
