// The medium of a flat file.
ghost use Rattle.flat_files.specs.FormMaking.{MakesForm};

use crate::form::FlatForm;
use crate::form_fault::FormFault;
use crate::form_imaging::form_image;
use imagedisk::{ImdError, to_medium};
use raw_image::Medium;
use std::alloc::Global;
use track_format::NARROW_GAP;

/// The medium of a flat file of this geometry. It isn't protected, and has the sectors of the file and no others. Their
/// gaps are as wide as the track has room for.
pub fn flat_medium_as(alloc: Global, bytes: &[u8], form: FlatForm) -> Result<Medium, FormFault>
    ensures { MakesForm form bytes.now result }
{
    if !form.is_one() {
        return Err(FormFault::NoForm);
    }
    if bytes.len() != form.length() {
        return Err(FormFault::Length);
    }
    let image = form_image(alloc, bytes, form)?;
    match to_medium(alloc, &image, NARROW_GAP) {
        Ok(medium) => Ok(medium),
        Err(ImdError::Unfit { .. }) => Err(FormFault::Crowded),
        Err(ImdError::NoMemory) => Err(FormFault::NoMemory),
    }
}
