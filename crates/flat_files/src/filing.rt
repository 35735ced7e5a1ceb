// The flat file of a medium.
ghost use Rattle.std.specs.Prelude.{◌≡◌, ◌<◌, true};
ghost use Rattle.flat_files.specs.Files.{AddsTrack, AreOfTracks, GivesFile, GivesFlat, GivesForm, GivesTracks, is_plain as is_plain_track, sectors_at_rate, standard_form as standard_form_at};
ghost use Rattle.flat_files.specs.Forms.{IsForm, cylinder_of, head_of, tracks_of};

use crate::fault::FlatFault;
use crate::file_fault::FileFault;
use crate::finding::{content, is_plain};
use crate::form::FlatForm;
use flop_base::Rate;
use flop_base::standard::SIZE_CODE;
use imagedisk::{ImdError, ImdTrack, from_medium};
use raw_image::Medium;
use std::alloc::Global;

/// The geometry of 1.44 MB, at 500 kbit/s, or of 720 KB, at 250 kbit/s.
fn standard_form(rate: Rate) -> FlatForm
    ensures value { result ≡ standard_form_at rate }
    ensures form { IsForm result }
{
    let sectors = match rate {
        Rate::R500 => 18,
        Rate::R250 => 9,
    };
    FlatForm {
        cylinders: 80,
        heads: 2,
        sectors,
        n: SIZE_CODE,
        rate,
    }
}

/// Adds the contents of a track's records, after those of the tracks before it.
fn add_records(
    bytes: &mut Vec<u8>,
    tracks: &[ImdTrack],
    form: FlatForm,
    track: u8,
) -> Result<(), FlatFault>
    requires form { IsForm form }
    requires there { track < tracks_of form }
    requires before { AreOfTracks tracks.now form track bytes.old.items }
    requires plain { is_plain_track tracks.now form.sectors (cylinder_of form track) (head_of form track) ≡ true }
    ensures { AddsTrack tracks.now form track bytes.new.items result }
{
    let c = form.cylinder(track);
    let h = form.head(track);
    for i in 0..form.sectors {
        let r = i + 1;
        let Some(added) = content(tracks, form.n, c, h, r) else {
            return Err(FlatFault::Lacks { c, h, r });
        };
        bytes.extend_from_slice(added)?;
    }
    Ok(())
}

/// Adds the contents of a track, after those of the tracks before it. Tracks are counted by cylinder, then head. A
/// track with sectors that a flat file has no room for is refused: they aren't left out.
fn add_track(
    bytes: &mut Vec<u8>,
    tracks: &[ImdTrack],
    form: FlatForm,
    track: u8,
) -> Result<(), FlatFault>
    requires form { IsForm form }
    requires there { track < tracks_of form }
    requires before { AreOfTracks tracks.now form track bytes.old.items }
    ensures { AddsTrack tracks.now form track bytes.new.items result }
{
    let c = form.cylinder(track);
    let h = form.head(track);
    if is_plain(tracks, form.sectors, c, h) {
        add_records(bytes, tracks, form, track)
    } else {
        Err(FlatFault::More { c, h })
    }
}

/// The contents of all tracks.
fn file_of(alloc: Global, tracks: &[ImdTrack], form: FlatForm) -> Result<Vec<u8>, FlatFault>
    requires { IsForm form }
    ensures { GivesTracks tracks.now form result }
{
    let mut bytes = Vec::new(alloc);
    for track in 0..form.tracks() {
        add_track(&mut bytes, tracks, form, track)?;
    }
    Ok(bytes)
}

/// The flat file of a medium of this geometry.
fn file_as(alloc: Global, medium: &Medium, form: FlatForm) -> Result<Vec<u8>, FlatFault>
    requires { IsForm form }
    ensures { GivesFile form medium.now result }
{
    if medium.cylinders() != form.cylinders {
        return Err(FlatFault::Shape);
    }
    if medium.heads() != form.heads {
        return Err(FlatFault::Shape);
    }
    if medium.rate() != form.rate {
        return Err(FlatFault::Shape);
    }
    match from_medium(alloc, medium) {
        Ok(image) => file_of(alloc, image.tracks.as_slice(), form),
        Err(ImdError::Unfit { c, h }) => Err(FlatFault::Unfit { c, h }),
        Err(ImdError::NoMemory) => Err(FlatFault::NoMemory),
    }
}

/// The flat file of a medium of 80 cylinders with two heads, which has no other sectors than the file. The file has the
/// records 1 to 18 of each track at 500 kbit/s, and 1 to 9 at 250 kbit/s. Each has 512 bytes, the key of its cylinder
/// and head, and no mark as deleted.
pub fn flat_file(alloc: Global, medium: &Medium) -> Result<Vec<u8>, FlatFault>
    ensures { GivesFlat medium.now result }
{
    file_as(alloc, medium, standard_form(medium.rate()))
}

/// The flat file of a medium of this geometry. It has the records of the geometry on each track, each with the
/// geometry's size code.
pub fn flat_file_as(alloc: Global, medium: &Medium, form: FlatForm) -> Result<Vec<u8>, FileFault>
    ensures { GivesForm form medium.now result }
{
    if !form.is_one() {
        return Err(FileFault::NoForm);
    }
    let file = file_as(alloc, medium, form)?;
    Ok(file)
}
