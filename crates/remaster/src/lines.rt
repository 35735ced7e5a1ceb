// A line for each address field of a medium.
ghost use Rattle.std.specs.Prelude.{◌≡◌, ◌++◌, ◌<◌, List, map, Some, OnOk, IfOk};
ghost use Rattle.remaster.specs.Common.{HasTrack, track_of};
ghost use Rattle.remaster.specs.declared.looked.LookedField.{LookedField};
ghost use Rattle.remaster.specs.declared.lines.SurveyLine.{SurveyLine};
ghost use Rattle.remaster.specs.Looked.{AreLooked};
ghost use Rattle.remaster.specs.Survey.{track_number, cylinder_tracks, line_on, AreLines, IsSurvey, look_text, word_text, line_text, end_text};

use crate::looked::{LookedField, is_size_code, list_looked};
use flop_base::{Chrn, NoMemory};
use raw_image::Medium;
use sector_map::{Field, Look};
use std::alloc::Global;
use std::fmt;

/// An address field of a medium, shown as `CYLINDER HEAD PLACE C H R N WORD`. The numbers are decimal. PLACE is the
/// first cell of the field's marks, and WORD is what was found behind the field.
#[derive(Clone, Copy, Debug, PartialEq, Eq)]
pub struct SurveyLine {
    /// The cylinder of the track, counted from 0.
    pub cylinder: u8,
    /// The head of the track, counted from 0.
    pub head: u8,
    pub field: Field,
    /// The look at the field. It is `NoData` if the size code names no size.
    pub look: Look,
}

/// The last line of a survey of `count` address fields, shown as `survey COUNT`.
#[derive(Clone, Copy, Debug, PartialEq, Eq)]
pub struct SurveyEnd {
    pub count: usize,
}

/// The word for a look: `ok` or `deleted` if the data are found, and otherwise the status code of INT 13h (PC/AT). The
/// look at an address field is never `NoMark` or `NoSector`.
fn look_word(look: Look) -> &'static str
    ensures { result.now ≡ look_text look }
{
    match look {
        Look::Found { deleted: false, .. } => "ok",
        Look::Found { deleted: true, .. } => "deleted",
        Look::NoMark | Look::NoData => "02",
        Look::NoSector => "04",
        Look::BadCrc => "10",
    }
}

/// The last word of a line. It is `size` if the size code names no size.
fn word_of(n: u8, look: Look) -> &'static str
    ensures { result.now ≡ word_text n look }
{
    if is_size_code(n) {
        look_word(look)
    } else {
        "size"
    }
}

impl fmt::Display for SurveyLine {
    ghost output = { λ line. Some (line_text line) };

    #[tactic(auto, unfolding(crate::specs::Survey::line_text))]
    fn fmt<W: fmt::Write>(&self, f: &mut fmt::Formatter<W>) -> fmt::Result {
        let cylinder = self.cylinder;
        let head = self.head;
        let place = self.field.place;
        let Chrn { c, h, r, n } = self.field.key;
        let word = word_of(n, self.look);
        write!(f, "{cylinder} {head} {place} {c} {h} {r} {n} {word}")
    }
}

impl fmt::Display for SurveyEnd {
    ghost output = { λ end. Some (end_text end.count) };

    #[tactic(auto, unfolding(crate::specs::Survey::end_text))]
    fn fmt<W: fmt::Write>(&self, f: &mut fmt::Formatter<W>) -> fmt::Result {
        let count = self.count;
        write!(f, "survey {count}")
    }
}

/// Adds the lines of a track.
fn push_track(
    lines: &mut Vec<SurveyLine>,
    alloc: Global,
    medium: &Medium,
    c: u8,
    h: u8,
) -> Result<(), NoMemory>
    requires { HasTrack medium.now c h }
    ensures { OnOk result ((looked : List LookedField) × AreLooked (track_of medium.now c h) looked
        × (lines.new.items ≡ lines.old.items ++ map (line_on (track_number c h)) looked)) }
{
    let Some(words) = medium.track(c, h) else {
        return Ok(());
    };
    let looked = list_looked(alloc, words)?;
    for one in &looked {
        lines.push(SurveyLine {
            cylinder: c,
            head: h,
            field: one.field,
            look: one.look,
        })?;
    }
    Ok(())
}

/// Adds the lines of a cylinder's tracks, by head.
fn push_cylinder(
    lines: &mut Vec<SurveyLine>,
    alloc: Global,
    medium: &Medium,
    c: u8,
) -> Result<(), NoMemory>
    requires { c < medium.now.cylinders }
    ensures { OnOk result ((more : List SurveyLine) × (lines.new.items ≡ lines.old.items ++ more)
        × AreLines medium.now (cylinder_tracks medium.now.heads c) more) }
{
    for h in 0..medium.heads() {
        push_track(lines, alloc, medium, c, h)?;
    }
    Ok(())
}

/// The address fields of all tracks with the look at each, by cylinder, head and place.
pub fn survey(alloc: Global, medium: &Medium) -> Result<Vec<SurveyLine>, NoMemory>
    ensures { IfOk result (λ lines. IsSurvey medium.now lines.items) }
{
    let mut lines = Vec::new(alloc);
    for c in 0..medium.cylinders() {
        push_cylinder(&mut lines, alloc, medium, c)?;
    }
    Ok(lines)
}
