// The survey of a disk.
ghost use Rattle.std.specs.Prelude.{◌≡◌, IfOk, string_bytes};
ghost use Rattle.commands.specs.Puts.{Puts, PutsLast, printed_of};
ghost use Rattle.archive_commands.specs.Files.{faulty_outside_of, faulty_files_of, Loaded, RanOnFiles};
ghost use Rattle.archive_commands.specs.Surveys.{field_line, field_lines, survey_lines, end_line, is_found, found_count, IsSectorCount, GivesSurvey, Surveys};

use crate::files::load_medium;
use commands::{put_last, put_last_line, put_line};
use flop_base::{Name, NoMemory, Shelf, Sink, Status};
use raw_image::Medium;
use remaster::{SurveyEnd, SurveyLine, survey};
use sector_map::Look;
use sector_model::Stop;
use std::alloc::{AllocError, Global};

/// Whether a look found a sector.
fn is_found(look: Look) -> bool
    ensures { result ≡ is_found look }
{
    match look {
        Look::Found { .. } => true,
        Look::NoMark | Look::NoSector | Look::NoData | Look::BadCrc => false,
    }
}

/// How many of these lines are of a sector that was found.
fn found_count(lines: &[SurveyLine]) -> usize
    ensures { result ≡ found_count lines.now }
{
    lines.iter().filter(|line| is_found(line.look)).count()
}

/// How many sectors a disk has.
pub(crate) fn sector_count(alloc: Global, medium: &Medium) -> Result<usize, NoMemory>
    ensures { IfOk result (λ count. IsSectorCount medium.now count) }
{
    let lines = survey(alloc, medium)?;
    Ok(found_count(&lines))
}

/// The survey of the image file of this name.
fn survey_file<S: Shelf>(alloc: Global, shelf: &mut S, name: &Name) -> Result<Vec<SurveyLine>, Stop>
    ensures { Loaded (GivesSurvey name.now) (faulty_files_of S.told S.fault_count shelf.old) result (faulty_files_of S.told S.fault_count shelf.new) }
{
    let medium = load_medium(alloc, shelf, name)?;
    Ok(survey(alloc, &medium)?)
}

/// The line of an address field.
fn field_line(alloc: Global, line: SurveyLine) -> Result<String, AllocError>
    ensures { IfOk result (λ text. string_bytes text ≡ field_line line) }
{
    format!(in alloc; "{line}\n")
}

/// Puts the lines of address fields.
fn put_fields<K: Sink>(alloc: Global, out: &mut K, lines: &[SurveyLine]) -> Result<(), Status>
    ensures { Puts (field_lines lines.now) (printed_of K.told K.fault_count out.old) result (printed_of K.told K.fault_count out.new) }
{
    for line in lines {
        put_line(out, field_line(alloc, *line))?;
    }
    Ok(())
}

/// The last line of a survey.
fn end_line(alloc: Global, count: usize) -> Result<String, AllocError>
    ensures { IfOk result (λ text. string_bytes text ≡ end_line count) }
{
    let end = SurveyEnd { count };
    format!(in alloc; "{end}\n")
}

/// Puts a survey, and gives the status.
fn put_survey<K: Sink>(alloc: Global, out: &mut K, lines: &[SurveyLine]) -> Status
    ensures { PutsLast (survey_lines lines.now) Status.AllOk (printed_of K.told K.fault_count out.old) (printed_of K.told K.fault_count out.new) result }
{
    match put_fields(alloc, out, lines) {
        Ok(()) => put_last_line(out, end_line(alloc, lines.len()), Status::AllOk),
        Err(ended) => ended,
    }
}

/// Prints a line for each address field of a disk, by cylinder, head and place, with what a look at it finds, and then
/// how many there are. Or prints what stopped the command.
pub fn survey_disk<S: Shelf, K: Sink>(
    alloc: Global,
    name: Name,
    shelf: &mut S,
    out: &mut K,
) -> Status
    ensures { RanOnFiles (Surveys name) (faulty_outside_of S.told S.fault_count K.told K.fault_count shelf.old out.old)
        (faulty_outside_of S.told S.fault_count K.told K.fault_count shelf.new out.new) result }
{
    match survey_file(alloc, shelf, &name) {
        Ok(lines) => put_survey(alloc, out, &lines),
        Err(stop) => put_last(alloc, out, &stop),
    }
}
