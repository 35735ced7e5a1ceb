// The form that the words of the command line spell.
ghost use Rattle.std.specs.Prelude.{◌≡◌, map, string_bytes, true};
ghost use Rattle.std.specs.List.{list_any};
ghost use Rattle.floppy_words.specs.Forms.{Reads, ports_file_of, begins_with_dash, cylinders_of, disk_of, play_of, format_of, formatdd_of, copy_of, verify_of, fromimd_of, toimd_of, survey_of, remaster_of, names_of, form_of, import_of, export_of, count_of, workload_of, exercise_of, int13_of, rescue_of};

use crate::places::{one_place, three_places, two_places};
use crate::{Cylinders, Form};
use flop_base::{Name, NoMemory};
use floppy_jobs::numbers::number;
use floppy_jobs::{is_verb, name_text};
use std::alloc::Global;

/// The form that the words after the program's name spell; nothing if they are no form. The first word is the form's
/// verb. Finding that words are no form takes no memory.
pub fn form_named(alloc: Global, words: &[String]) -> Result<Option<Form>, NoMemory>
    ensures form { Reads result (form_of (map string_bytes words.now)) }
    ensures no_dash { list_any begins_with_dash (map string_bytes words.now) ≡ true → result ≡ Ok None }
{
    form(alloc, words)
}

/// The name of the text, if the words after the program's name are `ports FILE`. This is no form: it has no driver.
/// Finding that the words are others takes no memory.
pub fn ports_file(alloc: Global, words: &[String]) -> Result<Option<Name>, NoMemory>
    ensures file { Reads result (ports_file_of (map string_bytes words.now)) }
    ensures no_dash { list_any begins_with_dash (map string_bytes words.now) ≡ true → result ≡ Ok None }
{
    ports(alloc, words)
}

#[tactic(auto, unfolding(crate::specs::Forms::ports_file_of))]
fn ports(alloc: Global, words: &[String]) -> Result<Option<Name>, NoMemory>
    ensures { Reads result (ports_file_of (map string_bytes words.now)) }
{
    let [verb, file] = words else { return Ok(None) };
    if !is_verb(verb.as_bytes(), "ports") {
        return Ok(None);
    }
    let Some(file) = name_text(file.as_bytes()) else {
        return Ok(None);
    };
    let file = one_place(alloc, "ports", file)?;
    Ok(Some(file))
}

#[tactic(auto, unfolding(crate::specs::Forms::form_of))]
fn form(alloc: Global, words: &[String]) -> Result<Option<Form>, NoMemory>
    ensures { Reads result (form_of (map string_bytes words.now)) }
{
    let Some((verb, behind)) = words.split_first() else {
        return Ok(None);
    };
    let verb = verb.as_bytes();
    if is_verb(verb, "play") {
        play(alloc, behind)
    } else if is_verb(verb, "format") {
        format(alloc, behind)
    } else if is_verb(verb, "formatdd") {
        formatdd(alloc, behind)
    } else if is_verb(verb, "copy") {
        copy(alloc, behind)
    } else if is_verb(verb, "verify") {
        verify(alloc, behind)
    } else if is_verb(verb, "fromimd") {
        fromimd(alloc, behind)
    } else if is_verb(verb, "toimd") {
        toimd(alloc, behind)
    } else if is_verb(verb, "survey") {
        survey(alloc, behind)
    } else if is_verb(verb, "remaster") {
        remaster(alloc, behind)
    } else if is_verb(verb, "import") {
        import(alloc, behind)
    } else if is_verb(verb, "export") {
        export(alloc, behind)
    } else if is_verb(verb, "exercise") {
        exercise(alloc, behind)
    } else if is_verb(verb, "int13") {
        int13(alloc, behind)
    } else if is_verb(verb, "rescue") {
        rescue(alloc, behind)
    } else {
        Ok(None)
    }
}

#[tactic(auto, unfolding(crate::specs::Forms::play_of))]
fn play(alloc: Global, words: &[String]) -> Result<Option<Form>, NoMemory>
    ensures { Reads result (play_of (map string_bytes words.now)) }
{
    let [job] = words else { return Ok(None) };
    let Some(job) = name_text(job.as_bytes()) else {
        return Ok(None);
    };
    let job = one_place(alloc, "play", job)?;
    Ok(Some(Form::Play { job }))
}

#[tactic(auto, unfolding(crate::specs::Forms::format_of))]
fn format(alloc: Global, words: &[String]) -> Result<Option<Form>, NoMemory>
    ensures { Reads result (format_of (map string_bytes words.now)) }
{
    match disk(alloc, "format", words)? {
        Some((name, cylinders)) => Ok(Some(Form::Format { name, cylinders })),
        None => Ok(None),
    }
}

#[tactic(auto, unfolding(crate::specs::Forms::formatdd_of))]
fn formatdd(alloc: Global, words: &[String]) -> Result<Option<Form>, NoMemory>
    ensures { Reads result (formatdd_of (map string_bytes words.now)) }
{
    match disk(alloc, "formatdd", words)? {
        Some((name, cylinders)) => Ok(Some(Form::FormatDd { name, cylinders })),
        None => Ok(None),
    }
}

#[tactic(auto, using(crate::proofs::NameLemmas::copy_names))]
fn copy(alloc: Global, words: &[String]) -> Result<Option<Form>, NoMemory>
    ensures { Reads result (copy_of (map string_bytes words.now)) }
{
    match two_names(alloc, "copy", words)? {
        Some((from, to)) => Ok(Some(Form::Copy { from, to })),
        None => Ok(None),
    }
}

#[tactic(auto, unfolding(crate::specs::Forms::verify_of))]
fn verify(alloc: Global, words: &[String]) -> Result<Option<Form>, NoMemory>
    ensures { Reads result (verify_of (map string_bytes words.now)) }
{
    let [name] = words else { return Ok(None) };
    let Some(name) = name_text(name.as_bytes()) else {
        return Ok(None);
    };
    let name = one_place(alloc, "verify", name)?;
    Ok(Some(Form::Verify { name }))
}

#[tactic(auto, unfolding(crate::specs::Forms::fromimd_of))]
fn fromimd(alloc: Global, words: &[String]) -> Result<Option<Form>, NoMemory>
    ensures { Reads result (fromimd_of (map string_bytes words.now)) }
{
    match two_names(alloc, "fromimd", words)? {
        Some((imd, name)) => Ok(Some(Form::FromImd { imd, name })),
        None => Ok(None),
    }
}

#[tactic(auto, unfolding(crate::specs::Forms::toimd_of))]
fn toimd(alloc: Global, words: &[String]) -> Result<Option<Form>, NoMemory>
    ensures { Reads result (toimd_of (map string_bytes words.now)) }
{
    match two_names(alloc, "toimd", words)? {
        Some((name, imd)) => Ok(Some(Form::ToImd { name, imd })),
        None => Ok(None),
    }
}

#[tactic(auto, unfolding(crate::specs::Forms::survey_of))]
fn survey(alloc: Global, words: &[String]) -> Result<Option<Form>, NoMemory>
    ensures { Reads result (survey_of (map string_bytes words.now)) }
{
    let [name] = words else { return Ok(None) };
    let Some(name) = name_text(name.as_bytes()) else {
        return Ok(None);
    };
    let name = one_place(alloc, "survey", name)?;
    Ok(Some(Form::Survey { name }))
}

#[tactic(auto, unfolding(crate::specs::Forms::remaster_of))]
fn remaster(alloc: Global, words: &[String]) -> Result<Option<Form>, NoMemory>
    ensures { Reads result (remaster_of (map string_bytes words.now)) }
{
    match two_names(alloc, "remaster", words)? {
        Some((from, to)) => Ok(Some(Form::Remaster { from, to })),
        None => Ok(None),
    }
}

/// The two names of a form that has no other words.
#[tactic(auto, unfolding(crate::specs::Forms::names_of))]
fn two_names(alloc: Global, verb: &str, words: &[String]) -> Result<Option<(Name, Name)>, NoMemory>
    ensures { Reads result (names_of (map string_bytes words.now)) }
{
    let [first, second] = words else {
        return Ok(None);
    };
    let Some(first) = name_text(first.as_bytes()) else {
        return Ok(None);
    };
    let Some(second) = name_text(second.as_bytes()) else {
        return Ok(None);
    };
    Ok(Some(two_places(alloc, verb, first, second)?))
}

#[tactic(auto, unfolding(crate::specs::Forms::int13_of))]
fn int13(alloc: Global, words: &[String]) -> Result<Option<Form>, NoMemory>
    ensures { Reads result (int13_of (map string_bytes words.now)) }
{
    let [calls] = words else { return Ok(None) };
    let Some(calls) = name_text(calls.as_bytes()) else {
        return Ok(None);
    };
    let calls = one_place(alloc, "int13", calls)?;
    Ok(Some(Form::Int13 { calls }))
}

#[tactic(auto, unfolding(crate::specs::Forms::rescue_of))]
fn rescue(alloc: Global, words: &[String]) -> Result<Option<Form>, NoMemory>
    ensures { Reads result (rescue_of (map string_bytes words.now)) }
{
    let [from, to, log] = words else {
        return Ok(None);
    };
    let Some(from) = name_text(from.as_bytes()) else {
        return Ok(None);
    };
    let Some(to) = name_text(to.as_bytes()) else {
        return Ok(None);
    };
    let Some(log) = name_text(log.as_bytes()) else {
        return Ok(None);
    };
    let (from, to, log) = three_places(alloc, "rescue", from, to, log)?;
    Ok(Some(Form::Rescue { from, to, log }))
}

/// The name and the cylinders of a disk that is to be formatted.
#[tactic(auto, unfolding(crate::specs::Forms::disk_of))]
fn disk(alloc: Global, verb: &str, words: &[String]) -> Result<Option<(Name, Cylinders)>, NoMemory>
    ensures { Reads result (disk_of (map string_bytes words.now)) }
{
    let [name, count] = words else {
        return Ok(None);
    };
    let Some(name) = name_text(name.as_bytes()) else {
        return Ok(None);
    };
    if cylinders(count.as_bytes()).is_none() {
        return Ok(None);
    }
    let (name, count) = two_places(alloc, verb, name, count.as_str())?;
    match cylinders(count.as_str().as_bytes()) {
        Some(cylinders) => Ok(Some((name, cylinders))),
        None => Ok(None),
    }
}

#[tactic(auto, using(crate::proofs::NumberLemmas::number_least), unfolding(crate::specs::Forms::cylinders_of))]
fn cylinders(word: &[u8]) -> Option<Cylinders>
    ensures { result ≡ cylinders_of word.now }
{
    let count = number(word, 10, 1, 10, 1, 80)?;
    Some(Cylinders::new(count as u8))
}

#[tactic(auto, unfolding(crate::specs::Forms::import_of))]
fn import(alloc: Global, words: &[String]) -> Result<Option<Form>, NoMemory>
    ensures { Reads result (import_of (map string_bytes words.now)) }
{
    match two_names(alloc, "import", words)? {
        Some((flat, name)) => Ok(Some(Form::Import { flat, name })),
        None => Ok(None),
    }
}

#[tactic(auto, unfolding(crate::specs::Forms::export_of))]
fn export(alloc: Global, words: &[String]) -> Result<Option<Form>, NoMemory>
    ensures { Reads result (export_of (map string_bytes words.now)) }
{
    match two_names(alloc, "export", words)? {
        Some((name, flat)) => Ok(Some(Form::Export { name, flat })),
        None => Ok(None),
    }
}

#[tactic(auto, unfolding(crate::specs::Forms::exercise_of))]
fn exercise(alloc: Global, words: &[String]) -> Result<Option<Form>, NoMemory>
    ensures { Reads result (exercise_of (map string_bytes words.now)) }
{
    let [seed, count] = words else {
        return Ok(None);
    };
    if workload(seed.as_bytes(), count.as_bytes()).is_none() {
        return Ok(None);
    }
    let (seed, count) = two_places(alloc, "exercise", seed.as_str(), count.as_str())?;
    Ok(workload(seed.as_str().as_bytes(), count.as_str().as_bytes()))
}

/// The workload of a seed and a count.
#[tactic(auto, unfolding(crate::specs::Forms::workload_of, crate::specs::Forms::seed_of))]
fn workload(seed: &[u8], count: &[u8]) -> Option<Form>
    ensures { result ≡ workload_of seed.now count.now }
{
    let seed = number(seed, 10, 1, 10, 0, 2_147_483_647)?;
    let count = request_count(count)?;
    Some(Form::Exercise { seed, count })
}

#[tactic(auto, unfolding(crate::specs::Forms::count_of))]
fn request_count(word: &[u8]) -> Option<u16>
    ensures { result ≡ count_of word.now }
{
    let count = number(word, 10, 1, 10, 0, 2000)?;
    Some(count as u16)
}
