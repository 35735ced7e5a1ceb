// The words after a verb, read by `clap`. Each form is a simple command that has only positional arguments (places).
// After `--` every word goes to a place, whatever its letters are.
ghost use Rattle.std.specs.Prelude.{◌≡◌, IfOk, IsSome, Some, codes, false, map};
ghost use Rattle.clap.specs.Words.{HasMatchesOf, app_of, first_value, found_of, rule_of};
ghost use Rattle.floppy_words.specs.Places.{one_place as one_place_app, place as place_rule, three_places as three_places_app, two_places as two_places_app};

use clap::{Arg, ArgAction, ArgMatches, Command};
use flop_base::{Name, NoMemory};
use std::alloc::Global;

/// A place whose word is required.
fn place<'a>(alloc: Global, id: &'a str) -> Arg<'a>
    ensures rule { rule_of result ≡ place_rule id.entry.now }
    ensures local { result.global ≡ false }
{
    Arg::new(alloc, id).required(true).action(ArgAction::Set)
}

fn one_command<'a>(alloc: Global, verb: &'a str) -> Result<Command<'a>, NoMemory>
    ensures { IfOk result (λ command. app_of command ≡ one_place_app verb.entry.now) }
{
    Ok(Command::new(alloc, verb).arg(place(alloc, "FIRST"))?)
}

fn two_command<'a>(alloc: Global, verb: &'a str) -> Result<Command<'a>, NoMemory>
    ensures { IfOk result (λ command. app_of command ≡ two_places_app verb.entry.now) }
{
    Ok(one_command(alloc, verb)?.arg(place(alloc, "SECOND"))?)
}

fn three_command<'a>(alloc: Global, verb: &'a str) -> Result<Command<'a>, NoMemory>
    ensures { IfOk result (λ command. app_of command ≡ three_places_app verb.entry.now) }
{
    Ok(two_command(alloc, verb)?.arg(place(alloc, "THIRD"))?)
}

/// What a command makes of the words.
fn matches<'a>(command: Command<'a>, words: &'a [&'a str]) -> Result<ArgMatches<'a>, NoMemory>
    ensures { IfOk result (HasMatchesOf (app_of command.entry) (map (λ word. word.now) words.entry.now)) }
{
    match command.try_get_matches_from(words) {
        Ok(matches) => Ok(matches),
        Err(_) => Err(NoMemory),
    }
}

/// The word of a place that has one.
fn named(alloc: Global, matches: &ArgMatches, id: &str) -> Result<Name, NoMemory>
    requires { IsSome (first_value (found_of matches.now) id.now) }
    ensures { IfOk result (λ name. first_value (found_of matches.now) id.now ≡ Some name) }
{
    let text = matches.get_str(id).unwrap();
    Name::copy(alloc, text)
}

/// The words of two places that have one each.
fn two_named(alloc: Global, matches: &ArgMatches) -> Result<(Name, Name), NoMemory>
    requires first { IsSome (first_value (found_of matches.now) (codes "FIRST")) }
    requires second { IsSome (first_value (found_of matches.now) (codes "SECOND")) }
    ensures { IfOk result (λ read. (first_value (found_of matches.now) (codes "FIRST") ≡ Some read.0)
        × (first_value (found_of matches.now) (codes "SECOND") ≡ Some read.1)) }
{
    let one = named(alloc, matches, "FIRST")?;
    let two = named(alloc, matches, "SECOND")?;
    Ok((one, two))
}

/// The words of three places that have one each.
fn three_named(alloc: Global, matches: &ArgMatches) -> Result<(Name, Name, Name), NoMemory>
    requires first { IsSome (first_value (found_of matches.now) (codes "FIRST")) }
    requires second { IsSome (first_value (found_of matches.now) (codes "SECOND")) }
    requires third { IsSome (first_value (found_of matches.now) (codes "THIRD")) }
    ensures { IfOk result (λ read. (first_value (found_of matches.now) (codes "FIRST") ≡ Some read.0)
        × (first_value (found_of matches.now) (codes "SECOND") ≡ Some read.1)
        × (first_value (found_of matches.now) (codes "THIRD") ≡ Some read.2)) }
{
    let one = named(alloc, matches, "FIRST")?;
    let two = named(alloc, matches, "SECOND")?;
    let three = named(alloc, matches, "THIRD")?;
    Ok((one, two, three))
}

/// The word of a form that has one place.
pub(crate) fn one_place(alloc: Global, verb: &str, word: &str) -> Result<Name, NoMemory>
    ensures { IfOk result (λ read. read ≡ word.now) }
{
    let words = [verb, "--", word];
    let matches = matches(one_command(alloc, verb)?, words.as_slice())?;
    named(alloc, &matches, "FIRST")
}

/// The words of a form that has two places, in their order.
pub(crate) fn two_places(
    alloc: Global,
    verb: &str,
    first: &str,
    second: &str,
) -> Result<(Name, Name), NoMemory>
    ensures { IfOk result (λ read. (read.0 ≡ first.now) × (read.1 ≡ second.now)) }
{
    let words = [verb, "--", first, second];
    let matches = matches(two_command(alloc, verb)?, words.as_slice())?;
    two_named(alloc, &matches)
}

/// The words of a form that has three places, in their order.
pub(crate) fn three_places(
    alloc: Global,
    verb: &str,
    first: &str,
    second: &str,
    third: &str,
) -> Result<(Name, Name, Name), NoMemory>
    ensures { IfOk result (λ read. (read.0 ≡ first.now) × (read.1 ≡ second.now) × (read.2 ≡ third.now)) }
{
    let words = [verb, "--", first, second, third];
    let matches = matches(three_command(alloc, verb)?, words.as_slice())?;
    three_named(alloc, &matches)
}
