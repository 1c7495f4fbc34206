//! What clap found for an argument.

ghost use Rattle.std.specs.Prelude.{◌≡◌, option_map, map};
ghost use Rattle.clap.specs.Words.{all_of, first_of};
ghost use Rattle.command_line.specs.Values as spec;
ghost use Rattle.command_line.specs.Values.{needed, option_number, rows_in};
ghost use Rattle.command_line.specs.Lines.{IsMisunderstood, Yields};

use crate::line::{LineError, not_understood};
use clap::ArgMatches;
use std::alloc::Global;

/// The text of an argument.
pub fn text<'a>(matches: &ArgMatches<'a>, id: &str) -> Option<&'a str>
    ensures { option_map (λ s. s.now) result ≡ first_of id.now (rows_in matches.now) }
{
    matches.get_str(id)
}

/// The text of an argument that each line has.
pub fn needed_text<'a>(
    alloc: Global,
    matches: &ArgMatches<'a>,
    id: &str,
) -> Result<&'a str, LineError>
    ensures { Yields (λ s. s.now) (spec.text_at id.now (rows_in matches.now)) result }
{
    match text(matches, id) {
        Some(text) => Ok(text),
        None => Err(missing(alloc)),
    }
}

/// All texts of an argument that each line has.
pub fn needed_texts<'m, 'a>(
    alloc: Global,
    matches: &'m ArgMatches<'a>,
    id: &str,
) -> Result<&'m [&'a str], LineError>
    ensures { Yields (λ s. map (λ v. v.now) s.now)
        (needed (all_of id.now (rows_in matches.now))) result }
{
    match matches.get_strs(id) {
        Some(texts) => Ok(texts),
        None => Err(missing(alloc)),
    }
}

/// The number of an option that each line has.
pub fn needed_number(alloc: Global, matches: &ArgMatches<'_>, id: &str) -> Result<u32, LineError>
    ensures { Yields (λ n. n) (needed (option_number id.now (rows_in matches.now))) result }
{
    match number(matches, id) {
        Some(number) => Ok(number),
        None => Err(missing(alloc)),
    }
}

fn missing(alloc: Global) -> LineError
    ensures { IsMisunderstood result }
{
    not_understood(alloc, "error: an argument is missing\n")
}

/// The number of an option.
pub fn number(matches: &ArgMatches<'_>, id: &str) -> Option<u32>
    ensures { result ≡ option_number id.now (rows_in matches.now) }
{
    matches.get_one::<u32>(id)
}

/// Whether a flag is there.
pub fn is_set(matches: &ArgMatches<'_>, id: &str) -> bool
    ensures { result ≡ spec.is_set id.now (rows_in matches.now) }
{
    matches.get_one::<bool>(id).unwrap_or(false)
}
