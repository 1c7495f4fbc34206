//! When what is answered is durable: what `--together` and `--deferred` say.

ghost use Rattle.std.specs.Prelude.{◌≡◌};
ghost use Rattle.command_line.specs.Durabilities as spec;
ghost use Rattle.command_line.specs.Lines.{IsMisunderstood, Yields};
ghost use Rattle.command_line.specs.Values.{rows_in};

use crate::line::{LineError, not_understood};
use crate::values::{is_set, number};
use clap::ArgMatches;
use std::alloc::Global;

/// When what a command does is durable, as its words say it: from then on neither a power cut nor a
/// kill loses it.
#[derive(Clone, Copy, Debug)]
pub enum Durability {
    /// The words don't say it: as the command does it that has them.
    Usual,
    /// `--together`: what waits is answered behind one commit, and each answer is durable when it is
    /// given.
    Together,
    /// `--deferred`: each answer is given at once, and is durable where the user asks for that, or
    /// after about so many milliseconds, 1 at least. A power cut and a kill lose what waits: the
    /// last that was answered, and nothing before it.
    Deferred(u32),
}

/// `--deferred` with the number of milliseconds that it means alone, so that no word behind it is
/// read as its value; and any other word as it is.
pub(crate) fn written_out(word: &str) -> &str
    ensures { result.now ≡ spec.written_out word.now }
{
    if word == "--deferred" {
        "--deferred=100"
    } else {
        word
    }
}

/// When it is durable, by what clap found.
pub(crate) fn durability_of(
    alloc: Global,
    matches: &ArgMatches<'_>,
) -> Result<Durability, LineError>
    ensures { Yields (λ d. d) (spec.durability_at (rows_in matches.now)) result }
{
    let is_together = is_set(matches, "together");
    match number(matches, "deferred") {
        Some(_) if is_together => Err(both(alloc)),
        Some(milliseconds) => Ok(Durability::Deferred(milliseconds)),
        None if is_together => Ok(Durability::Together),
        None => Ok(Durability::Usual),
    }
}

/// That words ask for both.
fn both(alloc: Global) -> LineError
    ensures { IsMisunderstood result }
{
    not_understood(
        alloc,
        "error: the argument '--together' cannot be used with '--deferred [<MILLISECONDS>]'\n\nFor more information, try '--help'.\n",
    )
}
