//! The arguments that commands have, with what help says of them.

ghost use Rattle.std.specs.Prelude.{codes};
ghost use Rattle.command_line.specs.Arguments as spec;
ghost use Rattle.command_line.specs.Arguments.{IsArg};

use clap::{Arg, ArgAction, value_parser};
use std::alloc::Global;

/// An argument known by its place.
pub fn place<'a>(alloc: Global, id: &'a str, name: &'a str, help: &'a str) -> Arg<'a>
    ensures { IsArg (spec.place_rule id.entry.now) result }
{
    Arg::new(alloc, id)
        .value_name(name)
        .required(true)
        .help(help)
}

/// An argument known by its place, the last one, which a line may lack.
pub fn last_place<'a>(alloc: Global, id: &'a str, name: &'a str, help: &'a str) -> Arg<'a>
    ensures { IsArg (spec.last_place_rule id.entry.now) result }
{
    Arg::new(alloc, id).value_name(name).help(help)
}

/// An option without a value.
pub fn flag<'a>(alloc: Global, name: &'a str, help: &'a str) -> Arg<'a>
    ensures { IsArg (spec.flag_rule name.entry.now) result }
{
    Arg::new(alloc, name)
        .long(name)
        .action(ArgAction::SetTrue)
        .help(help)
}

/// `--explain`, which all commands have that mount an image.
pub fn explain<'a>(alloc: Global) -> Arg<'a>
    ensures { IsArg spec.explain result }
{
    flag(
        alloc,
        "explain",
        "Tell what is wrong with a line or an image in a second line, as on a terminal",
    )
}

/// `--encoded`, which all commands have whose words name something of the image.
pub fn encoded<'a>(alloc: Global) -> Arg<'a>
    ensures { IsArg spec.encoded result }
{
    flag(
        alloc,
        "encoded",
        "Read paths, names and words as a script spells them, as /a%20b for /a b",
    )
}

/// `--salvage`, which commands have that only read.
pub fn salvage<'a>(alloc: Global) -> Arg<'a>
    ensures { IsArg spec.salvage result }
{
    flag(
        alloc,
        "salvage",
        "Read what can be read of an image that can't be mounted, and write nothing",
    )
}

/// An option with a value.
pub fn option<'a>(alloc: Global, name: &'a str, value: &'a str, help: &'a str) -> Arg<'a>
    ensures { IsArg (spec.option_rule name.entry.now) result }
{
    Arg::new(alloc, name)
        .long(name)
        .value_name(value)
        .help(help)
}

/// An option of `make`, whose value is a number, with a suffix or without.
pub fn size<'a>(alloc: Global, name: &'a str, help: &'a str) -> Arg<'a>
    ensures { IsArg (spec.size_rule name.entry.now) result }
{
    option(alloc, name, "N", help).required(true)
}

/// An option whose value is a number.
pub fn number<'a>(alloc: Global, name: &'a str, help: &'a str) -> Arg<'a>
    ensures { IsArg (spec.number_from 0 name.entry.now) result }
{
    option(alloc, name, "N", help).value_parser(value_parser!(u32))
}

/// An option whose value is a number from 1 on.
pub fn count<'a>(alloc: Global, name: &'a str, help: &'a str) -> Arg<'a>
    ensures { IsArg (spec.number_from 1 name.entry.now) result }
{
    option(alloc, name, "N", help).value_parser(value_parser!(u32).range(1..))
}

/// `--together`, of a command that can give its answers behind one commit.
pub fn together<'a>(alloc: Global) -> Arg<'a>
    ensures { IsArg spec.together result }
{
    flag(
        alloc,
        "together",
        "Answer lines that wait in a pipe together, behind one commit: no answer is lost",
    )
}

/// `--deferred`, of a command that can give its answers before they are durable. `--deferred` alone
/// comes written out.
pub fn deferred<'a>(alloc: Global) -> Arg<'a>
    ensures { IsArg spec.deferred result }
{
    option(
        alloc,
        "deferred",
        "MILLISECONDS",
        "Answer at once, and make it durable within so many milliseconds, 100 with --deferred alone, as in --deferred=20; a power cut or a kill loses what was answered since",
    )
    .num_args(0..=1)
    .value_parser(value_parser!(u32).range(1..))
}

/// A user's or a group's number: 0, root's, where the words don't say.
pub fn owner<'a>(alloc: Global, name: &'a str, help: &'a str) -> Arg<'a>
    ensures { IsArg (spec.with_default (codes "0") (spec.number_from 0 name.entry.now)) result }
{
    number(alloc, name, help).default_value("0")
}

/// How many bytes an NVRAM write keeps.
pub fn bytes<'a>(alloc: Global) -> Arg<'a>
    ensures { IsArg (spec.with_default (codes "0") (spec.number_from 0 (codes "bytes"))) result }
{
    number(
        alloc,
        "bytes",
        "Bytes that an NVRAM write keeps when it is cut, as in --bytes 1",
    )
    .default_value("0")
}

/// Which sector writes since the last sync a cut keeps: none where the words don't say.
pub fn keep<'a>(alloc: Global) -> Arg<'a>
    ensures { IsArg (spec.with_default (codes "none") (spec.option_rule (codes "keep"))) result }
{
    option(
        alloc,
        "keep",
        "none|all|BITS",
        "Which sector writes since the last sync a cut keeps; with BITS those at a 1, and at a 2 the sector can't be read any more, as in --keep 10",
    )
    .default_value("none")
}

/// The words of a command, which are all that follow, those that begin with `-` too.
pub fn command_words<'a>(alloc: Global) -> Arg<'a>
    ensures { IsArg (spec.all_others (codes "words")) result }
{
    place(
        alloc,
        "words",
        "WORDS",
        "The command's words, as you type them, as in mkdir '/a b' 700",
    )
    .num_args(1..)
    .trailing_var_arg(true)
}
