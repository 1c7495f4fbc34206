//! The line of each command, from what clap found for its arguments.

ghost use Rattle.std.specs.Prelude.{◌≡◌, codes, option_map};
ghost use Rattle.command_line.specs.Lines as spec;
ghost use Rattle.command_line.specs.Lines.{Yields, faults_at, faults_value, keep_named, keep_value, named_line, line_value};
ghost use Rattle.command_line.specs.Values.{given, needed, rows_in, text_at};

use crate::line::{Kept, Line, LineError, RunFaults, not_understood};
use crate::numbers::{BLOCKS, HALF, INODES, make_number};
use crate::values::{is_set, needed_number, needed_text, needed_texts, number, text};
use clap::ArgMatches;
use std::alloc::Global;

/// What a command of this name asks for.
pub fn line_of_command<'a>(
    alloc: Global,
    name: &str,
    matches: &ArgMatches<'a>,
) -> Result<Line<'a>, LineError>
    ensures { Yields line_value (named_line name.now (rows_in matches.now)) result }
{
    match name {
        "make" => make_line(alloc, matches),
        "run" => run_line(alloc, matches),
        "shell" => shell_line(alloc, matches),
        "do" => do_line(alloc, matches),
        "df" => df_line(alloc, matches),
        "check" => check_line(alloc, matches),
        "put" => put_line(alloc, matches),
        "get" => get_line(alloc, matches),
        "restore" => restore_line(alloc, matches),
        "serve" => serve_line(alloc, matches),
        _ => Err(not_understood(alloc, "error: no command\n")),
    }
}

fn make_line<'a>(alloc: Global, matches: &ArgMatches<'a>) -> Result<Line<'a>, LineError>
    ensures { Yields line_value (spec.make_line (rows_in matches.now)) result }
{
    Ok(Line::Make {
        disk: needed_text(alloc, matches, "disk")?,
        nvram: needed_text(alloc, matches, "nvram")?,
        blocks: make_number(alloc, matches, BLOCKS)?,
        inodes: make_number(alloc, matches, INODES)?,
        half: make_number(alloc, matches, HALF)?,
        is_new: is_set(matches, "new"),
    })
}

fn run_line<'a>(alloc: Global, matches: &ArgMatches<'a>) -> Result<Line<'a>, LineError>
    ensures { Yields line_value (spec.run_line (rows_in matches.now)) result }
{
    Ok(Line::Run {
        disk: needed_text(alloc, matches, "disk")?,
        nvram: needed_text(alloc, matches, "nvram")?,
        script: needed_text(alloc, matches, "script")?,
        faults: run_faults(alloc, matches)?,
        stops: is_set(matches, "stop"),
    })
}

fn run_faults<'a>(alloc: Global, matches: &ArgMatches<'a>) -> Result<RunFaults<'a>, LineError>
    ensures { Yields faults_value (faults_at (rows_in matches.now)) result }
{
    Ok(RunFaults {
        keep: needed_kept(alloc, matches)?,
        bytes: needed_number(alloc, matches, "bytes")?,
        cut: number(matches, "cut"),
        fail_sync: number(matches, "fail-sync"),
    })
}

fn needed_kept<'a>(alloc: Global, matches: &ArgMatches<'a>) -> Result<Kept<'a>, LineError>
    ensures { Yields keep_value (given (text_at (codes "keep") (rows_in matches.now)) (λ word. needed (keep_named word)))
        result }
{
    let word = needed_text(alloc, matches, "keep")?;
    match read_kept(word) {
        Some(kept) => Ok(kept),
        None => Err(not_understood(
            alloc,
            "error: invalid value for '--keep': none, all or a text of 0, 1 and 2\n",
        )),
    }
}

fn read_kept(word: &str) -> Option<Kept<'_>>
    ensures { option_map keep_value result ≡ keep_named word.now }
{
    if word == "none" {
        return Some(Kept::Nothing);
    }
    if word == "all" {
        return Some(Kept::Everything);
    }
    if is_bits(word.as_bytes()) {
        return Some(Kept::Bits(word));
    }
    None
}

/// Whether a text is one of 0, 1 and 2.
fn is_bits(text: &[u8]) -> bool
    ensures { result ≡ spec.is_bits text.now }
{
    !text.is_empty() && text.iter().all(|byte| b'0' <= *byte && *byte <= b'2')
}

fn shell_line<'a>(alloc: Global, matches: &ArgMatches<'a>) -> Result<Line<'a>, LineError>
    ensures { Yields line_value (spec.shell_line (rows_in matches.now)) result }
{
    Ok(Line::Shell {
        disk: needed_text(alloc, matches, "disk")?,
        nvram: needed_text(alloc, matches, "nvram")?,
    })
}

fn do_line<'a>(alloc: Global, matches: &ArgMatches<'a>) -> Result<Line<'a>, LineError>
    ensures { Yields line_value (spec.do_line (rows_in matches.now)) result }
{
    let disk = needed_text(alloc, matches, "disk")?;
    let nvram = needed_text(alloc, matches, "nvram")?;
    let words = needed_texts(alloc, matches, "words")?;
    Ok(Line::Do {
        disk,
        nvram,
        words: Vec::from_slice(alloc, words)?,
    })
}

fn df_line<'a>(alloc: Global, matches: &ArgMatches<'a>) -> Result<Line<'a>, LineError>
    ensures { Yields line_value (spec.df_line (rows_in matches.now)) result }
{
    Ok(Line::Df {
        disk: needed_text(alloc, matches, "disk")?,
        nvram: needed_text(alloc, matches, "nvram")?,
    })
}

fn check_line<'a>(alloc: Global, matches: &ArgMatches<'a>) -> Result<Line<'a>, LineError>
    ensures { Yields line_value (spec.check_line (rows_in matches.now)) result }
{
    Ok(Line::Check {
        disk: needed_text(alloc, matches, "disk")?,
        nvram: needed_text(alloc, matches, "nvram")?,
    })
}

fn put_line<'a>(alloc: Global, matches: &ArgMatches<'a>) -> Result<Line<'a>, LineError>
    ensures { Yields line_value (spec.put_line (rows_in matches.now)) result }
{
    Ok(Line::Put {
        disk: needed_text(alloc, matches, "disk")?,
        nvram: needed_text(alloc, matches, "nvram")?,
        file: needed_text(alloc, matches, "file")?,
        path: needed_text(alloc, matches, "path")?,
    })
}

fn get_line<'a>(alloc: Global, matches: &ArgMatches<'a>) -> Result<Line<'a>, LineError>
    ensures { Yields line_value (spec.get_line (rows_in matches.now)) result }
{
    Ok(Line::Get {
        disk: needed_text(alloc, matches, "disk")?,
        nvram: needed_text(alloc, matches, "nvram")?,
        path: needed_text(alloc, matches, "path")?,
        file: needed_text(alloc, matches, "file")?,
        snapshot: text(matches, "in"),
    })
}

fn restore_line<'a>(alloc: Global, matches: &ArgMatches<'a>) -> Result<Line<'a>, LineError>
    ensures { Yields line_value (spec.restore_line (rows_in matches.now)) result }
{
    Ok(Line::Restore {
        disk: needed_text(alloc, matches, "disk")?,
        nvram: needed_text(alloc, matches, "nvram")?,
        snapshot: needed_text(alloc, matches, "snapshot")?,
        path: needed_text(alloc, matches, "path")?,
        new_path: text(matches, "newpath"),
    })
}

fn serve_line<'a>(alloc: Global, matches: &ArgMatches<'a>) -> Result<Line<'a>, LineError>
    ensures { Yields line_value (spec.serve_line (rows_in matches.now)) result }
{
    Ok(Line::Serve {
        disk: needed_text(alloc, matches, "disk")?,
        nvram: needed_text(alloc, matches, "nvram")?,
        uid: needed_number(alloc, matches, "uid")?,
        gid: needed_number(alloc, matches, "gid")?,
    })
}
