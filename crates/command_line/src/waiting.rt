//! How long a command waits for an image that another program has in use: what `--wait` says, among
//! the program's words.

ghost use Rattle.std.specs.Prelude.{◌≡◌, IfOk, None, map, option_map};
ghost use Rattle.command_line.specs.Lines.{IsMisunderstood, Yields};
ghost use Rattle.command_line.specs.Waiting as spec;
ghost use Rattle.command_line.specs.Waiting.{others_of, stand_after, wait_in, wait_of};
ghost use Rattle.command_line.specs.declared.waiting.Stand.TheVariants.{Start};

use crate::durability::written_out;
use crate::line::LineError;
use crate::numbers::whole_number;
use std::alloc::{AllocError, Global};
use std::convert::AsStr;

/// How long a command waits for an image that another program has in use.
#[derive(Clone, Copy, Debug)]
pub enum Wait {
    /// Not at all.
    No,
    /// So many seconds at most.
    Seconds(u32),
    /// As long as it takes.
    Forever,
}

/// What stands before a word.
#[derive(Clone, Copy)]
enum Stand {
    /// Nothing: the word is the program's name.
    Start,
    /// The program's name.
    Program,
    /// The name of another command than `do`.
    Command,
    /// `do`.
    Do,
    /// The disk's file of `do`.
    Disk,
    /// The NVRAM's file of `do`: the next word but options is the command's first.
    Nvram,
    /// `--`, or the first word of the command of `do`: what follows is no option of the program's.
    Words,
}

/// Takes the words that say how long is waited out of the program's words, and the last of them
/// counts: the others come into `others`, as clap reads them.
pub fn take_wait<'w, S: AsStr>(
    alloc: Global,
    words: &'w [S],
    others: &mut Vec<&'w str>,
) -> Result<Wait, LineError>
    ensures wait { Yields (λ wait. wait) (wait_of (map S.text words.entry.now)) result }
    ensures others { IfOk result (λ _.
        map (λ w. w.now) others.new.items ≡ others_of (map S.text words.entry.now)) }
{
    let texts = texts_of(alloc, words)?;
    let word = split_words(texts.as_slice(), others)?;
    read_wait(alloc, word)
}

/// The words' texts.
fn texts_of<'w, S: AsStr>(alloc: Global, words: &'w [S]) -> Result<Vec<&'w str>, AllocError>
    ensures { IfOk result (λ texts. map (λ t. t.now) texts.items ≡ map S.text words.entry.now) }
{
    let mut texts = Vec::new(alloc);
    for word in words {
        texts.push(word.as_str())?;
    }
    Ok(texts)
}

/// The last of the words that say how long is waited, and into `others` all that don't, as clap
/// reads them.
fn split_words<'w>(
    words: &[&'w str],
    others: &mut Vec<&'w str>,
) -> Result<Option<&'w str>, AllocError>
    ensures value { IfOk result (λ word. option_map (λ w. w.now) word
        ≡ wait_in None Start (map (λ w. w.now) words.now)) }
    ensures others { IfOk result (λ _.
        map (λ w. w.now) others.new.items ≡ others_of (map (λ w. w.now) words.now)) }
{
    others.clear();
    let mut last = None;
    let mut stand = Stand::Start;
    for word in words {
        let is_wait = says_wait(stand, word);
        let read = as_read(stand, word);
        stand = after(stand, word);
        if is_wait {
            last = Some(*word);
        } else {
            others.push(read)?;
        }
    }
    Ok(last)
}

/// Whether a word says how long is waited.
fn says_wait(stand: Stand, word: &str) -> bool
    ensures { result ≡ spec.says_wait stand word.now }
{
    match stand {
        Stand::Start | Stand::Words => false,
        _ => word == "--wait" || word.starts_with("--wait="),
    }
}

/// A word as clap reads it: an option's default value is written out.
fn as_read(stand: Stand, word: &str) -> &str
    ensures { result.now ≡ spec.as_read stand word.now }
{
    match stand {
        Stand::Start | Stand::Words => word,
        _ => written_out(word),
    }
}

/// What stands before the word behind this one.
fn after(stand: Stand, word: &str) -> Stand
    ensures { result ≡ stand_after stand word.now }
{
    match stand {
        Stand::Start => Stand::Program,
        Stand::Words => Stand::Words,
        _ if word == "--" => Stand::Words,
        _ if is_option(word) => stand,
        _ => after_place(stand, word),
    }
}

/// Whether a word is an option, and no place.
fn is_option(word: &str) -> bool
    ensures { result ≡ spec.is_option word.now }
{
    word != "-" && word.starts_with("-")
}

/// What stands before the word behind this one, which is no option.
fn after_place(stand: Stand, word: &str) -> Stand
    ensures { result ≡ spec.after_place stand word.now }
{
    match stand {
        Stand::Program if word == "do" => Stand::Do,
        Stand::Program => Stand::Command,
        Stand::Do => Stand::Disk,
        Stand::Disk => Stand::Nvram,
        Stand::Nvram => Stand::Words,
        other => other,
    }
}

/// How long such a word says that is waited.
fn read_wait(alloc: Global, word: Option<&str>) -> Result<Wait, LineError>
    ensures { Yields (λ wait. wait) (spec.wait_by (option_map (λ w. w.now) word.entry)) result }
{
    let Some(word) = word else {
        return Ok(Wait::No);
    };
    match word.strip_prefix("--wait=") {
        Some(seconds) => read_seconds(alloc, seconds),
        None => Ok(Wait::Forever),
    }
}

/// So many seconds.
fn read_seconds(alloc: Global, text: &str) -> Result<Wait, LineError>
    ensures { Yields (λ wait. wait) (spec.seconds_of text.now) result }
{
    match whole_number(text) {
        Some(seconds) => Ok(Wait::Seconds(seconds)),
        None => Err(no_seconds(alloc, text)?),
    }
}

/// That a text is no number of seconds.
fn no_seconds(alloc: Global, text: &str) -> Result<LineError, AllocError>
    ensures { IfOk result IsMisunderstood }
{
    Ok(LineError::NotUnderstood(format!(in alloc;
        "error: invalid value '{text}' for '--wait[=<SECONDS>]': a number of seconds, as in --wait=5\n\nFor more information, try '--help'.\n"
    )?))
}
