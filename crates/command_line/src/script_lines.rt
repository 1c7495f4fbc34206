//! Why a line is no command: found anew from its text, for those who wrote it.

use crate::forms::{call_form, command_form, is_field};
use crate::near_misses::unknown_reason;
use crate::script_words::{shown, word_reason};
use std::alloc::{AllocError, Global};
use std::io::Write;

/// Tells the text of a script's line of this number, counted from 1, and why it is no command.
/// Where there is no memory for that, nothing.
pub fn explain_line<E: Write>(alloc: Global, script: &[u8], number: usize, err: &mut E) {
    let mut lines = script.split(|byte| *byte == b'\n');
    let Some(line) = lines.nth(number.saturating_sub(1)) else {
        return;
    };
    if let Ok(text) = line_text(alloc, line) {
        let _ = err.write_all(text.as_bytes());
    }
}

fn line_text(alloc: Global, line: &[u8]) -> Result<String, AllocError> {
    let reason = reason_of(alloc, line)?;
    let line = shown(alloc, line)?;
    format!(in alloc; "wafl: {line}: {reason}\n")
}

/// Why a line, without its line feed, is no command.
fn reason_of(alloc: Global, line: &[u8]) -> Result<String, AllocError> {
    if let Some(text) = blank_reason(line) {
        return String::from_str(alloc, text);
    }
    let words: Vec<&[u8]> = line.split(|byte| *byte == b' ').collect(alloc)?;
    match words.as_slice() {
        [first, name, call @ ..] if *first == b"in".as_slice() => within_reason(alloc, name, call),
        [first] if *first == b"in".as_slice() => {
            String::from_str(
                alloc,
                "too few words: in NAME and a call, as in monday list /",
            )
        }
        words => command_reason(alloc, words),
    }
}

/// What is wrong with how a line's words stand apart.
fn blank_reason(line: &[u8]) -> Option<&'static str> {
    if line.last() == Some(&b'\r') {
        return Some("a carriage return at the end: lines end in a line feed alone");
    }
    if line.contains(&b'\t') {
        return Some("a tab: words stand one space apart");
    }
    if line.first() == Some(&b' ') {
        return Some("a space at the beginning");
    }
    if line.last() == Some(&b' ') {
        return Some("a space at the end");
    }
    let mut pairs = line.windows(2);
    if pairs.any(|pair| pair == b"  ".as_slice()) {
        return Some("two spaces in a row: words stand one space apart");
    }
    None
}

/// Why `in`, a snapshot's name and these words are no command.
fn within_reason(alloc: Global, name: &[u8], call: &[&[u8]]) -> Result<String, AllocError> {
    if let Some(reason) = word_reason(alloc, "in", "NAME", name)? {
        return Ok(reason);
    }
    match call_form(call) {
        Some(form) => form_reason(alloc, form, call),
        None => String::from_str(alloc, "in NAME stands before a call that names a path"),
    }
}

/// Why words are no command that isn't in a snapshot.
fn command_reason(alloc: Global, words: &[&[u8]]) -> Result<String, AllocError> {
    match (command_form(words), words) {
        (Some(form), _) => form_reason(alloc, form, words),
        (None, [first, ..]) => unknown_reason(alloc, first),
        (None, []) => String::from_str(alloc, "no command"),
    }
}

/// Why words that begin as this form does are no command.
fn form_reason(alloc: Global, form: &str, words: &[&[u8]]) -> Result<String, AllocError> {
    let mut left = words;
    for field in form.split(' ') {
        let [word, behind @ ..] = left else {
            return few_reason(alloc, form, field);
        };
        if field == "TIME" {
            return time_reason(alloc, form, left);
        }
        if is_field(field)
            && let Some(reason) = word_reason(alloc, form, field, word)?
        {
            return Ok(reason);
        }
        left = behind;
    }
    if left.is_empty() {
        return String::from_str(alloc, "not a command");
    }
    many_reason(alloc, form)
}

/// Why words that end before this field are no command.
fn few_reason(alloc: Global, form: &str, field: &str) -> Result<String, AllocError> {
    if field.starts_with('[') {
        return String::from_str(alloc, "not a command");
    }
    format!(in alloc; "too few words: {form}")
}

/// Why words with more behind them than this form has are no command.
fn many_reason(alloc: Global, form: &str) -> Result<String, AllocError> {
    format!(in alloc; "too many words: {form}")
}

/// Why words with these in the place of a time are no command.
fn time_reason(alloc: Global, form: &str, words: &[&[u8]]) -> Result<String, AllocError> {
    match words {
        [word] if is_time_word(word) => String::from_str(alloc, "not a command"),
        [_] => {
            String::from_str(
                alloc,
                "a time is now, omit, or seconds and nanoseconds, as 5 7",
            )
        }
        [word, _] if is_time_word(word) => many_reason(alloc, form),
        [seconds, nanoseconds] => numbers_reason(alloc, form, seconds, nanoseconds),
        _ => many_reason(alloc, form),
    }
}

/// Whether a word is a time.
fn is_time_word(word: &[u8]) -> bool {
    word == b"now".as_slice() || word == b"omit".as_slice()
}

/// Why words with these in the place of seconds and nanoseconds are no command.
fn numbers_reason(
    alloc: Global,
    form: &str,
    seconds: &[u8],
    nanoseconds: &[u8],
) -> Result<String, AllocError> {
    if let Some(reason) = word_reason(alloc, form, "SECONDS", seconds)? {
        return Ok(reason);
    }
    match word_reason(alloc, form, "NANOSECONDS", nanoseconds)? {
        Some(reason) => Ok(reason),
        None => String::from_str(alloc, "not a command"),
    }
}
