//! The line of a script that words of the program spell, or a line that a user types.

use crate::forms::{call_form, command_form, default_mode};
use crate::script_words::encoded;
use std::alloc::{AllocError, Global};

/// The line of one command that words spell, with its end. Where they spell none it is a line that
/// is no command.
pub fn line_of_words(alloc: Global, words: &[&str]) -> Result<Vec<u8>, AllocError> {
    let mut line = Vec::new(alloc);
    if are_words(words) {
        for (i, word) in words.iter().enumerate() {
            if i > 0 {
                line.push(b' ')?;
            }
            line.extend_from_slice(word.as_bytes())?;
        }
    } else {
        line.push(b' ')?;
    }
    line.push(b'\n')?;
    Ok(line)
}

/// Whether words with a space between are one line of these words: none is empty or has a blank or
/// a line's end in it, and they don't begin as a comment does.
pub fn are_words(words: &[&str]) -> bool {
    let Some(first) = words.first() else {
        return false;
    };
    !first.starts_with('#') && words.iter().all(|word| is_word(word.as_bytes()))
}

fn is_word(word: &[u8]) -> bool {
    !word.is_empty()
        && word
            .iter()
            .all(|byte| *byte != b' ' && *byte != b'\t' && *byte != b'\n')
}

/// The line of one command that words name as a user types them, with its end: paths, texts and
/// names are encoded, and modes are spelled as in a script. Words of no command are all encoded, so
/// that they are one line that is no command.
pub fn line_of_typed(alloc: Global, words: &[&str]) -> Result<Vec<u8>, AllocError> {
    let mut typed = Vec::new(alloc);
    for word in words {
        typed.push(word.as_bytes())?;
    }
    let mut line = Vec::new(alloc);
    if !push_command(alloc, &mut line, typed.as_slice(), true)? {
        push_unknown(alloc, &mut line, typed.as_slice())?;
    }
    line.push(b'\n')?;
    Ok(line)
}

/// The line of a script that a line of `shell` is meant as, where a user types it, with its end or
/// without: a carriage return at its end goes, and modes are spelled as in a script. What is no
/// command stays as it is.
pub fn typed_line(alloc: Global, line: &[u8]) -> Result<Vec<u8>, AllocError> {
    let (text, end): (&[u8], &[u8]) = match line {
        [text @ .., b'\n'] => (text, b"\n"),
        _ => (line, b""),
    };
    let text = match text {
        [text @ .., b'\r'] => text,
        _ => text,
    };
    let words: Vec<&[u8]> = text.split(|byte| *byte == b' ').collect(alloc)?;
    let mut spelled = Vec::new(alloc);
    if !push_command(alloc, &mut spelled, words.as_slice(), false)? {
        spelled.extend_from_slice(text)?;
    }
    spelled.extend_from_slice(end)?;
    Ok(spelled)
}

/// Adds the words of a command, spelled as in a script. Where they begin as no command does it adds
/// nothing and says so.
fn push_command(
    alloc: Global,
    line: &mut Vec<u8>,
    words: &[&[u8]],
    encodes: bool,
) -> Result<bool, AllocError> {
    if let [first, name, call @ ..] = words
        && *first == b"in".as_slice()
    {
        let Some(form) = call_form(call) else {
            return Ok(false);
        };
        push_words(alloc, line, "in NAME", &[*first, *name], encodes)?;
        push_words(alloc, line, form, call, encodes)?;
        return Ok(true);
    }
    let Some(form) = command_form(words) else {
        return Ok(false);
    };
    push_words(alloc, line, form, words, encodes)?;
    Ok(true)
}

/// Adds words that begin as this form does, each as its field is spelled.
fn push_words(
    alloc: Global,
    line: &mut Vec<u8>,
    form: &str,
    words: &[&[u8]],
    encodes: bool,
) -> Result<(), AllocError> {
    let mut fields = form.split(' ');
    for word in words {
        let field = fields.next().unwrap_or("");
        let word = field_word(alloc, form, field, word, encodes)?;
        let Some(word) = word else {
            continue;
        };
        push_space(line)?;
        line.extend_from_slice(word.as_slice())?;
    }
    Ok(())
}

/// A word as a script spells it in the place of this field. None where it is the mode that isn't
/// written.
fn field_word(
    alloc: Global,
    form: &str,
    field: &str,
    word: &[u8],
    encodes: bool,
) -> Result<Option<Vec<u8>>, AllocError> {
    let is_text = matches!(field, "PATH" | "NEW" | "TEXT" | "NAME");
    if encodes && (is_text || !is_word(word)) {
        return Ok(Some(encoded(alloc, word)?));
    }
    let mut spelled = Vec::new(alloc);
    if matches!(field, "MODE" | "[MODE]") && is_short_mode(word) {
        spelled.push(b'0')?;
    }
    spelled.extend_from_slice(word)?;
    if field == "[MODE]" && spelled.as_slice() == default_mode(form) {
        return Ok(None);
    }
    Ok(Some(spelled))
}

/// Whether a word is a mode of three digits.
fn is_short_mode(word: &[u8]) -> bool {
    word.len() == 3 && word.iter().all(|byte| *byte >= b'0' && *byte <= b'7')
}

/// Adds the words of no command.
fn push_unknown(alloc: Global, line: &mut Vec<u8>, words: &[&[u8]]) -> Result<(), AllocError> {
    for word in words {
        push_space(line)?;
        match word {
            [b'#', rest @ ..] if line.is_empty() => {
                line.extend_from_slice(b"%23")?;
                if !rest.is_empty() {
                    line.extend_from_slice(encoded(alloc, rest)?.as_slice())?;
                }
            }
            _ => line.extend_from_slice(encoded(alloc, word)?.as_slice())?,
        }
    }
    Ok(())
}

fn push_space(line: &mut Vec<u8>) -> Result<(), AllocError> {
    if !line.is_empty() {
        line.push(b' ')?;
    }
    Ok(())
}
