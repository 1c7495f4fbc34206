//! Why a word isn't what stands in its place, and how it would be spelled.

use crate::forms::{default_mode, may_stay};
use script::read_command;
use std::alloc::{AllocError, Global};

/// How many bytes of a word or a line are told.
const SHOWN_BYTES: usize = 80;

/// Why a word isn't this field of a form; None where it is.
pub fn word_reason(
    alloc: Global,
    form: &str,
    field: &str,
    word: &[u8],
) -> Result<Option<String>, AllocError> {
    if word == b"-".as_slice() && may_stay(form, field) {
        return Ok(None);
    }
    match field {
        "COUNT" | "FD" | "NANOSECONDS" | "OWNER" | "GROUP" => {
            number_reason(alloc, word, 0, i64::from(u32::MAX))
        }
        "OFFSET" | "SIZE" | "COOKIE" | "SECONDS" => number_reason(alloc, word, i64::MIN, i64::MAX),
        "MODE" => mode_reason(alloc, word, b""),
        "[MODE]" => mode_reason(alloc, word, default_mode(form)),
        "DATA" => data_reason(alloc, word),
        "FLAGS" => flags_reason(alloc, word),
        "FROM" => whence_reason(alloc, word),
        _ => text_reason(alloc, word),
    }
}

/// Bytes as they are told: all but printable ASCII as `\x` and two digits, and no more than 80 of
/// them.
pub fn shown(alloc: Global, bytes: &[u8]) -> Result<String, AllocError> {
    let mut text = String::new(alloc);
    for byte in bytes.iter().take(SHOWN_BYTES) {
        if *byte >= b' ' && *byte <= b'~' {
            text.push(char::from(*byte))?;
        } else {
            write!(text, "\\x{byte:02x}")?;
        }
    }
    if bytes.len() > SHOWN_BYTES {
        text.push_str("..")?;
    }
    Ok(text)
}

fn says(alloc: Global, text: &str) -> Result<Option<String>, AllocError> {
    Ok(Some(String::from_str(alloc, text)?))
}

/// A word has another spelling.
fn spelled(alloc: Global, word: &[u8], spelling: &[u8]) -> Result<Option<String>, AllocError> {
    let word = shown(alloc, word)?;
    let spelling = shown(alloc, spelling)?;
    Ok(Some(format!(in alloc; "{word} is spelled {spelling}")?))
}

fn text_reason(alloc: Global, word: &[u8]) -> Result<Option<String>, AllocError> {
    let spelling = text_word(alloc, word)?;
    if word == b"%".as_slice() || spelling.as_slice() == word {
        return Ok(None);
    }
    spelled(alloc, word, &spelling)
}

/// The spelling of the text that a word was meant as: what stands behind a `%` is a byte, where it
/// is two digits of either case, and all else is meant as it stands.
fn text_word(alloc: Global, word: &[u8]) -> Result<Vec<u8>, AllocError> {
    let mut spelling = Vec::new(alloc);
    let mut rest = word;
    for _ in 0..word.len() {
        let (byte, behind) = match rest {
            [] => break,
            [b'%', high, low, behind @ ..] => match (hex_value(*high), hex_value(*low)) {
                (Some(high), Some(low)) => (high.wrapping_mul(16) | low, behind),
                _ => (b'%', rest.get(1..).unwrap_or(&[])),
            },
            [first, behind @ ..] => (*first, behind),
        };
        push_byte(alloc, &mut spelling, byte)?;
        rest = behind;
    }
    Ok(spelling)
}

/// The text word of a script that spells these bytes.
pub fn encoded(alloc: Global, bytes: &[u8]) -> Result<Vec<u8>, AllocError> {
    let mut spelling = Vec::new(alloc);
    for byte in bytes {
        push_byte(alloc, &mut spelling, *byte)?;
    }
    if spelling.is_empty() {
        spelling.push(b'%')?;
    }
    Ok(spelling)
}

fn push_byte(alloc: Global, spelling: &mut Vec<u8>, byte: u8) -> Result<(), AllocError> {
    if byte > b' ' && byte <= b'~' && byte != b'%' {
        spelling.push(byte)?;
        return Ok(());
    }
    let text = format!(in alloc; "%{byte:02x}")?;
    spelling.extend_from_slice(text.as_bytes())
}

/// The number that a hexadecimal digit of either case stands for.
fn hex_value(digit: u8) -> Option<u8> {
    match digit {
        b'0'..=b'9' => Some(digit - b'0'),
        b'a'..=b'f' => Some(digit - b'a' + 10),
        b'A'..=b'F' => Some(digit - b'A' + 10),
        _ => None,
    }
}

fn number_reason(
    alloc: Global,
    word: &[u8],
    least: i64,
    most: i64,
) -> Result<Option<String>, AllocError> {
    let Some(number) = parsed(word) else {
        let word = shown(alloc, word)?;
        return Ok(Some(format!(in alloc; "{word} is no number from {least} to {most}")?));
    };
    if number < least || number > most {
        return Ok(Some(format!(in alloc; "{number} is no number from {least} to {most}")?));
    }
    let spelling = number.to_string(alloc)?;
    if spelling.as_bytes() == word {
        return Ok(None);
    }
    spelled(alloc, word, spelling.as_bytes())
}

fn parsed(word: &[u8]) -> Option<i64> {
    match std::str::from_utf8(word) {
        Ok(text) => text.parse::<i64>().ok(),
        Err(_) => None,
    }
}

fn mode_reason(alloc: Global, word: &[u8], default: &[u8]) -> Result<Option<String>, AllocError> {
    if !word.is_empty() && word == default {
        return says(alloc, "the default mode isn't written");
    }
    if word.len() == 4 && word.iter().all(|byte| *byte >= b'0' && *byte <= b'7') {
        return Ok(None);
    }
    says(alloc, "a mode is four octal digits, as 0700")
}

fn data_reason(alloc: Global, word: &[u8]) -> Result<Option<String>, AllocError> {
    if word == b"-".as_slice() {
        return Ok(None);
    }
    if word.len() % 2 != 0 || !word.iter().all(|byte| byte.is_ascii_hexdigit()) {
        return says(
            alloc,
            "data is two hexadecimal digits a byte, as 616263, and - for none",
        );
    }
    if word.iter().any(|byte| byte.is_ascii_uppercase()) {
        return says(alloc, "the digits of data are lower-case ones");
    }
    Ok(None)
}

fn flags_reason(alloc: Global, word: &[u8]) -> Result<Option<String>, AllocError> {
    let mut line = Vec::from_slice(alloc, b"open / ")?;
    line.extend_from_slice(word)?;
    if read_command(alloc, line.as_slice()).is_ok() {
        return Ok(None);
    }
    says(
        alloc,
        "flags are r, w or rw, and then some of c, x, t, a in this order",
    )
}

fn whence_reason(alloc: Global, word: &[u8]) -> Result<Option<String>, AllocError> {
    if word == b"set".as_slice() || word == b"cur".as_slice() || word == b"end".as_slice() {
        return Ok(None);
    }
    says(alloc, "an offset counts from set, cur or end")
}
