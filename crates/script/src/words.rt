//! The words of a line: texts and modes, each with one spelling.

ghost use Rattle.std.specs.Prelude.{◌≡◌, ◌≢◌, ℕ, List, ◌++◌, ◌<◌, ◌≤◌, ◌+◌, ◌==◌, IfOk, OnOk, IfSome, IfNone, IsErrOf, Ok, false, map};
ghost use Rattle.std.specs.Char.{is_ascii_uppercase};
ghost use Rattle.std.specs.List.{list_any};
ghost use Rattle.hex.specs.Hex.{decode_of, encode_lower};
ghost use Rattle.script.specs.Forms.{bytes, mode};
ghost use Rattle.script.specs.Readings.{ReadsWord};
ghost use Rattle.script.specs.Words.{data_word, is_plain, hex_digit, byte_word, text_word, mode_word, words_of, AddsText, AreByteValues, IsSplit};

use crate::{ScriptError, split_at_byte};
use hex::FromHexError;
use model::{Bytes, Mode};
use std::alloc::{AllocError, Global};

/// The word that stands where no value is given.
pub(crate) const NOT_GIVEN: &[u8] = b"-";

/// The parts of a line between its spaces.
pub(crate) fn split_words<'a>(alloc: Global, line: &'a [u8]) -> Result<Vec<&'a [u8]>, AllocError>
    ensures { IfOk result (λ words. map (λ word. word.now) words.items ≡ words_of line.now) }
{
    split_at_byte(alloc, line, b' ')
}

/// Whether a byte stands for itself in a text's word: one of 0x21 to 0x7e, but `%`.
fn is_plain(byte: u8) -> bool
    ensures { result ≡ is_plain byte }
{
    byte >= 0x21 && byte <= 0x7e && byte != b'%'
}

/// Adds a text's word to a line: each byte that isn't plain is `%` and two lower-case hexadecimal
/// digits, and the empty text is `%` alone.
pub(crate) fn push_text(line: &mut Vec<u8>, text: &[u8]) -> Result<(), AllocError>
    ensures { OnOk result (AddsText line.old line.new (text_word text.now)) }
{
    if text.is_empty() {
        line.push(b'%')?;
        return Ok(());
    }
    for byte in text {
        push_byte(line, *byte)?;
    }
    Ok(())
}

/// Adds a byte of a text to a line.
fn push_byte(line: &mut Vec<u8>, byte: u8) -> Result<(), AllocError>
    ensures { OnOk result (AddsText line.old line.new (byte_word byte)) }
{
    if is_plain(byte) {
        line.push(byte)?;
        return Ok(());
    }
    line.extend_from_slice(&[b'%', hex_digit(byte / 16), hex_digit(byte % 16)])
}

/// A number below 16 as a lower-case hexadecimal digit.
fn hex_digit(value: u8) -> u8
    requires { value < 16 }
    ensures { result ≡ hex_digit value }
{
    if value < 10 {
        b'0' + value
    } else {
        b'a' + (value - 10)
    }
}

/// The number that a lower-case hexadecimal digit stands for.
fn hex_value(digit: u8) -> Option<u8>
    ensures value { IfSome result (λ v. (v < 16) × (hex_digit v ≡ digit)) }
    ensures none { IfNone result ((v : ℕ) → v < 16 → hex_digit v ≢ digit) }
{
    match digit {
        b'0'..=b'9' => Some(digit - b'0'),
        b'a'..=b'f' => Some(digit - b'a' + 10),
        _ => None,
    }
}

/// The text that a word spells.
pub(crate) fn read_text(alloc: Global, word: &[u8]) -> Result<Bytes<'static>, ScriptError>
    ensures value { IfOk result (λ text. word.now ≡ text_word text) }
    ensures bytes { IfOk result AreByteValues }
    ensures refused { IsErrOf result ScriptError.NotACommand
        → (text : List ℕ) → AreByteValues text → word.now ≢ text_word text }
{
    let mut bytes = Vec::new(alloc);
    if word == b"%".as_slice() {
        return Ok(Bytes::owned(bytes));
    }
    if word.is_empty() {
        return Err(ScriptError::NotACommand);
    }
    let mut rest = word;
    while !rest.is_empty() {
        let (byte, behind) = take_byte(rest).ok_or(ScriptError::NotACommand)?;
        bytes.push(byte)?;
        rest = behind;
    }
    Ok(Bytes::owned(bytes))
}

/// The byte that a word begins with, and what stands behind it.
fn take_byte(word: &[u8]) -> Option<(u8, &[u8])>
    ensures byte { IfSome result (λ taken. IsSplit word.now taken.0 taken.1.now) }
    ensures none { IfNone result ((b : ℕ) (rest : List ℕ)
        → b < 256 → byte_word b ++ rest ≢ word.now) }
{
    match word {
        [b'%', high, low, rest @ ..] => {
            let byte = hex_value(*high)? * 16 + hex_value(*low)?;
            if is_plain(byte) {
                return None;
            }
            Some((byte, rest))
        }
        [byte, rest @ ..] if is_plain(*byte) => Some((*byte, rest)),
        _ => None,
    }
}

/// A mode as four octal digits.
pub(crate) fn mode_word(mode: Mode) -> [u8; 4]
    ensures { result ≡ mode_word mode }
{
    let bits = mode.bits();
    [
        octal_digit(bits / 512),
        octal_digit(bits / 64 % 8),
        octal_digit(bits / 8 % 8),
        octal_digit(bits % 8),
    ]
}

/// A number below 8 as a digit.
fn octal_digit(value: u16) -> u8
    requires { value < 8 }
    ensures { result ≡ 48 + value }
{
    b'0' + value as u8
}

/// The mode that a word spells.
pub(crate) fn read_mode(word: &[u8]) -> Result<Mode, ScriptError>
    ensures { ReadsWord mode (λ m. m) word.now result }
{
    spelled_mode(word).ok_or(ScriptError::NotACommand)
}

fn spelled_mode(word: &[u8]) -> Option<Mode>
    ensures value { IfSome result (λ mode. (mode ≤ 4095) × (mode_word mode ≡ word.now)) }
    ensures none { IfNone result ((mode : ℕ) → mode ≤ 4095 → mode_word mode ≢ word.now) }
{
    let [a, b, c, d] = word else {
        return None;
    };
    let high = octal_value(*a)? * 8 + octal_value(*b)?;
    let low = octal_value(*c)? * 8 + octal_value(*d)?;
    Mode::new(high * 64 + low)
}

/// The number that an octal digit stands for.
fn octal_value(digit: u8) -> Option<u16>
    ensures value { IfSome result (λ v. (v < 8) × (48 + v ≡ digit)) }
    ensures none { IfNone result ((v : ℕ) → v < 8 → 48 + v ≢ digit) }
{
    match digit {
        b'0'..=b'7' => Some(u16::from(digit - b'0')),
        _ => None,
    }
}

/// The bytes that a word spells: two lower-case hexadecimal digits each, or `-` for none.
pub(crate) fn read_data(alloc: Global, word: &[u8]) -> Result<Bytes<'static>, ScriptError>
    ensures { ReadsWord bytes (λ b. b) word.now result }
{
    if word == b"-".as_slice() {
        return Ok(Bytes::owned(Vec::new(alloc)));
    }
    if word.is_empty() || has_capital(word) {
        return Err(ScriptError::NotACommand);
    }
    Ok(Bytes::owned(decode(alloc, word)?))
}

/// Whether one of these bytes is a capital letter.
fn has_capital(word: &[u8]) -> bool
    ensures { result ≡ list_any is_ascii_uppercase word.now }
{
    // Every byte is looked at, whatever came before it: so many are looked at at once.
    let mut found = false;
    for byte in word {
        found |= byte.is_ascii_uppercase();
    }
    found
}

fn decode(alloc: Global, word: &[u8]) -> Result<Vec<u8>, ScriptError>
    ensures value { IfOk result (λ decoded. decode_of word.now ≡ Ok decoded.items) }
    ensures refused { IsErrOf result ScriptError.NotACommand
        → (bs : List ℕ) → AreByteValues bs → word.now ≢ encode_lower bs }
{
    match hex::decode(alloc, word) {
        Ok(decoded) => Ok(decoded),
        Err(error) => match error {
            FromHexError::OutOfMemory => Err(ScriptError::NoMemory),
            _ => Err(ScriptError::NotACommand),
        },
    }
}

/// Adds the word of data to a line.
pub(crate) fn push_data(line: &mut Vec<u8>, bytes: &[u8]) -> Result<(), AllocError>
    ensures { OnOk result (AddsText line.old line.new (data_word bytes.now)) }
{
    if bytes.is_empty() {
        return line.extend_from_slice(b"-");
    }
    let at = line.len();
    let digits = bytes.len().checked_mul(2).ok_or(AllocError)?;
    let end = at.checked_add(digits).ok_or(AllocError)?;
    line.resize(end, 0)?;
    match hex::encode_to_slice(bytes, &mut line[at..]) {
        Ok(()) => Ok(()),
        Err(_) => Err(AllocError),
    }
}
