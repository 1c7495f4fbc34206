//! Bytes as stories write them.

use crate::fault::Fault;
use std::alloc::{AllocError, Global};

/// Adds the bytes of a text: `{HH}` is the byte of these two hexadecimal digits, `{HH*N}` so many
/// of it, `{A..B HH*N}` the numbers from A to B, each of three digits with so many of the byte
/// behind it and a space between two, and every other character stands for itself.
pub fn push_text(alloc: Global, out: &mut Vec<u8>, text: &str) -> Result<(), Fault> {
    for (i, part) in text.split('{').enumerate() {
        if i == 0 {
            out.extend_from_slice(part.as_bytes())?;
            continue;
        }
        let Some((code, plain)) = part.split_once('}') else {
            return Err(Fault::misread(alloc, text));
        };
        if !push_code(alloc, out, code)? {
            return Err(Fault::misread(alloc, text));
        }
        out.extend_from_slice(plain.as_bytes())?;
    }
    Ok(())
}

/// Adds what stands between braces. False where that isn't understood.
fn push_code(alloc: Global, out: &mut Vec<u8>, code: &str) -> Result<bool, AllocError> {
    let (numbers, code) = match code.split_once(' ') {
        Some((numbers, code)) => (Some(numbers), code),
        None => (None, code),
    };
    let Some((byte, count)) = read_code(code) else {
        return Ok(false);
    };
    match numbers {
        Some(numbers) => push_numbers(alloc, out, numbers, byte, count),
        None => {
            push_times(out, byte, count)?;
            Ok(true)
        }
    }
}

/// Adds numbers, each with so many of a byte behind it.
fn push_numbers(
    alloc: Global,
    out: &mut Vec<u8>,
    numbers: &str,
    byte: u8,
    count: u32,
) -> Result<bool, AllocError> {
    let Some((first, last)) = range_of(numbers) else {
        return Ok(false);
    };
    for number in first..=last {
        if number != first {
            out.push(b' ')?;
        }
        let digits = format!(in alloc; "{number:03}")?;
        out.extend_from_slice(digits.as_bytes())?;
        push_times(out, byte, count)?;
    }
    Ok(true)
}

fn push_times(out: &mut Vec<u8>, byte: u8, count: u32) -> Result<(), AllocError> {
    for _ in 0..count {
        out.push(byte)?;
    }
    Ok(())
}

/// A byte and how often it stands.
fn read_code(code: &str) -> Option<(u8, u32)> {
    let (digits, count) = match code.split_once('*') {
        Some((digits, count)) => (digits, count.parse().ok()?),
        None => (code, 1),
    };
    Some((u8::from_str_radix(digits, 16).ok()?, count))
}

/// A number, or the ends of a range `A..B`.
pub fn range_of(word: &str) -> Option<(u32, u32)> {
    let Some((first, last)) = word.split_once("..") else {
        let number = word.parse().ok()?;
        return Some((number, number));
    };
    Some((first.parse().ok()?, last.parse().ok()?))
}

/// The bytes of a text.
pub fn bytes_of(alloc: Global, text: &str) -> Result<Vec<u8>, Fault> {
    let mut bytes = Vec::new(alloc);
    push_text(alloc, &mut bytes, text)?;
    Ok(bytes)
}

/// Adds the bytes of a text and a line's end.
pub fn push_line(alloc: Global, out: &mut Vec<u8>, text: &str) -> Result<(), Fault> {
    push_text(alloc, out, text)?;
    out.push(b'\n')?;
    Ok(())
}

/// How many lines end in some bytes.
pub fn count_lines(bytes: &[u8]) -> usize {
    bytes.split(|byte| *byte == b'\n').count().saturating_sub(1)
}
