//! Bytes as rows write them.

use crate::fault::Fault;
use std::alloc::{AllocError, Global};

/// Adds the bytes of a text: `{HH}` is the byte of these two hexadecimal digits, `{HH*N}` so many
/// of it, `{}` is nothing, and every other character stands for itself.
pub fn push_text(alloc: Global, out: &mut Vec<u8>, text: &str) -> Result<(), Fault> {
    for (i, part) in text.split('{').enumerate() {
        if i == 0 {
            out.extend_from_slice(part.as_bytes())?;
            continue;
        }
        let Some((code, plain)) = part.split_once('}') else {
            return Err(Fault::misread(alloc, text));
        };
        let Some((byte, count)) = read_code(code) else {
            return Err(Fault::misread(alloc, text));
        };
        for _ in 0..count {
            out.push(byte)?;
        }
        out.extend_from_slice(plain.as_bytes())?;
    }
    Ok(())
}

/// A byte and how often it stands.
fn read_code(code: &str) -> Option<(u8, u32)> {
    if code.is_empty() {
        return Some((0, 0));
    }
    let (digits, count) = match code.split_once('*') {
        Some((digits, count)) => (digits, count.parse().ok()?),
        None => (code, 1),
    };
    Some((u8::from_str_radix(digits, 16).ok()?, count))
}

/// The bytes of a text.
pub fn bytes_of(alloc: Global, text: &str) -> Result<Vec<u8>, Fault> {
    let mut bytes = Vec::new(alloc);
    push_text(alloc, &mut bytes, text)?;
    Ok(bytes)
}

/// Whether bytes are one of some texts with ` | ` between. A text behind `~` is only how they
/// begin.
pub fn is_one_of(alloc: Global, bytes: &[u8], texts: &str) -> Result<bool, Fault> {
    for text in texts.split(" | ") {
        let (is_whole, text) = match text.strip_prefix('~') {
            Some(start) => (false, start),
            None => (true, text),
        };
        let expected = bytes_of(alloc, text)?;
        if bytes == expected.as_slice() || !is_whole && bytes.starts_with(&expected) {
            return Ok(true);
        }
    }
    Ok(false)
}

/// Bytes that follow no format: the high bytes of a linear congruential generator, with Knuth's
/// numbers for 64 bits.
pub fn random_bytes(alloc: Global, seed: u32, count: u32) -> Result<Vec<u8>, AllocError> {
    let mut state = u64::from(seed);
    let mut bytes = Vec::new(alloc);
    for _ in 0..count {
        state = state
            .wrapping_mul(6_364_136_223_846_793_005)
            .wrapping_add(1_442_695_040_888_963_407);
        bytes.push((state >> 56) as u8)?;
    }
    Ok(bytes)
}
