//! Changing one image, and looking at it.

use crate::choices::Choices;
use crate::fault::Fault;
use crate::text::random_bytes;
use crate::written::{put_entry, put_inode};
use std::alloc::Global;

/// Does what the words behind `disk` or `nvram` say. False where they aren't understood.
pub fn obey(
    alloc: Global,
    choices: &mut Choices,
    image: &mut Vec<u8>,
    words: &str,
) -> Result<bool, Fault> {
    let Some((verb, words)) = words.split_once(' ') else {
        return Ok(false);
    };
    match verb {
        "size" => resize(choices, image, words),
        "at" => put_digits(alloc, choices, image, words),
        "copy" => copy(alloc, choices, image, words),
        "random" => put_random(alloc, choices, image, words),
        "links" | "block" => Ok(put_inode(choices, image, verb, words)),
        "entry" => Ok(put_entry(choices, image, words)),
        "holds" => holds(alloc, choices, image, words),
        "zeros" => is_zero(alloc, choices, image, words),
        _ => Ok(false),
    }
}

/// `size N`: leaves the first N bytes, or adds zeros.
fn resize(choices: &mut Choices, image: &mut Vec<u8>, words: &str) -> Result<bool, Fault> {
    let Some(size) = choices.number(words) else {
        return Ok(false);
    };
    image.resize(size as usize, 0)?;
    Ok(true)
}

/// `at N DIGITS`: puts bytes, two hexadecimal digits each.
fn put_digits(
    alloc: Global,
    choices: &mut Choices,
    image: &mut Vec<u8>,
    words: &str,
) -> Result<bool, Fault> {
    let Some((at, digits)) = words.split_once(' ') else {
        return Ok(false);
    };
    let (Some(at), Some(digits)) = (choices.number(at), choices.word(digits)) else {
        return Ok(false);
    };
    match hex::decode(alloc, digits) {
        Ok(bytes) => Ok(put(image, at, &bytes)),
        Err(_) => Ok(false),
    }
}

/// `copy FROM TO COUNT`: puts bytes from one place to another.
fn copy(
    alloc: Global,
    choices: &mut Choices,
    image: &mut Vec<u8>,
    words: &str,
) -> Result<bool, Fault> {
    let [Some(from), Some(to), Some(count)] = choices.numbers(words) else {
        return Ok(false);
    };
    let Some(bytes) = part(image, from, count) else {
        return Ok(false);
    };
    let bytes = Vec::from_slice(alloc, bytes)?;
    Ok(put(image, to, &bytes))
}

/// `random SEED AT COUNT`: puts bytes that follow no format.
fn put_random(
    alloc: Global,
    choices: &mut Choices,
    image: &mut Vec<u8>,
    words: &str,
) -> Result<bool, Fault> {
    let [Some(seed), Some(at), Some(count)] = choices.numbers(words) else {
        return Ok(false);
    };
    Ok(put(image, at, &random_bytes(alloc, seed, count)?))
}

/// `holds N DIGITS`: these bytes stand from N on.
fn holds(
    alloc: Global,
    choices: &mut Choices,
    image: &Vec<u8>,
    words: &str,
) -> Result<bool, Fault> {
    let Some((at, digits)) = words.split_once(' ') else {
        return Ok(false);
    };
    let (Some(at), Ok(bytes)) = (choices.number(at), hex::decode(alloc, digits)) else {
        return Ok(false);
    };
    let Some(behind) = image.get(at as usize..) else {
        return Ok(false);
    };
    if !behind.starts_with(&bytes) {
        return Err(Fault::differs(alloc, "image", b"other bytes", words));
    }
    Ok(true)
}

/// `zeros FROM TO`: zeros stand from FROM on, up to TO.
fn is_zero(
    alloc: Global,
    choices: &mut Choices,
    image: &Vec<u8>,
    words: &str,
) -> Result<bool, Fault> {
    let [Some(from), Some(to), _] = choices.numbers(words) else {
        return Ok(false);
    };
    let Some(count) = to.checked_sub(from) else {
        return Ok(false);
    };
    match part(image, from, count) {
        Some(bytes) if bytes.iter().any(|byte| *byte != 0) => Err(Fault::differs(
            alloc,
            "image",
            b"other bytes than zeros",
            words,
        )),
        Some(_) => Ok(true),
        None => Ok(false),
    }
}

/// So many bytes from a place on. None where the image ends before.
pub fn part(image: &Vec<u8>, at: u32, count: u32) -> Option<&[u8]> {
    let start = at as usize;
    image.get(start..start.checked_add(count as usize)?)
}

/// Puts bytes in the place of others. False where the image ends before.
pub fn put(image: &mut Vec<u8>, at: u32, bytes: &[u8]) -> bool {
    let start = at as usize;
    let Some(end) = start.checked_add(bytes.len()) else {
        return false;
    };
    if end > image.len() {
        return false;
    }
    image.as_mut_slice()[start..end].copy_from_slice(bytes);
    true
}
