//! The numbers of `make`: decimal, or with a suffix that multiplies, each within the range that
//! images have.

ghost use Rattle.std.specs.Prelude.{◌≡◌, ◌<◌, ◌*◌, ◌==◌, IfOk};
ghost use Rattle.command_line.specs.Lines.{IsMisunderstood, Yields};
ghost use Rattle.command_line.specs.Values.{amount_at, digits_in, given, rows_in, spelled_number, unit_in, unit_of, whole_count, within};

use crate::line::LineError;
use crate::values::needed_text;
use clap::ArgMatches;
use layout::{
    BLOCK_BYTES, LEAST_BLOCKS, LEAST_HALF, LEAST_INODES, MOST_BLOCKS, MOST_HALF, MOST_INODES,
};
use std::alloc::{AllocError, Global};

/// What a number of `make` may be.
#[derive(Clone, Copy)]
pub struct Limits {
    /// The option's name.
    option: &'static str,
    least: u32,
    most: u32,
    /// What is counted, and which sizes these are.
    unit_text: &'static str,
    /// What a number with a suffix counts is so many times smaller than what the option counts.
    unit: u64,
}

/// Blocks of the disk. With a suffix the number is the disk's size in bytes.
pub const BLOCKS: Limits = Limits {
    option: "blocks",
    least: LEAST_BLOCKS,
    most: MOST_BLOCKS,
    unit_text: "blocks (256 KiB to 4 GiB)",
    unit: BLOCK_BYTES as u64,
};

/// Inodes, with a suffix too.
pub const INODES: Limits = Limits {
    option: "inodes",
    least: LEAST_INODES,
    most: MOST_INODES,
    unit_text: "inodes",
    unit: 1,
};

/// Bytes of each half of the NVRAM.
pub const HALF: Limits = Limits {
    option: "half",
    least: LEAST_HALF,
    most: MOST_HALF,
    unit_text: "bytes (128 KiB to 8 MiB)",
    unit: 1,
};

/// One of `make`'s numbers, within its range.
pub fn make_number<'a>(
    alloc: Global,
    matches: &ArgMatches<'a>,
    limits: Limits,
) -> Result<u32, LineError>
    requires { 0 < limits.unit }
    ensures { Yields (λ n. n) (amount_at limits.option.now limits.unit
        limits.least limits.most (rows_in matches.now)) result }
{
    let word = needed_text(alloc, matches, limits.option)?;
    let Some(number) = read_number(word) else {
        return Err(no_number(alloc, word, limits.option)?);
    };
    let unit = suffix_unit(word);
    let size = if unit == 1 { 1 } else { limits.unit };
    in_range(alloc, word, u64::from(number) * unit, size, limits)
}

/// That a word of an option is no number.
fn no_number(alloc: Global, word: &str, option: &str) -> Result<LineError, AllocError>
    ensures { IfOk result IsMisunderstood }
{
    Ok(LineError::NotUnderstood(format!(in alloc;
        "error: invalid value '{word}' for '--{option} <N>': a number, as 131072 or 128k\n\nFor more information, try '--help'.\n"
    )?))
}

/// How many of a size a word's number is, where that is whole and in the option's range.
fn in_range(
    alloc: Global,
    word: &str,
    number: u64,
    size: u64,
    limits: Limits,
) -> Result<u32, LineError>
    requires { 0 < size }
    ensures { Yields (λ n. n)
        (given (whole_count size number) (within limits.least limits.most)) result }
{
    let option = limits.option;
    if number % size != 0 {
        return Err(LineError::OutOfRange(format!(in alloc;
            "wafl: --{option} {word}: not in whole blocks of {size} bytes\n"
        )?));
    }
    let count = number / size;
    if count < u64::from(limits.least) || count > u64::from(limits.most) {
        return Err(LineError::OutOfRange(format!(in alloc;
            "wafl: --{option} {word}: from {} to {} {}\n",
            limits.least, limits.most, limits.unit_text
        )?));
    }
    Ok(count as u32)
}

/// A word's number without its suffix. None where it is no number of 32 bits.
fn read_number(word: &str) -> Option<u32>
    ensures { result ≡ spelled_number (digits_in word.now) }
{
    whole_number(digits(word))
}

/// The number of 32 bits that a text spells, in decimal digits.
pub fn whole_number(text: &str) -> Option<u32>
    ensures { result ≡ spelled_number text.now }
{
    text.parse().ok()
}

/// What stands before a suffix.
fn digits(word: &str) -> &str
    ensures { result.now ≡ digits_in word.now }
{
    if let Some(digits) = word.strip_suffix('k') {
        return digits;
    }
    if let Some(digits) = word.strip_suffix('K') {
        return digits;
    }
    if let Some(digits) = word.strip_suffix('M') {
        return digits;
    }
    if let Some(digits) = word.strip_suffix('G') {
        return digits;
    }
    word
}

/// What the last character of a word multiplies by.
fn suffix_unit(word: &str) -> u64
    ensures { result ≡ unit_in word.now }
{
    match word.as_bytes().last() {
        Some(last) => unit(*last),
        None => 1,
    }
}

fn unit(last: u8) -> u64
    ensures { result ≡ unit_of last }
{
    match last {
        b'k' | b'K' => 1 << 10,
        b'M' => 1 << 20,
        b'G' => 1 << 30,
        _ => 1,
    }
}
