//! The tables of a file. A line of a format and a length begins a table of so many zero bytes; `at
//! PLACE HEX` gives it bytes; `good PLACE=HEX ..` and `bad PLACE=HEX ..` say whether it is in the
//! format with one byte changed, or, where a word is `.`, as it stands.

use super::format::{Format, holds};
use std::alloc::{AllocError, Global};

/// Why a line is no row, or no row that is right.
#[derive(Clone, Copy)]
pub enum RowError {
    NoMemory,
    /// The line isn't understood.
    NoRow,
    /// The bytes are in the format where the row says that they aren't, or the other way round.
    Otherwise,
}

impl From<AllocError> for RowError {
    fn from(_error: AllocError) -> Self {
        RowError::NoMemory
    }
}

/// A table, and how many of its rows were right.
#[derive(Drop)]
pub struct Table {
    pub format: Format,
    pub rows: u64,
    bytes: Vec<u8>,
}

/// Does what a line says, to the table that is there; answers the one that ends with it.
pub fn obey(
    alloc: Global,
    table: &mut Option<Table>,
    line: &str,
) -> Result<Option<Table>, RowError> {
    let (verb, words) = line.split_once(' ').ok_or(RowError::NoRow)?;
    if verb != "at" && verb != "good" && verb != "bad" {
        let next = begin(alloc, verb, words)?;
        return Ok(table.replace(next));
    }
    let Some(table) = table else {
        return Err(RowError::NoRow);
    };
    if verb == "at" {
        table.put(alloc, words)?;
    } else {
        table.look(alloc, words, verb == "good")?;
    }
    Ok(None)
}

// A table of a format, and the numbers behind it: the bytes, and those of the format.
fn begin(alloc: Global, name: &str, words: &str) -> Result<Table, RowError> {
    let [length, a, b, c] = read_numbers(words)?;
    if length > 65_536 {
        return Err(RowError::NoRow);
    }
    let format = format_of(name, [a, b, c]).ok_or(RowError::NoRow)?;
    let bytes = vec![in alloc; 0; length as usize]?;
    Ok(Table {
        format,
        rows: 0,
        bytes,
    })
}

fn format_of(name: &str, [a, b, c]: [u32; 3]) -> Option<Format> {
    let formats = [
        ("root", Format::Root),
        ("inode", Format::Inode),
        ("summed-inode", Format::SummedInode),
        ("snapshot", Format::Snapshot),
        ("entry", Format::Entry),
        ("record", Format::Record),
        ("half", Format::Half),
        ("directory", Format::Directory { inodes: a }),
        (
            "inode-map",
            Format::InodeMap {
                first: a,
                inodes: b,
            },
        ),
        ("indirect", Format::Indirect { blocks: a, used: b }),
        (
            "summed-indirect",
            Format::SummedIndirect { blocks: a, used: b },
        ),
    ];
    for (known, format) in formats {
        if name == known {
            return Some(format);
        }
    }
    None
}

// Up to four numbers; 0 for each that isn't there.
fn read_numbers(words: &str) -> Result<[u32; 4], RowError> {
    let mut numbers = [0; 4];
    for (i, word) in words.split(' ').enumerate() {
        if i >= 4 {
            return Err(RowError::NoRow);
        }
        numbers[i] = read_number(word)?;
    }
    Ok(numbers)
}

// A number in decimal, or the greatest one where it is greater.
fn read_number(word: &str) -> Result<u32, RowError> {
    let mut number = 0u32;
    for byte in word.as_bytes() {
        if !byte.is_ascii_digit() {
            return Err(RowError::NoRow);
        }
        number = number
            .saturating_mul(10)
            .saturating_add((*byte - b'0') as u32);
    }
    Ok(number)
}

fn read_bytes(alloc: Global, text: &str) -> Result<Vec<u8>, RowError> {
    match hex::decode(alloc, text) {
        Ok(bytes) => Ok(bytes),
        Err(_) => Err(RowError::NoRow),
    }
}

impl Table {
    // `PLACE HEX`: the bytes from a place on.
    fn put(&mut self, alloc: Global, words: &str) -> Result<(), RowError> {
        let (place, text) = words.split_once(' ').ok_or(RowError::NoRow)?;
        let mut place = read_number(place)? as usize;
        let bytes = read_bytes(alloc, text)?;
        for byte in &bytes {
            self.change(place, *byte)?;
            place = place.saturating_add(1);
        }
        Ok(())
    }

    // Gives a place another byte, and answers the one that it had.
    fn change(&mut self, place: usize, byte: u8) -> Result<u8, RowError> {
        let there = self.bytes.get_mut(place).ok_or(RowError::NoRow)?;
        let old = *there;
        *there = byte;
        Ok(old)
    }

    // `PLACE=HEX ..`: whether each change leaves the bytes in the format.
    fn look(&mut self, alloc: Global, words: &str, expected: bool) -> Result<(), RowError> {
        for word in words.split(' ') {
            self.look_at(alloc, word, expected)?;
            self.rows = self.rows.saturating_add(1);
        }
        Ok(())
    }

    fn look_at(&mut self, alloc: Global, word: &str, expected: bool) -> Result<(), RowError> {
        if word == "." {
            return as_expected(holds(self.format, &self.bytes), expected);
        }
        let (place, text) = word.split_once('=').ok_or(RowError::NoRow)?;
        let place = read_number(place)? as usize;
        let bytes = read_bytes(alloc, text)?;
        let [byte] = bytes.as_slice() else {
            return Err(RowError::NoRow);
        };
        let old = self.change(place, *byte)?;
        let found = holds(self.format, &self.bytes);
        self.change(place, old)?;
        as_expected(found, expected)
    }
}

fn as_expected(found: bool, expected: bool) -> Result<(), RowError> {
    if found == expected {
        Ok(())
    } else {
        Err(RowError::Otherwise)
    }
}
