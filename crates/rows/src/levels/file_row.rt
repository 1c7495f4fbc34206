//! The rows on the file. Answers with a size are `ok` and the file's size after the row.
//!
//!     pointers SIZE P..   from here on the file is a settled one of so many bytes with these pointers
//!     inline TEXT         the same, with its bytes in the inode; none without a text
//!     read OFFSET COUNT   so many bytes from an offset on, each 0 as a dot
//!     write OFFSET TEXT
//!     size SIZE           cuts the file, or fills it up
//!     layout NAME         files are of the layout `plain` or `summed` from here on, and this one is
//!                         empty; a group begins with `plain`

use super::bodies::{inline_inode, pointer_inode};
use buffers::Buffers;
use inode::File;
use layout::Layout;
use memory_station::Sim;
use std::alloc::{AllocError, Global};

/// Runs a row on the file, and answers what it gives.
pub fn file_row(
    alloc: Global,
    buffers: &mut Buffers<Sim>,
    layout: &mut Layout,
    file: &mut File,
    word: &str,
    rest: &str,
) -> Result<String, AllocError> {
    let (first, text) = rest.split_once(' ').unwrap_or((rest, ""));
    let number = first.parse::<u64>().unwrap_or(0);
    match word {
        "read" => read_row(
            alloc,
            buffers,
            file,
            number,
            text.parse::<usize>().unwrap_or(0),
        ),
        "write" if !text.is_empty() => match file.write(alloc, buffers, number, text.as_bytes()) {
            Ok(()) => size_of(alloc, file),
            Err(error) => format!(in alloc; "{error}"),
        },
        "size" => match file.resize(alloc, buffers, number) {
            Ok(()) => size_of(alloc, file),
            Err(error) => format!(in alloc; "{error}"),
        },
        "inline" => {
            *file = File::load(alloc, inline_inode(*layout, rest))?;
            size_of(alloc, file)
        }
        "pointers" if number <= layout.greatest_size() => {
            *file = File::load(alloc, pointer_inode(*layout, number, text))?;
            size_of(alloc, file)
        }
        "layout" => {
            *layout = match rest {
                "summed" => Layout::Summed,
                _ => Layout::Plain,
            };
            *file = File::load(alloc, inline_inode(*layout, ""))?;
            size_of(alloc, file)
        }
        _ => format!(in alloc; "no row"),
    }
}

fn size_of(alloc: Global, file: &File) -> Result<String, AllocError> {
    format!(in alloc; "ok {}", file.size())
}

fn read_row(
    alloc: Global,
    buffers: &mut Buffers<Sim>,
    file: &File,
    offset: u64,
    count: usize,
) -> Result<String, AllocError> {
    let most = file.tree().layout().greatest_size();
    if count > 100 || offset > most - count as u64 {
        return format!(in alloc; "no row");
    }
    let mut bytes = vec![in alloc; 0u8; count]?;
    match file.read_at(buffers, offset, &mut bytes) {
        Ok(()) => shown(alloc, &bytes),
        Err(error) => format!(in alloc; "{error}"),
    }
}

fn shown(alloc: Global, bytes: &[u8]) -> Result<String, AllocError> {
    let mut text = String::new(alloc);
    for byte in bytes {
        text.push(if *byte == 0 { '.' } else { char::from(*byte) })?;
    }
    Ok(text)
}
