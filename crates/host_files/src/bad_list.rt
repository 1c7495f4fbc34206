//! The list of a disk's sectors that can't be read, as a text: a line for each, in rising order.

ghost use Rattle.std.specs.Prelude.{◌≡◌, IfOk, IfSome, OnOk};
ghost use Rattle.std.specs.Fmt.{decimal};
ghost use Rattle.host_files.specs.BadList.{EndsLine, IsBehind, IsListOf, Names, list_text};

use crate::error::FileError;
use std::alloc::{AllocError, Global};

/// The byte behind each line.
const LINE_FEED: u8 = b'\n';

/// The sectors that a text names, of a disk of so many. The last line may lack its end. BadLine
/// where one isn't the number of a sector behind the one before, in decimal digits without needless
/// zeros.
pub fn read_list<'a>(
    alloc: Global,
    path: &'a str,
    text: &[u8],
    sectors: u64,
) -> Result<Vec<u64>, FileError<'a>>
    ensures { IfOk result (λ list. Names text.now sectors list.items) }
{
    let mut list = Vec::new(alloc);
    let mut word = Vec::new(alloc);
    for byte in text {
        if *byte == LINE_FEED {
            end_line(alloc, path, &word, sectors, &mut list)?;
            word.clear();
        } else {
            word.push(*byte)?;
        }
    }
    if !word.is_empty() {
        end_line(alloc, path, &word, sectors, &mut list)?;
    }
    Ok(list)
}

/// Adds the number that a line's word spells.
fn end_line<'a>(
    alloc: Global,
    path: &'a str,
    word: &[u8],
    sectors: u64,
    list: &mut Vec<u64>,
) -> Result<(), FileError<'a>>
    requires { IsListOf sectors list.old.items }
    ensures { OnOk result (EndsLine word.now sectors list.old.items list.new.items) }
{
    let least = least_behind(list, sectors);
    match read_number(alloc, word)? {
        Some(number) if least <= number && number < sectors => {
            list.push(number)?;
            Ok(())
        }
        _ => Err(FileError::BadLine {
            path,
            line: list.len().saturating_add(1),
            least,
            sectors,
        }),
    }
}

/// The least number that may stand behind these.
fn least_behind(list: &[u64], sectors: u64) -> u64
    requires { IsListOf sectors list.now }
    ensures { IsBehind list.now result }
{
    match list.last() {
        Some(last) => *last + 1,
        None => 0,
    }
}

/// The number that a word spells: one that it parses as, where the word is what this number is
/// written as.
fn read_number(alloc: Global, word: &[u8]) -> Result<Option<u64>, AllocError>
    ensures { IfOk result (λ read. IfSome read (λ n. word.now ≡ decimal n)) }
{
    let Ok(text) = std::str::from_utf8(word) else {
        return Ok(None);
    };
    let Ok(number) = text.parse::<u64>() else {
        return Ok(None);
    };
    let spelled = number.to_string(alloc)?;
    if spelled.as_bytes() != word {
        return Ok(None);
    }
    Ok(Some(number))
}

/// The text of a list.
pub fn write_list(alloc: Global, list: &[u64]) -> Result<Vec<u8>, AllocError>
    ensures { IfOk result (λ text. text.items ≡ list_text list.now) }
{
    let mut text = Vec::new(alloc);
    for number in list {
        let spelled = number.to_string(alloc)?;
        text.extend_from_slice(spelled.as_bytes())?;
        text.push(LINE_FEED)?;
    }
    Ok(text)
}
