//! Files of the host's that are stored in an image on files, and brought back.

use crate::fault::Fault;
use crate::text::{is_one_of, random_bytes};
use host_files::{Image, Patience, list_name};
use std::fs;
use std::io::sink;
use transfer::{Progress, Transfer, TransferError, get_file, put_file};

/// Does what a line about transfers says. None where it is about none, false where its words aren't
/// understood.
pub fn obey_transfer(rt: &HostRuntime, verb: &str, words: &str) -> Result<Option<bool>, Fault> {
    match verb {
        "bytes" => Ok(Some(make_bytes(rt, words)?)),
        "same" => Ok(Some(compare_files(rt, words)?)),
        "put" => Ok(Some(put(rt, words)?)),
        "get" => Ok(Some(get(rt, words)?)),
        _ => Ok(None),
    }
}

/// `bytes NAME N`: makes a file of N bytes that follow no format.
fn make_bytes(rt: &HostRuntime, words: &str) -> Result<bool, Fault> {
    let Some((name, count)) = words.split_once(' ') else {
        return Ok(false);
    };
    let Ok(count) = count.parse() else {
        return Ok(false);
    };
    let bytes = random_bytes(rt.alloc(), count, count)?;
    Ok(fs::write(rt, name, bytes.as_slice()).is_ok())
}

/// `same NAME OTHER`: both files hold the same bytes.
fn compare_files(rt: &HostRuntime, words: &str) -> Result<bool, Fault> {
    let Some((name, other)) = words.split_once(' ') else {
        return Ok(false);
    };
    let (Ok(bytes), Ok(others)) = (fs::read(rt, name), fs::read(rt, other)) else {
        return Err(Fault::differs(rt.alloc(), name, b"no file", other));
    };
    if bytes.as_slice() != others.as_slice() {
        return Err(Fault::differs(rt.alloc(), name, b"another file", other));
    }
    Ok(true)
}

/// `put DISK NVRAM FILE PATH -> DONE`: stores a file; `done`, or why it isn't stored.
fn put(rt: &HostRuntime, text: &str) -> Result<bool, Fault> {
    let Some((words, expected)) = text.split_once(" -> ") else {
        return Ok(false);
    };
    let Some(words) = four_words(words) else {
        return Ok(false);
    };
    let bad = list_name(rt.alloc(), words.first)?;
    let mut progress = Progress::new(sink(), false);
    let what = transfer_of(
        words.first,
        words.second,
        bad.as_str(),
        words.fourth,
        words.third,
    );
    let ended = put_file(rt, what, &mut rt.reader(), false, &mut progress);
    compare_end(rt, &ended.done, expected)
}

/// `get DISK NVRAM PATH FILE -> DONE`: brings a file back. What goes to standard output is stored
/// in the file `shown`.
fn get(rt: &HostRuntime, text: &str) -> Result<bool, Fault> {
    let Some((words, expected)) = text.split_once(" -> ") else {
        return Ok(false);
    };
    let Some(words) = four_words(words) else {
        return Ok(false);
    };
    let bad = list_name(rt.alloc(), words.first)?;
    let what = transfer_of(
        words.first,
        words.second,
        bad.as_str(),
        words.third,
        words.fourth,
    );
    bring_back(rt, what, expected)
}

/// Brings a file back, and compares how that ended.
fn bring_back(rt: &HostRuntime, what: Transfer<'_>, expected: &str) -> Result<bool, Fault> {
    let mut shown = Vec::new(rt.alloc());
    let mut progress = Progress::new(sink(), false);
    let ended = get_file(rt, what, None, &mut shown, &mut progress);
    if what.file == "-" {
        fs::write(rt, "shown", shown.as_slice())?;
    }
    compare_end(rt, &ended.done, expected)
}

fn transfer_of<'a>(
    disk: &'a str,
    nvram: &'a str,
    bad: &'a str,
    path: &'a str,
    file: &'a str,
) -> Transfer<'a> {
    let image = Image { disk, nvram, bad };
    Transfer {
        image,
        path: path.as_bytes(),
        name: path,
        file,
        patience: Patience::None,
    }
}

/// The words of a line about a transfer.
#[derive(Drop)]
struct FourWords<'a> {
    first: &'a str,
    second: &'a str,
    third: &'a str,
    fourth: &'a str,
}

fn four_words(words: &str) -> Option<FourWords<'_>> {
    let mut words = words.split(' ');
    Some(FourWords {
        first: words.next()?,
        second: words.next()?,
        third: words.next()?,
        fourth: words.next()?,
    })
}

/// How a transfer ended is what was expected: `done`, or why it failed.
fn compare_end(
    rt: &HostRuntime,
    came: &Result<(), TransferError<'_>>,
    expected: &str,
) -> Result<bool, Fault> {
    let told = match came {
        Ok(()) => String::from_str(rt.alloc(), "done")?,
        Err(error) => format!(in rt.alloc(); "{error}")?,
    };
    if !is_one_of(rt.alloc(), told.as_bytes(), expected)? {
        return Err(Fault::differs(rt.alloc(), "transfer", told.as_bytes(), expected));
    }
    Ok(true)
}
