//! Files of images, in the folder that the program runs in.

use crate::fault::Fault;
use crate::guards::obey_guard;
use crate::text::{bytes_of, is_one_of};
use crate::transfers::obey_transfer;
use host_files::{Image, Patience, list_name};
use std::fs;
use std::os::unix::fs::symlink;
use tool::make_image;

/// Does what a line about files says. None where it is about none, false where its words aren't
/// understood.
pub fn obey_file(rt: &HostRuntime, verb: &str, words: &str) -> Result<Option<bool>, Fault> {
    let (name, rest) = words.split_once(' ').unwrap_or((words, ""));
    match verb {
        "file" => Ok(Some(fs::write(rt, name, bytes_of(rt.alloc(), rest)?.as_slice()).is_ok())),
        "copy" => Ok(Some(fs::copy(rt, name, rest).is_ok())),
        "folder" => Ok(Some(fs::create_dir(rt, name).is_ok())),
        "link" => Ok(Some(fs::hard_link(rt, name, rest).is_ok())),
        "symlink" => Ok(Some(symlink(rt, name, rest).is_ok())),
        "make" => Ok(Some(make_files(rt, words)?)),
        "reads" => {
            compare_text(rt, name, rest)?;
            Ok(Some(true))
        }
        "size" => {
            compare_size(rt, name, rest)?;
            Ok(Some(true))
        }
        _ => match obey_guard(rt, verb, words)? {
            Some(is_known) => Ok(Some(is_known)),
            None => obey_transfer(rt, verb, words),
        },
    }
}

/// `make DISK NVRAM BLOCKS INODES HALF -> DONE`: makes an image on files; `done`, or why it isn't
/// made.
fn make_files(rt: &HostRuntime, text: &str) -> Result<bool, Fault> {
    let Some((words, expected)) = text.split_once(" -> ") else {
        return Ok(false);
    };
    let mut words = words.split(' ');
    let (Some(disk), Some(nvram)) = (words.next(), words.next()) else {
        return Ok(false);
    };
    let (Some(blocks), Some(inodes), Some(half)) = (words.next(), words.next(), words.next()) else {
        return Ok(false);
    };
    let (Ok(blocks), Ok(inodes), Ok(half)) = (blocks.parse(), inodes.parse(), half.parse()) else {
        return Ok(false);
    };
    let bad = list_name(rt.alloc(), disk)?;
    let image = Image {
        disk,
        nvram,
        bad: bad.as_str(),
    };
    let came = match make_image(rt, image, blocks, inodes, half, false, Patience::None) {
        Ok(()) => String::from_str(rt.alloc(), "done")?,
        Err(error) => format!(in rt.alloc(); "{error}")?,
    };
    if !is_one_of(rt.alloc(), came.as_bytes(), expected)? {
        return Err(Fault::differs(rt.alloc(), "make", came.as_bytes(), expected));
    }
    Ok(true)
}

/// `reads NAME TEXT`: the file holds this text. With no text: no file has this name.
fn compare_text(rt: &HostRuntime, name: &str, text: &str) -> Result<(), Fault> {
    let expected = bytes_of(rt.alloc(), text)?;
    match fs::read(rt, name) {
        Ok(bytes) if text == "" => Err(Fault::differs(rt.alloc(), name, &bytes, "no file")),
        Ok(bytes) if bytes.as_slice() != expected.as_slice() => Err(Fault::differs(
            rt.alloc(),
            name,
            &bytes,
            text,
        )),
        Ok(_) => Ok(()),
        Err(_) if text == "" => Ok(()),
        Err(_) => Err(Fault::differs(rt.alloc(), name, b"no file", text)),
    }
}

/// `size NAME N`: the file has so many bytes.
fn compare_size(rt: &HostRuntime, name: &str, expected: &str) -> Result<(), Fault> {
    let Ok(metadata) = fs::metadata(rt, name) else {
        return Err(Fault::differs(rt.alloc(), name, b"no file", expected));
    };
    let came = format!(in rt.alloc(); "{}", metadata.len())?;
    if came.as_bytes() != expected.as_bytes() {
        return Err(Fault::differs(rt.alloc(), name, came.as_bytes(), expected));
    }
    Ok(())
}
