//! Asking before files are replaced that have bytes.

use crate::rooms::count_objects;
use crate::warnings::slots::{Slot, look_at_both, open_to_look, take_newer};
use file_station::FileStation;
use host_files::{FileError, Image, ImageStation, Patience, hold_both, on, open_shared, read_list};
use mount::{Fs, mount};
use std::alloc::Global;
use std::fs::{File, OpenFile};
use std::io::{Read, Write};
use std::{fs, io};

/// Bytes that a list has at most: no disk has more sectors than have these, a line each.
const LIST_BYTES: u64 = 80_000_000;

/// Bytes of an answer that are looked at.
const ANSWER_BYTES: usize = 16;

/// What was said of a file.
#[derive(Clone, Copy, Debug, PartialEq, Eq)]
enum Told {
    /// Nothing would be lost.
    Nothing,
    /// A line says what.
    Something,
}

/// Whether the files of an image may be replaced. Says in a line each what would be lost, and then
/// asks; where that is nothing, nobody is asked. A list of sectors goes with the image, and is no
/// loss. The files aren't held while an answer is waited for.
pub(crate) fn may_replace<'a, I: Read, E: Write>(
    rt: &HostRuntime,
    image: Image<'a>,
    patience: Patience,
    input: &mut I,
    err: &mut E,
) -> Result<bool, FileError<'a>> {
    // What others use isn't looked at.
    drop(hold_both(rt, image, false, patience)?);
    let files = tell_files(rt, image, err);
    let list = tell_list(rt, image, err);
    if files == Told::Nothing && list == Told::Nothing {
        return Ok(true);
    }
    let _ = err.write_all(b"replace? [y/N] ");
    let _ = err.flush();
    on("-", read_answer(input))
}

/// Says what the disk and the NVRAM are: an image that is mounted, or two files.
fn tell_files<E: Write>(rt: &HostRuntime, image: Image<'_>, err: &mut E) -> Told {
    let blocks = blocks_in(rt, image.disk);
    if let Some(blocks) = blocks {
        if let Some(files) = files_in(rt, image) {
            tell_image(image, blocks, files, err);
            return Told::Something;
        }
    }
    let disk = tell_file(rt, image.disk, blocks, err);
    let nvram = tell_file(rt, image.nvram, blocks_in(rt, image.nvram), err);
    match (disk, nvram) {
        (Told::Nothing, Told::Nothing) => Told::Nothing,
        _ => Told::Something,
    }
}

/// Says of an image how many blocks and files it has.
fn tell_image<E: Write>(image: Image<'_>, blocks: u32, files: u32, err: &mut E) {
    let Image { disk, nvram, .. } = image;
    let word = if files == 1 { "file" } else { "files" };
    let _ = writeln!(
        err,
        "wafl: {disk}, {nvram}: an image of {blocks} blocks with {files} {word}"
    );
}

/// Says how many bytes a file has, where it has some, and of how many blocks a root in it tells.
fn tell_file<E: Write>(rt: &HostRuntime, path: &str, blocks: Option<u32>, err: &mut E) -> Told {
    let bytes = bytes_in(rt, path);
    if bytes == 0 {
        return Told::Nothing;
    }
    let _ = match blocks {
        Some(blocks) => writeln!(
            err,
            "wafl: {path} holds {bytes} bytes, the disk of an image of {blocks} blocks"
        ),
        None => writeln!(err, "wafl: {path} holds {bytes} bytes, no image of wafl"),
    };
    Told::Something
}

/// Says of what has the name of the disk's list that it is none.
fn tell_list<E: Write>(rt: &HostRuntime, image: Image<'_>, err: &mut E) -> Told {
    let path = image.bad;
    let bytes = bytes_in(rt, path);
    if bytes == 0 || is_list(rt, path, bytes) {
        return Told::Nothing;
    }
    let _ = writeln!(
        err,
        "wafl: {path} holds {bytes} bytes and is no list of sectors"
    );
    Told::Something
}

/// Whether a file of so many bytes is a list of sectors of some disk.
fn is_list(rt: &HostRuntime, path: &str, bytes: u64) -> bool {
    if bytes > LIST_BYTES {
        return false;
    }
    match fs::read(rt, path) {
        Ok(text) => read_list(rt.alloc(), path, &text, u64::MAX).is_ok(),
        Err(_) => false,
    }
}

/// Bytes of a file; 0 where none is there.
fn bytes_in(rt: &HostRuntime, path: &str) -> u64 {
    match fs::metadata(rt, path) {
        Ok(found) if found.is_file() => found.len(),
        _ => 0,
    }
}

/// Blocks of the image that a root in a file tells of.
fn blocks_in(rt: &HostRuntime, path: &str) -> Option<u32> {
    let file = open_to_look(rt, path)?;
    let (first, second) = look_at_both(&file, &[]);
    if let Some(taken) = take_newer(&first, &second) {
        return Some(taken.root.geometry.blocks());
    }
    match &first {
        Slot::Root(root) => Some(root.geometry.blocks()),
        _ => None,
    }
}

/// How many files stand in the running tree of an image. None where that can't be told.
fn files_in(rt: &HostRuntime, image: Image<'_>) -> Option<u32> {
    let (disk, nvram) = open_shared(rt, image, Patience::None).ok()?;
    let mut fs = mounted(rt.alloc(), disk, nvram)?;
    let objects = count_objects(rt.alloc(), &mut fs).ok()?;
    Some(objects.files)
}

/// The file system on two open files.
fn mounted(alloc: Global, disk: File, nvram: File) -> Option<Fs<ImageStation>> {
    let station = ImageStation::Files(FileStation::new(disk, nvram).ok()?);
    match mount(alloc, station) {
        Ok(fs) => Some(fs),
        Err((_error, _station)) => None,
    }
}

/// Whether a line says yes. At the end of what is read it says no.
fn read_answer<I: Read>(input: &mut I) -> io::Result<bool> {
    let mut answer = [0; ANSWER_BYTES];
    let mut count = 0_usize;
    for _ in 0..u64::MAX {
        let mut byte = [0; 1];
        if input.read(&mut byte)? == 0 || byte[0] == b'\n' {
            break;
        }
        if let Some(place) = answer.get_mut(count) {
            *place = byte[0];
        }
        count = count.saturating_add(1);
    }
    Ok(match answer.get(..count) {
        Some(answer) => is_yes(answer),
        None => false,
    })
}

fn is_yes(answer: &[u8]) -> bool {
    let answer = answer.trim_ascii();
    answer.eq_ignore_ascii_case(b"y") || answer.eq_ignore_ascii_case(b"yes")
}
