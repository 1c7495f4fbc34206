//! Bringing a file of an image back.

use crate::error::{TransferError, at};
use crate::looking::{Tree, stat};
use crate::missing::found;
use crate::progress::Progress;
use crate::steps::{Source, find_source, read_source};
use crate::target::split_last;
use crate::what::{Ended, Transfer, is_of_image};
use crate::working::{end, mount_image};
use host_files::{
    FileError, Found, ImageStation, NewFile, Place, Sparse, find_place, make_beside, on,
    open_to_read, place_in, remove,
};
use model::Mode;
use mount::Fs;
use station::Station;
use std::alloc::Global;
use std::fs::{File, OpenOptions};
use std::io::{Write, sink};
use std::rt::{Clock, Files};

/// The names of standard output.
const STANDARD_OUTPUT: [&str; 4] = ["-", "/dev/stdout", "/dev/fd/1", "/proc/self/fd/1"];

/// Brings a file of an image back, as it is or as it was in a snapshot, and leaves the image as it
/// is. The bytes go to `out` where the host's file is a name of standard output. Else they go,
/// whole or not at all, to a new file, which then replaces the one that the name leads to, and has
/// the mode of that one or else of the image's file; a folder means the image's file's own name in
/// it. What is there and is neither, such as a FIFO or a device, is written into.
pub fn get_file<'a, R: Files<File = File> + AllocGlobal + Clock, O: Write, E: Write>(
    rt: &R,
    what: Transfer<'a>,
    snapshot: Option<&'a [u8]>,
    out: &mut O,
    progress: &mut Progress<E>,
) -> Ended<'a> {
    match open_to_read(rt, what.image, what.patience) {
        Ok(station) => get_from(rt, station, what, snapshot, out, progress),
        Err(error) => Ended::before(TransferError::File(error)),
    }
}

/// The same from an image that is open.
pub fn get_from<'a, R: Files<File = File> + AllocGlobal, O: Write, E: Write>(
    rt: &R,
    station: ImageStation,
    what: Transfer<'a>,
    snapshot: Option<&'a [u8]>,
    out: &mut O,
    progress: &mut Progress<E>,
) -> Ended<'a> {
    let mut fs = match mount_image(rt, what.image, station) {
        Ok(fs) => fs,
        Err(ended) => return ended,
    };
    let done = get_in(rt, &mut fs, what, snapshot, out, progress);
    end(rt, what.image, fs, done)
}

/// Brings a file of a mounted image back.
fn get_in<'a, R: Files<File = File> + AllocGlobal, S: Station, O: Write, E: Write>(
    rt: &R,
    fs: &mut Fs<S>,
    what: Transfer<'a>,
    snapshot: Option<&'a [u8]>,
    out: &mut O,
    progress: &mut Progress<E>,
) -> Result<(), TransferError<'a>> {
    let alloc = rt.alloc();
    let told = String::from_utf8_lossy(alloc, snapshot.unwrap_or(b""))?;
    let tree = Tree {
        snapshot,
        told: told.as_str(),
    };
    let source = find_source(fs, what.path, snapshot);
    let source = found(alloc, fs, tree, what.name, what.path, source)?;
    let there = stat(fs, tree, what.path);
    let mode = at(what.name, 0, there)?.mode;
    bring(rt, fs, source, mode, what, out, progress)
}

/// Brings what a source holds to where it is to go. A new file has this mode.
fn bring<'a, R: Files<File = File> + AllocGlobal, S: Station, O: Write, E: Write>(
    rt: &R,
    fs: &mut Fs<S>,
    source: Source<'a>,
    mode: Mode,
    what: Transfer<'a>,
    out: &mut O,
    progress: &mut Progress<E>,
) -> Result<(), TransferError<'a>> {
    if STANDARD_OUTPUT.contains(&what.file) {
        return show(fs, source, what, out, progress);
    }
    if what.is_of_image(rt) {
        return Err(TransferError::IsImage { file: what.file });
    }
    let place = find_file(rt, what)?;
    match place.found {
        Found::Stream => {
            let mut stream = on(
                what.file,
                OpenOptions::new()
                    .append(true)
                    .open(rt, place.path.as_str()),
            )?;
            show(fs, source, what, &mut stream, progress)
        }
        _ => store(rt, fs, source, mode, what, &place, progress),
    }
}

/// The place of the host's file, which is no folder: in a folder the place of the image's file's
/// own name.
fn find_file<'a, R: Files + AllocGlobal>(
    rt: &R,
    what: Transfer<'a>,
) -> Result<Place<'a>, TransferError<'a>> {
    let place = find_place(rt, what.file)?;
    match place.found {
        Found::Folder => find_in_folder(rt, what),
        _ => Ok(place),
    }
}

fn find_in_folder<'a, R: Files + AllocGlobal>(
    rt: &R,
    what: Transfer<'a>,
) -> Result<Place<'a>, TransferError<'a>> {
    let inside = place_in(rt, what.file, split_last(what.path).1)?;
    if is_of_image(rt, what.image, inside.as_str()) {
        return Err(TransferError::IsImage { file: what.file });
    }
    match find_place(rt, inside.as_str()) {
        Ok(place) => place_of(rt.alloc(), what.file, place),
        Err(error) => Err(TransferError::File(renamed(what.file, error))),
    }
}

/// A place that the folder of this name has, which is no folder.
fn place_of<'a>(
    alloc: Global,
    folder: &'a str,
    place: Place<'_>,
) -> Result<Place<'a>, TransferError<'a>> {
    let Place { name, path, found } = place;
    match found {
        Found::Folder => Err(TransferError::NotAFile {
            place: String::from_str(alloc, name)?,
        }),
        found => Ok(Place {
            name: folder,
            path,
            found,
        }),
    }
}

/// Names a folder in place of what it has.
fn renamed<'a>(folder: &'a str, error: FileError<'_>) -> FileError<'a> {
    match error {
        FileError::Io { error, .. } => FileError::Io {
            path: folder,
            error,
        },
        FileError::NoMemory => FileError::NoMemory,
        _ => FileError::NotAFile { path: folder },
    }
}

/// Shows a file's bytes, part by part. It is read to its end before, so that nothing is shown of
/// one that can't be read.
fn show<'a, S: Station, O: Write, E: Write>(
    fs: &mut Fs<S>,
    source: Source<'a>,
    what: Transfer<'a>,
    out: &mut O,
    progress: &mut Progress<E>,
) -> Result<(), TransferError<'a>> {
    let mut untold = Progress::new(sink(), false);
    read_to(fs, source, what, &mut sink(), &mut untold)?;
    read_to(fs, source, what, out, progress)
}

/// Reads a file to its end into a new file beside its place, which it then gets.
fn store<'a, R: Files<File = File> + AllocGlobal, S: Station, E: Write>(
    rt: &R,
    fs: &mut Fs<S>,
    source: Source<'a>,
    mode: Mode,
    what: Transfer<'a>,
    place: &Place<'a>,
    progress: &mut Progress<E>,
) -> Result<(), TransferError<'a>> {
    let mode = Some(u32::from(mode.bits()));
    let mut new = make_beside(rt, place, mode, what.image.disk, what.image.nvram)?;
    let stored = match fill(fs, source, what, &mut new, progress) {
        Ok(()) => place
            .replace(rt, new.path.as_str())
            .map_err(TransferError::File),
        Err(error) => Err(error),
    };
    if stored.is_err() {
        remove(rt, new.path.as_str());
    }
    stored
}

/// Reads a file to its end into a new file, and syncs that.
fn fill<'a, S: Station, E: Write>(
    fs: &mut Fs<S>,
    source: Source<'a>,
    what: Transfer<'a>,
    new: &mut NewFile,
    progress: &mut Progress<E>,
) -> Result<(), TransferError<'a>> {
    let mut sparse = Sparse::new(&mut new.file);
    read_to(fs, source, what, &mut sparse, progress)?;
    on(what.file, sparse.end())?;
    Ok(())
}

/// Reads a file to its end, in parts as large as one call reads.
fn read_to<'a, S: Station, W: Write, E: Write>(
    fs: &mut Fs<S>,
    source: Source<'a>,
    what: Transfer<'a>,
    writer: &mut W,
    progress: &mut Progress<E>,
) -> Result<(), TransferError<'a>> {
    let mut offset = 0_u64;
    for _ in 0..u64::MAX {
        let part = at(what.name, offset, read_source(fs, source, offset))?;
        let bytes = part.as_bytes();
        if bytes.is_empty() {
            break;
        }
        on(what.file, writer.write_all(bytes))?;
        offset = offset.saturating_add(bytes.len() as u64);
        progress.note(offset);
    }
    Ok(())
}
