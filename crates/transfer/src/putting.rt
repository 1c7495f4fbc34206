//! Storing a file of the host's in an image.

use crate::error::TransferError;
use crate::input::{HostFile, Input, Stream};
use crate::looking::RUNNING;
use crate::missing::found;
use crate::progress::Progress;
use crate::steps::NEW_FILE;
use crate::storing::{Goal, check_known_size, store, take_left_away};
use crate::target::{Target, find_target, is_unfinished};
use crate::what::{Ended, Transfer};
use crate::working::{end, mount_image};
use host_files::{FileError, on, open_image};
use model::{MODE_BITS, Mode};
use mount::Fs;
use station::Station;
use std::alloc::Global;
use std::fs;
use std::fs::{File, Metadata};
use std::io::{Read, Write};
use std::os::unix::fs::{FileTypeExt, MetadataExt};
use std::path::Path;
use std::rt::{Clock, Files};

/// Stores what a file of the host's holds in a file of an image, on the files of the image
/// themselves, whole or not at all: the bytes are collected in a new file of a name that is put's
/// own, and when all are there that one gets its name. So wherever the power is cut, the old bytes
/// are there or the new ones; what a cut left is taken away by the next transfer into the image. A
/// symbolic link at the path's end is followed and stays, and a directory means the host's file's
/// own name in it. An old file's mode stays, and a new one has the host's file's. Further names of
/// an old file keep its old bytes. There has to be room for the new bytes beside the old ones.
///
/// The host's file `-` is standard input, which `reader` reads, and which may be a pipe. No byte is
/// read before the image is locked and mounted. A pipe that gives none, as where the program before
/// it failed, empties no file.
///
/// Blocks of zeros aren't stored: they are holes of the file, as they may be of the host's. Of a
/// host's file whose size is known, what is too large or has no room for its other blocks is
/// refused before a byte is stored.
pub fn put_file<'a, R: Files<File = File> + AllocGlobal + Clock, I: Read, E: Write>(
    rt: &R,
    what: Transfer<'a>,
    reader: &mut I,
    is_pipe: bool,
    progress: &mut Progress<E>,
) -> Ended<'a> {
    if what.file == "-" {
        return put_stream(rt, what, reader, is_pipe, progress);
    }
    match open_file(rt, what.file) {
        Ok((file, metadata)) => put_host_file(rt, what, file, &metadata, progress),
        Err(error) => Ended::before(TransferError::File(error)),
    }
}

/// Opens a file of the host's, which is no folder. Nothing is read of it.
fn open_file<'a, R: Files<File = File>>(
    rt: &R,
    path: &'a str,
) -> Result<(File, Metadata), FileError<'a>> {
    let file = on(path, fs::open(rt, path))?;
    let metadata = on(path, file.metadata())?;
    if metadata.is_dir() {
        return Err(FileError::NotAFile { path });
    }
    Ok((file, metadata))
}

/// Stores an open file of the host's.
fn put_host_file<'a, R: Files<File = File> + AllocGlobal + Clock, E: Write>(
    rt: &R,
    what: Transfer<'a>,
    mut file: File,
    metadata: &Metadata,
    progress: &mut Progress<E>,
) -> Ended<'a> {
    if metadata.is_file() {
        let mut input: Input<'_, '_, File> = Input::File(HostFile {
            name: what.file,
            file,
            size: metadata.len(),
        });
        return put_from(rt, what, Some(metadata.mode()), &mut input, progress);
    }
    let is_pipe = metadata.file_type().is_fifo();
    put_stream(rt, what, &mut file, is_pipe, progress)
}

/// Stores what a pipe, a device or the like gives.
fn put_stream<'a, R: Files<File = File> + AllocGlobal + Clock, I: Read, E: Write>(
    rt: &R,
    what: Transfer<'a>,
    reader: &mut I,
    is_pipe: bool,
    progress: &mut Progress<E>,
) -> Ended<'a> {
    let mut input = Input::Stream(Stream {
        name: what.file,
        reader,
        is_pipe,
    });
    put_from(rt, what, None, &mut input, progress)
}

/// Stores what an input gives. A file of the host's has this mode.
fn put_from<'a, R: Files<File = File> + AllocGlobal + Clock, I: Read, E: Write>(
    rt: &R,
    what: Transfer<'a>,
    mode: Option<u32>,
    input: &mut Input<'a, '_, I>,
    progress: &mut Progress<E>,
) -> Ended<'a> {
    let station = match open_image(rt, what.image, what.patience) {
        Ok(station) => station,
        Err(error) => return Ended::before(TransferError::File(error)),
    };
    if what.file != "-" && what.is_of_image(rt) {
        // What is written would be read again.
        return Ended::before(TransferError::IsImage { file: what.file });
    }
    let fs = match mount_image(rt, what.image, station) {
        Ok(fs) => fs,
        Err(ended) => return ended,
    };
    let (fs, done) = put_in(rt.alloc(), fs, what, new_mode(mode), input, progress);
    end(rt, what.image, fs, done)
}

/// Stores what an input gives in a mounted image, which it gives back. A new file has this mode.
fn put_in<'a, S: Station, I: Read, E: Write>(
    alloc: Global,
    mut fs: Fs<S>,
    what: Transfer<'a>,
    mode: Mode,
    input: &mut Input<'a, '_, I>,
    progress: &mut Progress<E>,
) -> (Fs<S>, Result<(), TransferError<'a>>) {
    match find_goal(alloc, &mut fs, what, mode, input.size()) {
        Ok(goal) => store(alloc, fs, &goal, input, progress),
        Err(error) => (fs, Err(error)),
    }
}

/// Where bytes of this size, where it is known, are to be stored. What a cut left goes then. A new
/// file has this mode.
fn find_goal<'a, S: Station>(
    alloc: Global,
    fs: &mut Fs<S>,
    what: Transfer<'a>,
    mode: Mode,
    size: Option<u64>,
) -> Result<Goal<'a>, TransferError<'a>> {
    let Transfer { path, name, .. } = what;
    check_known_size(fs.limits(), name, size)?;
    take_left_away(fs)?;
    let target = find_target(alloc, fs, path, own_name(what.file));
    let target = found(alloc, fs, RUNNING, name, path, target)?;
    check_name(alloc, fs, what, &target)?;
    let mode = mode_of(&target, mode);
    Ok(Goal {
        name,
        path,
        target,
        mode,
    })
}

/// The mode of a new file in the image: that of the host's file, or 0644.
fn new_mode(mode: Option<u32>) -> Mode {
    let bits = match mode {
        Some(mode) => u16::try_from(mode & u32::from(MODE_BITS)).unwrap_or(NEW_FILE),
        None => NEW_FILE,
    };
    Mode::new(bits).unwrap_or(Mode::new(NEW_FILE).unwrap())
}

/// The mode of what is stored: that of the file that is there, else this one.
fn mode_of(target: &Target, new: Mode) -> Mode {
    match target.there {
        Some(there) => there.mode,
        None => new,
    }
}

/// The name that a file of the host's has in a directory of the image.
fn own_name(file: &str) -> Option<&[u8]> {
    if file == "-" {
        return None;
    }
    match Path::new(file).file_name() {
        Some(name) => Some(name.as_bytes()),
        None => None,
    }
}

/// Refuses a target whose directory isn't there, or whose name is put's own.
pub fn check_name<'a, S: Station>(
    alloc: Global,
    fs: &mut Fs<S>,
    what: Transfer<'a>,
    target: &Target,
) -> Result<(), TransferError<'a>> {
    let is_own = is_unfinished(fs, target.path.as_slice());
    if found(alloc, fs, RUNNING, what.name, what.path, is_own)? {
        return Err(TransferError::IsUnfinished { path: what.name });
    }
    Ok(())
}
