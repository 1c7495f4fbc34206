//! Storing in an image, whole or not at all: under a name of its own, which it changes for the one
//! that it is to have.

use crate::error::{TransferError, at};
use crate::input::Input;
use crate::missing::spell;
use crate::parts::write_all;
use crate::progress::Progress;
use crate::room::{check_room, lacks_room, naming, storing, with_room};
use crate::runs::count_blocks;
use crate::steps::{make_file, remove};
use crate::target::{Target, UNFINISHED};
use layout::INLINE_BYTES;
use model::{Errno, Limits, Mode};
use mount::Fs;
use station::{BLOCK_BYTES, Station};
use std::alloc::Global;
use std::io::{Read, Write};

/// Where bytes go.
#[derive(Drop)]
pub struct Goal<'a> {
    /// The path as the user spells it and as it is.
    pub name: &'a str,
    pub path: &'a [u8],
    pub target: Target,
    /// The mode of what is stored.
    pub mode: Mode,
}

/// Takes away what a cut left of an earlier transfer.
pub fn take_left_away<'a, S: Station>(fs: &mut Fs<S>) -> Result<(), TransferError<'a>> {
    match remove(fs, UNFINISHED.as_bytes()) {
        Err(Errno::EPERM) => Err(TransferError::IsInTheWay { path: UNFINISHED }),
        answer => at(UNFINISHED, 0, answer),
    }
}

/// Refuses a file that is larger than one may be, at its first byte that is too many.
pub fn check_size<'a>(limits: Limits, path: &'a str, size: u64) -> Result<(), TransferError<'a>> {
    if size > limits.file_bytes {
        return at(path, limits.file_bytes, Err(Errno::EFBIG));
    }
    Ok(())
}

/// The same where the size is known.
pub fn check_known_size<'a>(
    limits: Limits,
    path: &'a str,
    size: Option<u64>,
) -> Result<(), TransferError<'a>> {
    match size {
        Some(size) => check_size(limits, path, size),
        None => Ok(()),
    }
}

/// The blocks that a file's bytes take: none where they stand in its inode.
fn blocks_of(size: u64) -> u64 {
    if size <= INLINE_BYTES as u64 {
        0
    } else {
        size.div_ceil(BLOCK_BYTES as u64)
    }
}

/// Refuses an input of known size whose blocks have no room. Its name comes behind them; what tells
/// where they are, and the writes, may need more. Which of them are zeros alone is looked at only
/// where there is no room for all.
fn check_blocks<'a, S: Station, I: Read>(
    alloc: Global,
    fs: &mut Fs<S>,
    path: &'a str,
    input: &mut Input<'a, '_, I>,
) -> Result<(), TransferError<'a>> {
    let Some(size) = input.size() else {
        return Ok(());
    };
    let costs = fs.limits().costs;
    let all = blocks_of(size);
    if !at(path, 0, lacks_room(fs, storing(costs, all)))? {
        return Ok(());
    }
    let stored = count_blocks(alloc, fs, input)?.min(all);
    check_room(fs, path, 0, storing(costs, stored))
}

/// Stores what an input gives in a new file, which takes the place of what is there once all is in
/// it. Gives the file system back.
pub fn store<'a, S: Station, I: Read, E: Write>(
    alloc: Global,
    mut fs: Fs<S>,
    goal: &Goal<'a>,
    input: &mut Input<'a, '_, I>,
    progress: &mut Progress<E>,
) -> (Fs<S>, Result<(), TransferError<'a>>) {
    if let Err(error) = check_blocks(alloc, &mut fs, goal.name, input) {
        return (fs, Err(error));
    }
    let (mut fs, stored) = store_bytes(alloc, fs, goal, input, progress);
    give_up_where_refused(&mut fs, &stored);
    (fs, stored)
}

/// Takes away what isn't whole. Where that is refused, the next transfer does it.
fn give_up_where_refused<S: Station>(fs: &mut Fs<S>, stored: &Result<(), TransferError<'_>>) {
    if stored.is_err() {
        let _ = remove(fs, UNFINISHED.as_bytes());
    }
}

/// Collects what an input gives in a new file, and gives that its name.
fn store_bytes<'a, S: Station, I: Read, E: Write>(
    alloc: Global,
    mut fs: Fs<S>,
    goal: &Goal<'a>,
    input: &mut Input<'a, '_, I>,
    progress: &mut Progress<E>,
) -> (Fs<S>, Result<(), TransferError<'a>>) {
    let cost = naming(fs.limits().costs);
    let made = make_file(&mut fs, UNFINISHED.as_bytes(), goal.mode);
    match with_room(&mut fs, goal.name, 0, cost, made) {
        Ok(fd) => {
            let (mut fs, written) = write_all(alloc, fs, fd, goal.name, input, progress);
            let closed = fs.close(fd);
            let ended = end_file(alloc, &mut fs, goal, input.pipe(), written, closed);
            (fs, ended)
        }
        Err(error) => (fs, Err(error)),
    }
}

/// Gives a new file its name, where all of its bytes are in it.
fn end_file<'a, S: Station>(
    alloc: Global,
    fs: &mut Fs<S>,
    goal: &Goal<'a>,
    pipe: Option<&'a str>,
    written: Result<u64, TransferError<'a>>,
    closed: Result<(), Errno>,
) -> Result<(), TransferError<'a>> {
    let bytes = written?;
    at(goal.name, bytes, closed)?;
    if bytes == 0 {
        check_pipe(alloc, goal, pipe)?;
    }
    give_name(fs, goal, bytes)
}

/// Gives what is whole its name, behind so many bytes.
fn give_name<'a, S: Station>(
    fs: &mut Fs<S>,
    goal: &Goal<'a>,
    bytes: u64,
) -> Result<(), TransferError<'a>> {
    let new = goal.target.path.as_slice();
    let cost = naming(fs.limits().costs);
    let named = fs.rename(UNFINISHED.as_bytes(), new);
    with_room(fs, goal.name, bytes, cost, named)
}

/// Refuses to empty a file because a pipe, which has this name, gave nothing.
fn check_pipe<'a>(
    alloc: Global,
    goal: &Goal<'a>,
    pipe: Option<&'a str>,
) -> Result<(), TransferError<'a>> {
    let bytes = match goal.target.there {
        Some(there) => there.size,
        None => 0,
    };
    match pipe {
        Some(file) if bytes > 0 => Err(TransferError::NothingCame {
            file,
            path: spell(alloc, goal.name, goal.path, goal.target.path.as_slice())?,
            bytes,
        }),
        _ => Ok(()),
    }
}

/// Stores a symbolic link of this text, which takes the place of what is there.
pub fn store_link<'a, S: Station>(
    fs: &mut Fs<S>,
    goal: &Goal<'a>,
    text: &[u8],
) -> Result<(), TransferError<'a>> {
    let stored = name_link(fs, goal, text);
    give_up_where_refused(fs, &stored);
    stored
}

/// Makes a link, and gives it its name.
fn name_link<'a, S: Station>(
    fs: &mut Fs<S>,
    goal: &Goal<'a>,
    text: &[u8],
) -> Result<(), TransferError<'a>> {
    let cost = naming(fs.limits().costs);
    let made = fs.symlink(text, UNFINISHED.as_bytes());
    with_room(fs, goal.name, 0, cost, made)?;
    give_name(fs, goal, 0)
}
