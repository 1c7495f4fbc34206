//! Writing what an input gives, part by part. Of a file that isn't whole yet no part has to be
//! durable by itself, so the parts wait, and become durable together: as many as a half of the log
//! takes, which is the most that waits in memory.

use crate::applying::{set_size, write_at};
use crate::error::{TransferError, at};
use crate::input::Input;
use crate::progress::Progress;
use crate::room::{Cost, sizing, with_room, writing};
use crate::runs::next_run;
use crate::storing::check_size;
use model::Errno;
use mount::{Fs, Waiting};
use station::Station;
use std::alloc::Global;
use std::io::{Read, Write};

/// Why not all is written.
#[derive(Drop)]
enum Stop<'a> {
    /// What comes can't be read, or is too large.
    Failed(TransferError<'a>),
    /// A call was refused, which begins at this byte and needs this room.
    Refused {
        offset: u64,
        cost: Cost,
        errno: Errno,
    },
}

impl<'a> From<TransferError<'a>> for Stop<'a> {
    fn from(error: TransferError<'a>) -> Stop<'a> {
        Stop::Failed(error)
    }
}

/// Writes what an input gives into an open file, and tells how many bytes these are. All that was
/// written is durable then.
pub fn write_all<'a, S: Station, I: Read, E: Write>(
    alloc: Global,
    fs: Fs<S>,
    fd: u32,
    path: &'a str,
    input: &mut Input<'a, '_, I>,
    progress: &mut Progress<E>,
) -> (Fs<S>, Result<u64, TransferError<'a>>) {
    let mut files = Waiting::new(alloc, fs);
    let written = write_parts(alloc, &mut files, fd, path, input, progress);
    let kept = files.commit();
    let mut fs = files.into_fs();
    let told = tell(&mut fs, path, written, kept);
    (fs, told)
}

/// Tells how many bytes were written, or what was refused, and in which place.
fn tell<'a, S: Station>(
    fs: &mut Fs<S>,
    path: &'a str,
    written: Result<u64, Stop<'a>>,
    kept: Result<(), Errno>,
) -> Result<u64, TransferError<'a>> {
    match written {
        Ok(size) => {
            at(path, size, kept)?;
            Ok(size)
        }
        Err(Stop::Failed(error)) => Err(error),
        Err(
            Stop::Refused {
                offset,
                cost,
                errno,
            },
        ) => with_room(fs, path, offset, cost, Err(errno)),
    }
}

/// Writes what an input gives, in parts as large as one call writes, and tells how many bytes these
/// are. They may wait.
fn write_parts<'a, S: Station, I: Read, E: Write>(
    alloc: Global,
    files: &mut Waiting<S>,
    fd: u32,
    path: &'a str,
    input: &mut Input<'a, '_, I>,
    progress: &mut Progress<E>,
) -> Result<u64, Stop<'a>> {
    let limits = files.limits();
    let mut size = 0_u64;
    let mut stored = 0;
    for _ in 0..u64::MAX {
        let start = size;
        let part = input.read_part(alloc, files)?;
        size = start.saturating_add(part.len() as u64);
        check_size(limits, path, size)?;
        if part.is_empty() {
            break;
        }
        if let Some(end) = write_runs(files, fd, start, &part)? {
            stored = end;
        }
        progress.note(size);
    }
    if stored < size {
        // It ends in zeros.
        or_stop(size, sizing(limits.costs), set_size(files, fd, size))?;
    }
    Ok(size)
}

/// Writes those blocks of a part that aren't zeros alone, run by run. The part begins at this byte
/// of the file. Tells the byte behind them, where there are any.
fn write_runs<'a, S: Station>(
    files: &mut Waiting<S>,
    fd: u32,
    start: u64,
    part: &[u8],
) -> Result<Option<u64>, Stop<'a>> {
    let costs = files.limits().costs;
    let mut stored = None;
    let mut from = 0;
    for _ in 0..part.len() {
        let Some(run) = next_run(part, from) else {
            break;
        };
        let offset = start.saturating_add(run.start as u64);
        let count = run.bytes.len();
        let written = write_at(files, fd, offset, run.bytes);
        or_stop(offset, writing(costs, offset, count), written)?;
        stored = Some(offset.saturating_add(count as u64));
        from = run.end();
    }
    Ok(stored)
}

/// Stops where a call was refused, which begins at this byte and needs this room.
fn or_stop<'a>(offset: u64, cost: Cost, answer: Result<(), Errno>) -> Result<(), Stop<'a>> {
    match answer {
        Ok(()) => Ok(()),
        Err(errno) => Err(Stop::Refused {
            offset,
            cost,
            errno,
        }),
    }
}
