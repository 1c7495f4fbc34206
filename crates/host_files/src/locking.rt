//! Opening files under a lock, which is held as long as they are open. Between programs that all
//! take it, nobody reads what another one is writing, and nobody writes beside another one.

use crate::error::{FileError, on};
use std::fs::{File, Metadata, OpenOptions, TryLockError};
use std::io::ErrorKind;
use std::os::unix::fs::{FileTypeExt, MetadataExt};
use std::rt::{Clock, Files};
use std::time::Duration;
use std::{fs, io, thread};

/// So many times a file is opened in whose place another one is put meanwhile.
const TRIES: u32 = 16;

/// So many milliseconds pass before a lock is tried again.
const PAUSE_MILLISECONDS: u64 = 50;

/// How long this program waits for another one to let go of its locks.
#[derive(Clone, Copy, Debug, PartialEq, Eq)]
pub enum Patience {
    /// Not at all.
    None,
    /// So many seconds.
    Seconds(u32),
    /// As long as it takes.
    Forever,
}

impl Patience {
    /// So many pauses are made, with a try behind each.
    pub(crate) fn pauses(self) -> u64 {
        match self {
            Patience::None => 0,
            Patience::Seconds(seconds) => u64::from(seconds) * (1000 / PAUSE_MILLISECONDS),
            Patience::Forever => u64::MAX,
        }
    }
}

/// Waits before a lock is tried again.
pub(crate) fn pause<R: Clock>(rt: &R) {
    thread::sleep(rt, Duration::from_millis(PAUSE_MILLISECONDS));
}

/// What a file is opened for.
#[derive(Clone, Copy, Debug, PartialEq, Eq)]
pub enum Purpose {
    /// It is read, beside others that read it.
    Reading,
    /// It is read and written, by this program alone.
    Writing,
    /// Another file takes its place, while no program uses it.
    Replacing,
}

/// Opens a file that is there, and takes its lock without waiting for it: a shared one for reading,
/// and else an exclusive one. InUse where another program's lock is in the way, NotAFile where this
/// is neither a file nor a block device.
pub fn open_locked<'a, R: Files<File = File>>(
    rt: &R,
    path: &'a str,
    purpose: Purpose,
) -> Result<File, FileError<'a>> {
    for _ in 0..TRIES {
        check_kind(path, &on(path, fs::metadata(rt, path))?)?;
        let file = on(path, options(purpose).open(rt, path))?;
        take_lock(&file, path, purpose)?;
        // Before the lock was taken, another program may have put another file in the place of this
        // one.
        if on(path, is_still_at(rt, &file, path))? {
            return Ok(file);
        }
    }
    Err(FileError::InUse { path })
}

/// Refuses what waits for another program when it is opened, such as a FIFO, and what has no bytes
/// of its own.
fn check_kind<'a>(path: &'a str, found: &Metadata) -> Result<(), FileError<'a>> {
    if found.is_file() || found.file_type().is_block_device() {
        return Ok(());
    }
    Err(FileError::NotAFile { path })
}

/// How a file is opened. For reading alone a file will do that may only be read.
fn options(purpose: Purpose) -> OpenOptions {
    let mut options = OpenOptions::new();
    options.read(true).write(purpose == Purpose::Writing);
    options
}

fn take_lock<'a>(file: &File, path: &'a str, purpose: Purpose) -> Result<(), FileError<'a>> {
    let taken = match purpose {
        Purpose::Reading => file.try_lock_shared(),
        Purpose::Writing | Purpose::Replacing => file.try_lock(),
    };
    match taken {
        Ok(()) => Ok(()),
        Err(TryLockError::WouldBlock) => Err(FileError::InUse { path }),
        Err(TryLockError::Error(error)) => Err(FileError::Io { path, error }),
    }
}

/// Whether a path leads to this open file.
fn is_still_at<R: Files>(rt: &R, file: &File, path: &str) -> io::Result<bool> {
    let open = file.metadata()?;
    match fs::metadata(rt, path) {
        Ok(there) => Ok((there.dev(), there.ino()) == (open.dev(), open.ino())),
        Err(error) if error.kind() == ErrorKind::NotFound => Ok(false),
        Err(error) => Err(error),
    }
}
