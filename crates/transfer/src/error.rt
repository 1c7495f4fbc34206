//! Why a transfer fails.

ghost use Rattle.std.specs.Prelude.{◌≡◌, MatchResult};
ghost use Rattle.transfer.specs.declared.error.TransferError.TheVariants.{File};

use crate::room::Needs;
use host_files::FileError;
use model::Errno;
use mount::MountError;
use std::alloc::AllocError;
use thiserror::Error;

/// Why a file isn't stored in an image or brought back. What is told of a path names it as the user
/// spelled it.
#[derive(Debug, Drop, Error)]
pub enum TransferError<'a> {
    /// The host's file or one of the image can't be read or written, or no memory was left for
    /// them.
    #[error("{0}")]
    File(FileError<'a>),
    /// The image isn't mounted.
    #[error("mount {0}")]
    Mount(MountError),
    /// The host's file is one of the image's own.
    #[error("{file}: a file of the image")]
    IsImage {
        file: &'a str,
    },
    /// What the host's folder has by the file's name is no file.
    #[error("{place}: not a file")]
    NotAFile {
        place: String,
    },
    /// A pipe gave no bytes, as one does whose writer failed, and the file in the image has some.
    #[error("{file}: no bytes came, and {path} has {bytes}: it stays as it was (an empty file, or /dev/null, empties it)")]
    NothingCame {
        file: &'a str,
        path: String,
        bytes: u64,
    },
    /// The path is the one of what isn't whole yet.
    #[error("{path}: the name of what isn't whole yet")]
    IsUnfinished {
        path: &'a str,
    },
    /// A directory stands where what isn't whole yet has to stand.
    #[error("{path}: EISDIR at byte 0: what isn't whole yet has this name, and a directory stands there")]
    IsInTheWay {
        path: &'a str,
    },
    /// Something of the path isn't there.
    #[error("{path}: ENOENT at byte 0: {reason}")]
    NotThere {
        path: &'a str,
        reason: String,
    },
    /// There is no snapshot of this name.
    #[error("{path}: NOSNAP at byte 0: no snapshot is called {snapshot}")]
    NoSnapshot {
        path: &'a str,
        snapshot: String,
    },
    /// The path leads to a directory in the snapshot.
    #[error("{path}: EISDIR at byte 0: whole trees of a snapshot aren't restored yet")]
    IsTree {
        path: &'a str,
    },
    /// The image has so many inodes, and each is taken.
    #[error("{path}: NONUMBER at byte {offset}: no inode is free ({inodes} of {inodes} are taken)")]
    NoNumber {
        path: &'a str,
        offset: u64,
        inodes: u32,
    },
    /// The image has no room for the file from this byte on: so many blocks are free, and so many
    /// would be needed at the least.
    #[error("{path}: ENOSPC at byte {offset}: {free} blocks are free and {needed} are needed: {needs}")]
    NoRoom {
        path: &'a str,
        offset: u64,
        free: u64,
        needed: u64,
        /// What these are needed for.
        needs: Needs,
    },
    /// A call on a file in the image was refused, which begins at this byte of it.
    #[error("{path}: {errno} at byte {offset}")]
    Refused {
        path: &'a str,
        offset: u64,
        errno: Errno,
    },
}

impl<'a> From<FileError<'a>> for TransferError<'a> {
    ghost from_gives = { λ error e. e ≡ File error };

    fn from(error: FileError<'a>) -> TransferError<'a> {
        TransferError::File(error)
    }
}

impl From<AllocError> for TransferError<'_> {
    fn from(_error: AllocError) -> Self {
        TransferError::File(FileError::NoMemory)
    }
}

/// Names the place of a call that was refused.
pub(crate) fn at<'a, T>(
    path: &'a str,
    offset: u64,
    answer: Result<T, Errno>,
) -> Result<T, TransferError<'a>>
    ensures { MatchResult answer (λ value. result ≡ Ok value)
        (λ errno. result ≡ Err (TransferError.Refused path.entry offset errno)) }
{
    match answer {
        Ok(value) => Ok(value),
        Err(errno) => Err(TransferError::Refused {
            path,
            offset,
            errno,
        }),
    }
}
