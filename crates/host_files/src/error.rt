//! Why a file of the host's isn't used.

ghost use Rattle.std.specs.Prelude.{◌≡◌, Err, IsTrue, MatchResult, Ok};

use file_station::SizeError;
use memory_station::LoadError;
use std::alloc::{AllocError, AllocFailed};
use std::io;
use thiserror::Error;

/// Why a file isn't read or written, or an image isn't loaded.
#[derive(Debug, Drop, Error)]
pub enum FileError<'a> {
    /// A call of the system failed on this file, or on the new one beside it, or no memory was left
    /// for its bytes.
    #[error("{path}: {error}")]
    Io {
        path: &'a str,
        error: io::Error,
    },
    /// No memory was left.
    #[error("no memory")]
    NoMemory,
    /// The disk and the NVRAM are one file.
    #[error("{path}: the disk and the NVRAM are one file")]
    OneFile {
        path: &'a str,
    },
    /// Something else than a file is in the place of one that is to be used or replaced.
    #[error("{path}: not a file")]
    NotAFile {
        path: &'a str,
    },
    /// Another program holds a lock on this file, or goes on to put other files in its place.
    #[error("{path}: in use by another program")]
    InUse {
        path: &'a str,
    },
    /// A new image was asked for, and this file has bytes.
    #[error("{path}: there already, and not empty")]
    Exists {
        path: &'a str,
    },
    /// Every name that was tried for a new file beside this one is taken.
    #[error("{path}: no free name for a new file beside it, from {path}.new on ({tries} tried)")]
    NoName {
        path: &'a str,
        tries: u32,
    },
    /// This line of the list of sectors that can't be read, counted from 1, is none.
    #[error("{path}: line {line}: expected a decimal number from {least} on, below the disk's {sectors} sectors")]
    BadLine {
        path: &'a str,
        line: usize,
        /// The least number that may stand there.
        least: u64,
        sectors: u64,
    },
    /// This file may not be written, and an image with a list of sectors that can't be read is
    /// written even where it is only to be read.
    #[error("{path}: {error}; it has to be written, since {bad} is there")]
    IsListed {
        path: &'a str,
        bad: &'a str,
        error: io::Error,
    },
    /// The NVRAM has the name of the disk's list of sectors that can't be read.
    #[error("{path}: the name of the list of sectors that can't be read; the NVRAM needs another")]
    IsList {
        path: &'a str,
    },
    /// The disk was replaced, and the NVRAM couldn't be. Its new file stays where it was made.
    #[error("{disk} is replaced and {nvram} is not: {error}; the new NVRAM is {new_nvram}")]
    HalfReplaced {
        disk: &'a str,
        nvram: &'a str,
        new_nvram: String,
        error: io::Error,
    },
    /// The files are no station.
    #[error("{disk}, {nvram}: {error}")]
    Size {
        disk: &'a str,
        nvram: &'a str,
        error: SizeError,
    },
    /// The files were not loaded.
    #[error("{disk}, {nvram}: {error}")]
    Load {
        disk: &'a str,
        nvram: &'a str,
        error: LoadError,
    },
}

impl From<AllocError> for FileError<'_> {
    fn from(_error: AllocError) -> Self {
        FileError::NoMemory
    }
}

impl<T: Drop> From<AllocFailed<T>> for FileError<'_> {
    fn from(_error: AllocFailed<T>) -> Self {
        FileError::NoMemory
    }
}

impl FileError<'_> {
    /// Whether it is memory that was wanting.
    pub fn is_of_memory(&self) -> bool
        ensures { self.now ≡ FileError.NoMemory → IsTrue result }
    {
        match self {
            FileError::NoMemory => true,
            FileError::Io { error, .. } => error.kind() == io::ErrorKind::OutOfMemory,
            FileError::Load { error, .. } => matches!(error, LoadError::NoMemory),
            _ => false,
        }
    }
}

/// Names the file of a call that failed.
pub fn on<'a, T>(path: &'a str, done: io::Result<T>) -> Result<T, FileError<'a>>
    ensures { MatchResult done (λ value. result ≡ Ok value)
        (λ error. result ≡ Err (FileError.Io path.entry error)) }
{
    match done {
        Ok(value) => Ok(value),
        Err(error) => Err(FileError::Io { path, error }),
    }
}
