//! Why a story doesn't hold.

use std::alloc::{AllocError, AllocFailed, Global};
use std::io;
use thiserror::Error;

/// Why a story doesn't hold.
#[derive(Debug, Drop, Error)]
pub enum Fault {
    #[error("no memory")]
    NoMemory,
    #[error("the output can't be written")]
    NotWritten,
    /// A line of the story isn't understood, or what came differs from what it says.
    #[error("{0}")]
    Told(String),
}

impl Fault {
    /// A line that isn't understood.
    pub fn misread(alloc: Global, line: &str) -> Fault {
        told(format!(in alloc; "not understood: {line}"))
    }

    /// Something came, and something else was expected: the lines in which they differ first.
    pub fn differs(alloc: Global, what: &str, came: &[u8], expected: &[u8]) -> Fault {
        let (came, expected) = first_difference(came, expected);
        match (
            String::from_utf8_lossy(alloc, came),
            String::from_utf8_lossy(alloc, expected),
        ) {
            (Ok(came), Ok(expected)) => {
                told(format!(in alloc; "{what}: `{came}` came in place of `{expected}`"))
            }
            _ => Fault::NoMemory,
        }
    }

    /// The same fault, with where it came.
    pub fn at(self, alloc: Global, place: &str) -> Fault {
        told(format!(in alloc; "{place}: {self}"))
    }
}

/// The first lines that differ; empty ones where there is no line.
fn first_difference<'a>(came: &'a [u8], expected: &'a [u8]) -> (&'a [u8], &'a [u8]) {
    let mut lines = came.split(|byte| *byte == b'\n');
    for wanted in expected.split(|byte| *byte == b'\n') {
        let line = lines.next().unwrap_or(b"");
        if line != wanted {
            return (line, wanted);
        }
    }
    (lines.next().unwrap_or(b""), b"")
}

fn told(text: Result<String, AllocError>) -> Fault {
    match text {
        Ok(text) => Fault::Told(text),
        Err(AllocError) => Fault::NoMemory,
    }
}

impl From<AllocError> for Fault {
    fn from(_error: AllocError) -> Fault {
        Fault::NoMemory
    }
}

impl<T: Drop> From<AllocFailed<T>> for Fault {
    fn from(_error: AllocFailed<T>) -> Fault {
        Fault::NoMemory
    }
}

impl From<io::Error> for Fault {
    fn from(_error: io::Error) -> Fault {
        Fault::NotWritten
    }
}
