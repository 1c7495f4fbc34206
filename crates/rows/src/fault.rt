//! Why a row doesn't hold.

use std::alloc::{AllocError, AllocFailed, Global};
use std::io;
use thiserror::Error;

/// Why a row doesn't hold.
#[derive(Debug, Drop, Error)]
pub enum Fault {
    #[error("no memory")]
    NoMemory,
    #[error("the output can't be written")]
    NotWritten,
    /// A line of the row isn't understood, or what came differs from what it says.
    #[error("{0}")]
    Told(String),
}

impl Fault {
    /// A line that isn't understood.
    pub fn misread(alloc: Global, line: &str) -> Fault {
        told(format!(in alloc; "not understood: {line}"))
    }

    /// Something came, and something else was expected.
    pub fn differs(alloc: Global, what: &str, came: &[u8], expected: &str) -> Fault {
        match String::from_utf8_lossy(alloc, came) {
            Ok(came) => told(format!(in alloc; "{what}: {came} came in place of {expected}")),
            Err(_) => Fault::NoMemory,
        }
    }

    /// The same fault, with the choice at which it came.
    pub fn at_choice(self, alloc: Global, choice: u64) -> Fault {
        told(format!(in alloc; "at choice {choice}, {self}"))
    }
}

fn told(text: Result<String, AllocError>) -> Fault {
    match text {
        Ok(text) => Fault::Told(text),
        Err(AllocError) => Fault::NoMemory,
    }
}

impl From<AllocError> for Fault {
    fn from(_error: AllocError) -> Fault {
        Fault::NoMemory
    }
}

impl<T: Drop> From<AllocFailed<T>> for Fault {
    fn from(_error: AllocFailed<T>) -> Fault {
        Fault::NoMemory
    }
}

impl From<io::Error> for Fault {
    fn from(_error: io::Error) -> Fault {
        Fault::NotWritten
    }
}
