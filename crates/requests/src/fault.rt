//! Why a row doesn't hold.

use std::alloc::{AllocError, AllocFailed, Global};
use std::io;
use thiserror::Error;

/// Why a row doesn't hold.
#[derive(Debug, Drop, Error)]
pub enum Fault {
    #[error("no memory")]
    NoMemory,
    #[error("the output can't be written")]
    NotWritten,
    /// A line of the row isn't understood, or what came differs from what it says.
    #[error("{0}")]
    Told(String),
}

impl Fault {
    /// A line that isn't understood.
    pub fn misread(alloc: Global, line: &str) -> Fault {
        told(format!(in alloc; "not understood: {line}"))
    }

    /// Another message went.
    pub fn differs(alloc: Global, about: &str, wanted: &[u8], found: &[u8]) -> Fault {
        match (hex::encode(alloc, wanted), hex::encode(alloc, found)) {
            (Ok(wanted), Ok(found)) => {
                told(format!(in alloc; "{about}\n  wanted {wanted}\n  found  {found}"))
            }
            _ => Fault::NoMemory,
        }
    }

    /// There were so many device writes in place of so many.
    pub fn count(alloc: Global, wanted: u32, found: u32) -> Fault {
        told(format!(in alloc; "device writes: wanted {wanted}, found {found}"))
    }

    /// Something went wrong beside the messages.
    pub fn other(alloc: Global, what: &str) -> Fault {
        told(format!(in alloc; "{what}"))
    }
}

fn told(text: Result<String, AllocError>) -> Fault {
    match text {
        Ok(text) => Fault::Told(text),
        Err(AllocError) => Fault::NoMemory,
    }
}

impl From<AllocError> for Fault {
    fn from(_error: AllocError) -> Fault {
        Fault::NoMemory
    }
}

impl<T: Drop> From<AllocFailed<T>> for Fault {
    fn from(_error: AllocFailed<T>) -> Fault {
        Fault::NoMemory
    }
}

impl From<io::Error> for Fault {
    fn from(_error: io::Error) -> Fault {
        Fault::NotWritten
    }
}
