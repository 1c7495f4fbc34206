//! How far a transfer came.

use std::io::Write;

/// Bytes of a MiB.
const MIB: u64 = 1_048_576;

/// Tells how far a transfer came: on one line that is written anew for each MiB, where there is a
/// terminal to show it.
#[derive(Drop)]
pub struct Progress<E> {
    to: E,
    has_terminal: bool,
    /// How many MiB were told.
    told: u64,
}

impl<E: Write> Progress<E> {
    pub fn new(to: E, has_terminal: bool) -> Progress<E> {
        Progress {
            to,
            has_terminal,
            told: 0,
        }
    }

    /// Tells that so many bytes were transferred. Where that can't be told, the transfer goes on.
    pub(crate) fn note(&mut self, bytes: u64) {
        let mib = bytes / MIB;
        if self.has_terminal && mib > self.told {
            self.told = mib;
            let _ = write!(self.to, "\r{mib} MiB");
        }
    }

    /// Ends the line, where anything was told.
    pub fn end(&mut self) {
        if self.told > 0 {
            let _ = self.to.write_all(b"\n");
        }
    }
}
