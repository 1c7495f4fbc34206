//! What both sides of a conversation share: standard error, and the line that is being answered.

use std::cell::RefCell;
use std::io;
use std::io::Write;

/// Standard error, and the line that was read last.
#[derive(Drop)]
pub(crate) struct Talk<'e, E> {
    pub(crate) err: &'e mut E,
    /// The line as a script would have it, without its end; None where it is too long to be kept.
    pub(crate) line: Option<Vec<u8>>,
}

/// Standard error as one of both sides writes it.
#[derive(Drop)]
pub(crate) struct SharedError<'s, 'e, E> {
    pub(crate) talk: &'s RefCell<Talk<'e, E>>,
}

impl<E: Write> Write for SharedError<'_, '_, E> {
    fn write(&mut self, bytes: &[u8]) -> io::Result<usize> {
        match self.talk.try_borrow_mut() {
            Ok(mut talk) => talk.err.write(bytes),
            Err(_) => Err(io::Error::from(io::ErrorKind::Other)),
        }
    }

    fn flush(&mut self) -> io::Result<()> {
        match self.talk.try_borrow_mut() {
            Ok(mut talk) => talk.err.flush(),
            Err(_) => Ok(()),
        }
    }
}
