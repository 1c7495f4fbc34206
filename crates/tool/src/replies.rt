//! Replies on their way to standard output, and what is told of those that refuse.

use crate::explain::tell_refusal;
use crate::talk::Talk;
use command_line::explain_line;
use host_files::Image;
use std::cell::RefCell;
use std::io;
use std::io::Write;

/// So many bytes at the beginning of a reply are looked at: more than the longest refusal has.
const HEAD_BYTES: usize = 32;

/// What a refusal begins with.
const REFUSAL: &[u8] = b"err ";

/// The refusal of a line that is no command.
const NO_COMMAND: &[u8] = b"BADLINE";

/// Gives replies on as they are, and tells on standard error what a refusal means, once its line is
/// out.
#[derive(Drop)]
pub(crate) struct Replies<'r, 'i, 's, 'e, O, E> {
    pub(crate) rt: &'r HostRuntime,
    pub(crate) image: Image<'i>,
    pub(crate) out: O,
    pub(crate) talk: &'s RefCell<Talk<'e, E>>,
    /// What refusals mean is told.
    pub(crate) explains: bool,
    /// The first bytes of the reply that is being written.
    pub(crate) head: Vec<u8>,
}

impl<O: Write, E: Write> Replies<'_, '_, '_, '_, O, E> {
    /// Looks at bytes that were given on.
    fn note(&mut self, bytes: &[u8]) -> io::Result<()> {
        for byte in bytes {
            if *byte == b'\n' {
                self.end_line();
            } else if self.head.len() < HEAD_BYTES {
                self.head.push(*byte)?;
            }
        }
        Ok(())
    }

    /// A reply is out.
    fn end_line(&mut self) {
        if self.head.starts_with(REFUSAL) {
            let _ = self.out.flush();
            self.tell();
        }
        self.head.clear();
    }

    /// Tells what the refusal that was written means.
    fn tell(&self) {
        let name = self.head.get(REFUSAL.len()..).unwrap_or(&[]);
        let Ok(mut talk) = self.talk.try_borrow_mut() else {
            return;
        };
        let talk = &mut *talk;
        if name != NO_COMMAND {
            tell_refusal(self.rt, self.image, name, talk.err);
            return;
        }
        match &talk.line {
            Some(line) => explain_line(self.rt.alloc(), line.as_slice(), 1, talk.err),
            None => {
                let _ = talk.err.write_all(b"wafl: longer than any command is\n");
            }
        }
    }
}

impl<O: Write, E: Write> Write for Replies<'_, '_, '_, '_, O, E> {
    fn write(&mut self, bytes: &[u8]) -> io::Result<usize> {
        let count = self.out.write(bytes)?;
        if self.explains {
            self.note(bytes.get(..count).unwrap_or(bytes))?;
        }
        Ok(count)
    }

    fn flush(&mut self) -> io::Result<()> {
        self.out.flush()
    }
}
