//! The lines of `shell` as somebody types them: given on one by one, as a script would have them.

ghost use Rattle.std.specs.Prelude.{◌≤◌, length};

use crate::talk::Talk;
use command_line::{COMMAND_NOTES, typed_line};
use session::LINE_BYTES;
use std::alloc::Global;
use std::cell::RefCell;
use std::io;
use std::io::{BufRead, BufReader, Read, Write};

/// The end of a line.
const LINE_FEED: u8 = b'\n';

/// The lines of an input. Each read gives bytes of one line alone, so that what is told of the line
/// before comes before it, or where they are to be answered together, of all that are at hand.
#[derive(Drop)]
pub(crate) struct TypedLines<'s, 'e, I, E> {
    alloc: Global,
    input: BufReader<I>,
    talk: &'s RefCell<Talk<'e, E>>,
    /// Somebody types them, who may ask for help.
    is_terminal: bool,
    /// All whole lines that are at hand are given together.
    gathers: bool,
    /// The line that is given on, or a part of one that is longer than any command.
    line: Vec<u8>,
    /// So many bytes of it were given on.
    given: usize,
    /// It goes on a line that is longer than any command.
    is_long: bool,
    has_quit: bool,
}

impl<'s, 'e, I: Read + Drop, E: Write> TypedLines<'s, 'e, I, E> {
    pub(crate) fn new(
        alloc: Global,
        input: I,
        talk: &'s RefCell<Talk<'e, E>>,
        is_terminal: bool,
        gathers: bool,
    ) -> io::Result<TypedLines<'s, 'e, I, E>> {
        Ok(TypedLines {
            alloc,
            input: BufReader::new(alloc, input)?,
            talk,
            is_terminal,
            gathers: gathers && !is_terminal,
            line: Vec::new(alloc),
            given: 0,
            is_long: false,
            has_quit: false,
        })
    }

    /// Takes the next line, or all that are at hand behind it where they are given together.
    fn take_lines(&mut self) -> io::Result<()> {
        self.take_line()?;
        if !self.gathers {
            return Ok(());
        }
        let mut lines = Vec::new(self.alloc);
        for _ in 0..u64::MAX {
            let is_whole = self.line.last() == Some(&LINE_FEED);
            if !is_whole || self.has_quit || !has_line(self.input.buffer()) {
                break;
            }
            lines.extend_from_slice(self.line.as_slice())?;
            self.take_line()?;
        }
        lines.extend_from_slice(self.line.as_slice())?;
        self.line = lines;
        self.given = 0;
        Ok(())
    }

    /// Takes the next line, or the next part of one that is longer than any command.
    fn take_line(&mut self) -> io::Result<()> {
        self.line.clear();
        self.given = 0;
        self.gather()?;
        let is_whole = self.line.last() == Some(&LINE_FEED);
        let was_long = self.is_long;
        self.is_long = !is_whole && self.line.len() > LINE_BYTES;
        if was_long || self.is_long {
            self.keep(None);
            return Ok(());
        }
        if is_whole {
            self.line.pop();
        }
        self.translate()?;
        if is_whole {
            self.line.push(LINE_FEED)?;
        }
        Ok(())
    }

    /// Reads to the end of a line, or as far as it is surely longer than any command.
    fn gather(&mut self) -> io::Result<()> {
        for _ in 0..u64::MAX {
            let taken = take_part(&mut self.input, &mut self.line)?;
            if taken == 0 || self.line.last() == Some(&LINE_FEED) || self.line.len() > LINE_BYTES {
                break;
            }
        }
        Ok(())
    }

    /// Makes a script's line of what was typed, and keeps it to speak of. Help is given at once,
    /// and is no line then.
    fn translate(&mut self) -> io::Result<()> {
        if self.is_terminal {
            match self.line.as_slice() {
                b"help" | b"?" => {
                    self.help();
                    self.line.clear();
                }
                b"quit" | b"exit" => {
                    self.has_quit = true;
                    self.line.clear();
                }
                _ => {}
            }
        }
        self.line = typed_line(self.alloc, self.line.as_slice())?;
        let kept = Vec::from_slice(self.alloc, self.line.as_slice())?;
        self.keep(Some(kept));
        Ok(())
    }

    fn help(&self) {
        if let Ok(mut talk) = self.talk.try_borrow_mut() {
            let _ = talk.err.write_all(COMMAND_NOTES.as_bytes());
            let _ = talk
                .err
                .write_all(b"\n\nhelp tells this again, and quit ends.\n");
        }
    }

    fn keep(&self, line: Option<Vec<u8>>) {
        if let Ok(mut talk) = self.talk.try_borrow_mut() {
            talk.line = line;
        }
    }
}

/// Adds what is at hand of an input to a line, to the line's end at most, and says how many bytes
/// these are.
fn take_part<I: Read + Drop>(input: &mut BufReader<I>, line: &mut Vec<u8>) -> io::Result<usize> {
    let part = input.fill_buf()?;
    let part = through_line_feed(part);
    let count = part.len();
    line.extend_from_slice(part)?;
    input.consume(count);
    Ok(count)
}

/// Whether a whole line is at hand.
fn has_line(bytes: &[u8]) -> bool {
    bytes.contains(&LINE_FEED)
}

/// Gives bytes of a line from this one on, and says how many these are.
fn give(line: &[u8], from: usize, out: &mut [u8]) -> usize
    ensures { result ≤ length out.new }
{
    let left = line.get(from..).unwrap_or(&[]);
    let count = left.len().min(out.len());
    out[..count].copy_from_slice(&left[..count]);
    count
}

/// Bytes to the first line feed with it, or all where there is none.
fn through_line_feed(bytes: &[u8]) -> &[u8] {
    match bytes.iter().position(|byte| *byte == LINE_FEED) {
        Some(at) => bytes.get(..at.saturating_add(1)).unwrap_or(bytes),
        None => bytes,
    }
}

impl<I: Read + Drop, E: Write> Read for TypedLines<'_, '_, I, E> {
    fn read(&mut self, out: &mut [u8]) -> io::Result<usize> {
        if self.has_quit {
            return Ok(0);
        }
        if self.given >= self.line.len() {
            self.take_lines()?;
            if self.has_quit {
                return Ok(0);
            }
        }
        let count = give(self.line.as_slice(), self.given, out);
        self.given = self.given.saturating_add(count);
        Ok(count)
    }
}
