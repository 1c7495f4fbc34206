//! Commands with their replies.

use crate::fault::Fault;
use crate::text::{bytes_of, push_line};
use script::{read_command, write_command};
use std::alloc::Global;

/// Commands in their order, and the reply to each.
#[derive(Drop)]
pub struct Commands {
    alloc: Global,
    pub script: Vec<u8>,
    /// The lines that are shown when all are done.
    pub replies: Vec<u8>,
    /// How many bytes of the script and of the replies there are before each command, and behind
    /// all.
    lines: Vec<usize>,
    shown: Vec<usize>,
}

impl Commands {
    pub fn new(alloc: Global) -> Result<Commands, Fault> {
        Ok(Commands {
            alloc,
            script: Vec::new(alloc),
            replies: Vec::new(alloc),
            lines: vec![in alloc; 0; 1]?,
            shown: vec![in alloc; 0; 1]?,
        })
    }

    /// Adds a command. What it is read as is written as the same line, and read as the same again.
    pub fn add(&mut self, command: &str, reply: &str) -> Result<(), Fault> {
        test_spelling(self.alloc, command)?;
        push_line(self.alloc, &mut self.script, command)?;
        push_line(self.alloc, &mut self.replies, reply)?;
        self.lines.push(self.script.len())?;
        self.shown.push(self.replies.len())?;
        Ok(())
    }

    /// How many there are.
    pub fn count(&self) -> usize {
        self.lines.len().saturating_sub(1)
    }

    /// The script of the first ones, so many.
    pub fn script_to(&self, count: usize) -> &[u8] {
        part_to(&self.script, &self.lines, count)
    }

    /// The replies to the first ones, so many.
    pub fn replies_to(&self, count: usize) -> &[u8] {
        part_to(&self.replies, &self.shown, count)
    }
}

/// The bytes before the end that stands at this place; all where none does.
fn part_to<'a>(bytes: &'a [u8], ends: &[usize], place: usize) -> &'a [u8] {
    match ends.get(place) {
        Some(end) => bytes.get(..*end).unwrap_or(bytes),
        None => bytes,
    }
}

/// A command's line is the one that spells what it is read as.
fn test_spelling(alloc: Global, line: &str) -> Result<(), Fault> {
    let line = bytes_of(alloc, line)?;
    let written = spelled(alloc, &line)?;
    if written.as_slice() != line.as_slice() {
        return Err(Fault::differs(alloc, "spelling", &written, &line));
    }
    let again = spelled(alloc, &written)?;
    if again.as_slice() != written.as_slice() {
        return Err(Fault::differs(alloc, "spelling", &again, &written));
    }
    Ok(())
}

/// The line that spells what a line is read as; `-` where it is no command.
fn spelled(alloc: Global, line: &[u8]) -> Result<Vec<u8>, Fault> {
    let Ok(command) = read_command(alloc, line) else {
        return Ok(Vec::from_slice(alloc, b"-")?);
    };
    match write_command(alloc, &command) {
        Ok(line) => Ok(line),
        Err(_) => Err(Fault::NoMemory),
    }
}
