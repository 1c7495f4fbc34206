//! What is expected on a stream, line by line.

use crate::fault::Fault;
use crate::text::is_one_of;
use std::alloc::{AllocError, Global};

/// The lines that are expected on a stream.
#[derive(Drop)]
pub struct Expected<'a> {
    lines: Vec<&'a str>,
    /// The last one has no end.
    is_unended: bool,
    /// Further ones may follow.
    is_open: bool,
}

impl<'a> Expected<'a> {
    /// Nothing is expected.
    pub fn new(alloc: Global) -> Expected<'a> {
        Expected {
            lines: Vec::new(alloc),
            is_unended: false,
            is_open: false,
        }
    }

    /// Adds what stands behind the sign of the stream: ` TEXT` for a line, `- TEXT` for one without
    /// its end, ` ..` for any further ones.
    pub fn add(&mut self, text: &'a str) -> Result<(), AllocError> {
        if text == " .." {
            self.is_open = true;
            return Ok(());
        }
        let line = match text.strip_prefix("- ") {
            Some(line) => {
                self.is_unended = true;
                line
            }
            None => text.strip_prefix(" ").unwrap_or(text),
        };
        self.lines.push(line)?;
        Ok(())
    }

    /// Compares what came on the stream of this name.
    pub fn compare(&self, alloc: Global, stream: &str, came: &[u8]) -> Result<(), Fault> {
        let mut parts = came.split(|byte| *byte == b'\n');
        for line in self.lines.iter() {
            let is_there = match parts.next() {
                Some(part) => is_one_of(alloc, part, line)?,
                None => false,
            };
            if !is_there {
                return Err(Fault::differs(alloc, stream, came, line));
            }
        }
        if self.is_open {
            return Ok(());
        }
        // Behind the last line's end stands an empty part.
        let is_ended = self.is_unended || parts.next() == Some(b"".as_slice());
        if !is_ended || parts.next().is_some() {
            return Err(Fault::differs(alloc, stream, came, "its last line, and no more"));
        }
        Ok(())
    }
}
