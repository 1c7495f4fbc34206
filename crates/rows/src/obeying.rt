//! One command line of a row: the program's words, what stands on its standard input, and what is
//! expected of it.

use crate::expected::Expected;
use crate::fault::Fault;
use crate::text::{bytes_of, is_one_of, push_text};
use std::alloc::Global;
use std::io::Write;
use std::{fs, io};
use tool::{Terminals, obey};

/// A command line that is being read.
#[derive(Drop)]
pub struct Obeyed<'a> {
    words: &'a str,
    input: Vec<u8>,
    out: Expected<'a>,
    err: Expected<'a>,
    /// The file that standard output is to be the same as.
    same: Option<&'a str>,
    /// How many bytes standard output takes.
    room: usize,
    /// Standard input is a pipe.
    is_pipe: bool,
    /// The exit statuses that may come.
    statuses: &'a str,
}

/// Standard output of a row, which takes so many bytes and fails then.
#[derive(Drop)]
struct Output {
    bytes: Vec<u8>,
    room: usize,
}

impl Write for Output {
    fn write(&mut self, buf: &[u8]) -> io::Result<usize> {
        if buf.len() > self.room.saturating_sub(self.bytes.len()) {
            return Err(io::ErrorKind::BrokenPipe.into());
        }
        self.bytes.extend_from_slice(buf)?;
        Ok(buf.len())
    }

    fn flush(&mut self) -> io::Result<()> {
        Ok(())
    }
}

impl<'a> Obeyed<'a> {
    /// A command line of these words.
    pub fn new(alloc: Global, words: &'a str) -> Obeyed<'a> {
        Obeyed {
            words,
            input: Vec::new(alloc),
            out: Expected::new(alloc),
            err: Expected::new(alloc),
            same: None,
            room: usize::MAX,
            is_pipe: false,
            statuses: "0",
        }
    }

    /// Adds a line about its streams: `< TEXT`, or `<- TEXT` without its end, on standard input,
    /// which `<pipe` makes a pipe; `> TEXT` on standard output, which `>room N` has fail behind N
    /// bytes and `>file NAME` expects to be just this file; `! TEXT` on standard error.
    pub fn add_line(&mut self, alloc: Global, line: &'a str) -> Result<(), Fault> {
        if line == "<pipe" {
            self.is_pipe = true;
            return Ok(());
        }
        if let Some(text) = line.strip_prefix("<- ") {
            return push_text(alloc, &mut self.input, text);
        }
        if let Some(text) = line.strip_prefix("<") {
            push_text(
                alloc,
                &mut self.input,
                text.strip_prefix(" ").unwrap_or(text),
            )?;
            self.input.push(b'\n')?;
            return Ok(());
        }
        if let Some(count) = line.strip_prefix(">room ") {
            return self.limit_output(alloc, count);
        }
        if let Some(name) = line.strip_prefix(">file ") {
            self.same = Some(name);
            return Ok(());
        }
        if let Some(text) = line.strip_prefix(">") {
            return Ok(self.out.add(text)?);
        }
        match line.strip_prefix("!") {
            Some(text) => Ok(self.err.add(text)?),
            None => Err(Fault::misread(alloc, line)),
        }
    }

    fn limit_output(&mut self, alloc: Global, count: &str) -> Result<(), Fault> {
        match count.parse() {
            Ok(count) => {
                self.room = count;
                Ok(())
            }
            Err(_) => Err(Fault::misread(alloc, count)),
        }
    }

    /// The exit statuses that may come, with ` | ` between.
    pub fn expect_status(&mut self, statuses: &'a str) {
        self.statuses = statuses;
    }

    /// Compares what came on standard output.
    fn compare_out(&self, rt: &HostRuntime, came: &[u8]) -> Result<(), Fault> {
        let alloc = rt.alloc();
        let Some(name) = self.same else {
            return self.out.compare(alloc, "standard output", came);
        };
        let bytes = fs::read(rt, name)?;
        if bytes.as_slice() != came {
            return Err(Fault::differs(alloc, "standard output", came, name));
        }
        Ok(())
    }

    /// No stream of a row is a terminal.
    fn terminals(&self) -> Terminals {
        Terminals {
            input: false,
            out: false,
            err: false,
            is_pipe: self.is_pipe,
        }
    }

    /// Has the program obey it, and compares what that gives.
    pub fn finish(&self, rt: &HostRuntime) -> Result<(), Fault> {
        let alloc = rt.alloc();
        let words = words_of(alloc, self.words)?;
        let mut out = Output {
            bytes: Vec::new(alloc),
            room: self.room,
        };
        let mut err = Vec::new(alloc);
        let mut input = self.input.as_slice();
        let status = obey(
            rt,
            words.as_slice(),
            self.terminals(),
            &mut input,
            &mut out,
            &mut err,
        );
        self.compare_out(rt, out.bytes.as_slice())?;
        self.err.compare(alloc, "standard error", err.as_slice())?;
        let came = format!(in alloc; "{status}")?;
        if !is_one_of(alloc, came.as_bytes(), self.statuses)? {
            return Err(Fault::differs(alloc, "status", came.as_bytes(), self.statuses));
        }
        Ok(())
    }
}

/// The program's words, of which the first is its name. In each `{HH}` is a byte.
fn words_of(alloc: Global, text: &str) -> Result<Vec<String>, Fault> {
    let mut words = Vec::new(alloc);
    words.push(String::from_str(alloc, "wafl")?)?;
    for word in text.split(' ') {
        let bytes = bytes_of(alloc, word)?;
        match std::str::from_utf8(bytes.as_slice()) {
            Ok(word) => words.push(String::from_str(alloc, word)?)?,
            Err(_) => return Err(Fault::misread(alloc, text)),
        }
    }
    Ok(words)
}
