//! Names as a terminal shows them: one on a line, as a shell would read them back.

use std::alloc::{AllocError, Global};
use std::io;
use std::io::Write;

/// The word before the names in a reply.
const NAMES: &[u8] = b"names";

/// Shows the names of a reply to `list` one on a line, in place of the reply; all other replies as
/// they are.
#[derive(Drop)]
pub(crate) struct Names<'o, O> {
    alloc: Global,
    out: &'o mut O,
    /// The word of the reply that is being written.
    word: Vec<u8>,
    /// How many words of the line stand before it.
    words: usize,
    /// The line is one of names.
    has_names: bool,
}

impl<'o, O: Write> Names<'o, O> {
    pub(crate) fn new(alloc: Global, out: &'o mut O) -> Names<'o, O> {
        Names {
            alloc,
            out,
            word: Vec::new(alloc),
            words: 0,
            has_names: false,
        }
    }

    fn take(&mut self, byte: u8) -> io::Result<()> {
        match byte {
            b' ' => self.end_word(b" "),
            b'\n' => {
                self.end_word(b"\n")?;
                self.words = 0;
                self.has_names = false;
                Ok(())
            }
            _ => Ok(self.word.push(byte)?),
        }
    }

    /// Shows a word, behind which these bytes stand.
    fn end_word(&mut self, behind: &[u8]) -> io::Result<()> {
        if self.words == 0 {
            self.has_names = self.word.as_slice() == NAMES;
        }
        if !self.has_names {
            self.out.write_all(self.word.as_slice())?;
            self.out.write_all(behind)?;
        } else if self.words > 0 {
            let shown = shown_name(self.alloc, self.word.as_slice())?;
            self.out.write_all(shown.as_slice())?;
            self.out.write_all(b"\n")?;
        }
        self.words = self.words.saturating_add(1);
        self.word.clear();
        Ok(())
    }
}

impl<O: Write> Write for Names<'_, O> {
    fn write(&mut self, bytes: &[u8]) -> io::Result<usize> {
        for byte in bytes {
            self.take(*byte)?;
        }
        Ok(bytes.len())
    }

    fn flush(&mut self) -> io::Result<()> {
        self.out.flush()
    }
}

/// A name that a script spells so, as a shell reads it: as it is, or between quotes.
fn shown_name(alloc: Global, word: &[u8]) -> Result<Vec<u8>, AllocError> {
    let name = decoded(alloc, word)?;
    if !name.is_empty() && name.iter().all(|byte| is_plain(*byte)) {
        return Ok(name);
    }
    let is_text = std::str::from_utf8(name.as_slice()).is_ok();
    if !is_text || name.iter().any(|byte| *byte < b' ' || *byte == 0x7f) {
        return control_quoted(alloc, name.as_slice());
    }
    let mut shown = Vec::new(alloc);
    shown.push(b'\'')?;
    for byte in name.iter() {
        if *byte == b'\'' {
            shown.extend_from_slice(b"'\\''")?;
        } else {
            shown.push(*byte)?;
        }
    }
    shown.push(b'\'')?;
    Ok(shown)
}

/// A name that is no text, or has bytes that a terminal would obey: between `$'` and `'`, these as
/// `\x` and two digits.
fn control_quoted(alloc: Global, name: &[u8]) -> Result<Vec<u8>, AllocError> {
    let mut shown = Vec::new(alloc);
    shown.extend_from_slice(b"$'")?;
    for byte in name {
        match *byte {
            b'\'' | b'\\' => {
                shown.push(b'\\')?;
                shown.push(*byte)?;
            }
            b' '..=b'~' => shown.push(*byte)?,
            byte => {
                let text = format!(in alloc; "\\x{byte:02x}")?;
                shown.extend_from_slice(text.as_bytes())?;
            }
        }
    }
    shown.push(b'\'')?;
    Ok(shown)
}

/// Whether a shell takes a byte as it is, wherever it stands.
fn is_plain(byte: u8) -> bool {
    byte.is_ascii_alphanumeric()
        || matches!(byte, b'.' | b'_' | b'-' | b'+' | b',' | b'/' | b':' | b'@')
}

/// The bytes that a script's word spells.
fn decoded(alloc: Global, word: &[u8]) -> Result<Vec<u8>, AllocError> {
    let mut bytes = Vec::new(alloc);
    let mut rest = word;
    for _ in 0..word.len() {
        match rest {
            [] => break,
            [b'%', high, low, behind @ ..] => {
                bytes.push(digit(*high).wrapping_mul(16) | digit(*low))?;
                rest = behind;
            }
            [first, behind @ ..] => {
                bytes.push(*first)?;
                rest = behind;
            }
        }
    }
    Ok(bytes)
}

fn digit(byte: u8) -> u8 {
    match byte {
        b'0'..=b'9' => byte - b'0',
        b'a'..=b'f' => byte - b'a' + 10,
        _ => 0,
    }
}
