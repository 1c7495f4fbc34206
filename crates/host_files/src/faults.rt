//! Telling which call of the system failed on a file of an image.

use crate::image::Image;
use file_station::{FileFault, Part};
use std::io;
use std::io::{Cursor, Write};

/// Bytes that an error's text has at most.
const TEXT_BYTES: usize = 320;

/// What the text of a system's error has behind the system's own words.
const NUMBER: &str = " (os error ";

/// Tells a call that failed: the file's name as the user gave it, the call, and the system's own
/// words. Nothing where none failed.
pub fn tell_fault<E: Write>(image: Image<'_>, fault: Option<&FileFault>, err: &mut E) {
    let Some(FileFault { part, call, error }) = fault else {
        return;
    };
    let path = match part {
        Part::Disk => image.disk,
        Part::Nvram => image.nvram,
    };
    let mut text = [0; TEXT_BYTES];
    let words = words_of(error, &mut text);
    // Where standard error can't be written, nobody can be told.
    let _ = writeln!(err, "wafl: {path}: {call}: {words}");
}

/// An error's text, in lower case and without the system's number of it.
fn words_of<'t>(error: &io::Error, text: &'t mut [u8; TEXT_BYTES]) -> &'t str {
    let mut out = Cursor::new(text.as_mut_slice());
    let _ = write!(out, "{error}");
    let count = (out.position() as usize).min(TEXT_BYTES);
    text[0] = text[0].to_ascii_lowercase();
    let Ok(all) = std::str::from_utf8(&text[..count]) else {
        return "an error";
    };
    match all.split_once(NUMBER) {
        Some((words, _)) => words,
        None => all,
    }
}
