//! One command, which words of the program's own spell.

use super::sessions::{Ran, close_run, explain};
use super::{Streams, open_as_asked, tell, tell_salvage};
use crate::names::Names;
use crate::replies::Replies;
use crate::salvaging::SalvageError;
use crate::talk::{SharedError, Talk};
use command_line::{are_words, line_of_typed, line_of_words};
use host_files::{FileError, Image, ImageStation, open_image};
use session::{Ending, Sink, Status, session};
use std::alloc::{AllocError, Global};
use std::cell::RefCell;
use std::io::{Read, Write};

/// The commands that read alone, but for `snap list`, which is two words, and `in`, which reads
/// whatever is behind it.
const READING: [&str; 12] = [
    "list", "entries", "stat", "lstat", "attr", "lattr", "readlink", "get", "in", "extent", "df",
    "statfs",
];

/// Does one command, which words spell.
pub(super) fn run_one<I: Read, O: Write, E: Write>(
    rt: &HostRuntime,
    image: Image<'_>,
    words: &[&str],
    streams: &mut Streams<I, O, E>,
) -> Status {
    let options = streams.options;
    if options.salvages && !is_reading(words) {
        let _ = writeln!(
            streams.err,
            "wafl: --salvage changes nothing: it goes with list, entries, stat, lstat, attr, lattr, readlink, get, in, extent, snap list, df and statfs"
        );
        return Status::NotUnderstood;
    }
    let Ok(script) = line_of(rt.alloc(), words, options.is_encoded) else {
        return tell(&FileError::NoMemory, &mut streams.err);
    };
    match answer_one(rt, image, words, script.as_slice(), streams) {
        Ok(ending) if options.is_encoded && !options.salvages && !are_words(words) => {
            explain_words(&mut streams.err);
            ending.status()
        }
        Ok(ending) => explain(rt, image, script.as_slice(), ending, streams),
        Err(error) => tell_salvage(&error, &mut streams.err),
    }
}

/// A script's line of words: as somebody types them, or as scripts spell them.
fn line_of(alloc: Global, words: &[&str], is_encoded: bool) -> Result<Vec<u8>, AllocError> {
    if is_encoded {
        return line_of_words(alloc, words);
    }
    line_of_typed(alloc, words)
}

/// Tells why words that scripts are to spell so are no line of one.
fn explain_words<E: Write>(err: &mut E) {
    let _ = writeln!(
        err,
        "wafl: a word is empty, has a blank or a line's end in it, or begins a comment"
    );
}

/// Whether words are a command that changes nothing.
fn is_reading(words: &[&str]) -> bool {
    match words {
        [first, second, ..] if *first == "snap" => *second == "list",
        [first, ..] => READING.iter().any(|name| *name == *first),
        [] => false,
    }
}

/// Whether words are `list`, in a snapshot too.
fn is_list(words: &[&str]) -> bool {
    match words {
        [first, _, third, ..] if *first == "in" => *third == "list",
        [first, ..] => *first == "list",
        [] => false,
    }
}

/// The snapshot that words read in.
fn snapshot_of<'w>(words: &[&'w str]) -> Option<&'w [u8]> {
    match words {
        [first, name, ..] if *first == "in" => Some(name.as_bytes()),
        _ => None,
    }
}

/// Answers a command on an image.
fn answer_one<'a, I, O: Write, E: Write>(
    rt: &HostRuntime,
    image: Image<'a>,
    words: &[&str],
    script: &[u8],
    streams: &mut Streams<I, O, E>,
) -> Result<Ending, SalvageError<'a>> {
    let station = if is_reading(words) {
        open_as_asked(rt, image, snapshot_of(words), streams)?
    } else {
        open_image(rt, image, streams.patience)?
    };
    let ran = answer_on(rt, image, station, words, script, streams);
    Ok(close_run(rt, image, ran, &mut streams.err)?)
}

/// Answers a command on an image that is open. On a terminal names are shown as a shell reads them.
fn answer_on<I, O: Write, E: Write>(
    rt: &HostRuntime,
    image: Image<'_>,
    station: ImageStation,
    words: &[&str],
    script: &[u8],
    streams: &mut Streams<I, O, E>,
) -> Ran {
    let talk = RefCell::new(Talk {
        err: &mut streams.err,
        line: None,
    });
    if streams.terminals.out && is_list(words) {
        let mut names = Names::new(rt.alloc(), &mut streams.out);
        return converse(rt, image, station, script, &mut names, &talk);
    }
    converse(rt, image, station, script, &mut streams.out, &talk)
}

/// Answers a command, and tells what a refusal means.
fn converse<O: Write, E: Write>(
    rt: &HostRuntime,
    image: Image<'_>,
    station: ImageStation,
    script: &[u8],
    out: &mut O,
    talk: &RefCell<Talk<'_, E>>,
) -> Ran {
    let replies = Replies {
        rt,
        image,
        out,
        talk,
        explains: true,
        head: Vec::new(rt.alloc()),
    };
    session(
        rt.alloc(),
        station,
        script,
        true,
        |_| false,
        &mut Sink::new(replies),
        &mut Sink::new(SharedError { talk }),
    )
}
