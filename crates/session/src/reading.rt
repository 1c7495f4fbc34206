//! Lines of input, read one by one in bounded memory.

ghost use Rattle.std.specs.Prelude.{◌≡◌, ◌≢◌, ◌+◌, ◌<◌, ◌≤◌, ◌∷◌, ◌++◌, [], List, ℕ, Bool, true, false, IfOk, IfErr, IfSome, IsErrOf, IsNone, IsTrue, OnOk, MatchOption, drop, length, take};
ghost use Rattle.std.specs.Io.KnownBytes.{prepend_known, Keeps, IsAtEnd};
ghost use Rattle.session.specs.Reading.{EndsReading, IsHeardAs, IsPlain, IsInputFault, TakesLine};

use crate::lines::is_skipped;
use crate::streams::Closed;
use crate::{Source, Status};
use memchr::memchr;
use std::io::Read;
use std::mem;

/// The bytes of the longest line that is read as a command, without its end: a `pwrite` of 65,536
/// bytes has 131,072 digits.
pub const LINE_BYTES: usize = 135_168;

/// How many bytes one read asks for.
const CHUNK_BYTES: usize = 8_192;

/// A line of input, without its end.
#[derive(Drop)]
pub(crate) enum Heard {
    Line(Vec<u8>),
    /// One of more than `LINE_BYTES` bytes, and whether it is a comment.
    TooLong(bool),
}

/// The next line of what is pending and of what a reader gives behind that; None at the end. An
/// empty line behind the last line's end is none.
pub(crate) fn next_line<R: Read>(
    input: &mut Source<R>,
    pending: &mut Vec<u8>,
) -> Result<Option<Heard>, Status>
    ensures line { EndsReading (prepend_known pending.old.items (R.remaining input.old.inner))
        (prepend_known pending.new.items (R.remaining input.new.inner)) result }
    ensures failed { IsErrOf result Status.FileFault → IsTrue input.new.has_failed }
{
    // No line ends in so many of the pending bytes: they were looked through before.
    let mut plain = 0;
    for _ in 0..u64::MAX {
        if let Some(end) = line_end_from(pending, plain) {
            return match take_line(pending, end) {
                Ok(line) => Ok(Some(read_as(line))),
                Err(status) => Err(status),
            };
        }
        if pending.len() > LINE_BYTES {
            return match skip_line(input, pending) {
                Ok(heard) => Ok(Some(heard)),
                Err(status) => Err(status),
            };
        }
        plain = pending.len();
        match read_more(input, pending) {
            Ok(true) => continue,
            Ok(false) => return Ok(take_rest(pending)),
            Err(status) => return Err(status),
        }
    }
    // The counter came to its end, which is a want of room like that of memory.
    Err(Status::NoMemory)
}

/// What a whole line is read as.
fn read_as(line: Vec<u8>) -> Heard
    ensures { IsHeardAs line.items result }
{
    if line.len() > LINE_BYTES {
        return Heard::TooLong(is_skipped(&line));
    }
    Heard::Line(line)
}

/// Whether a whole line is pending.
pub(crate) fn has_line(pending: &[u8]) -> bool {
    line_end(pending).is_some()
}

/// Where the first line ends.
fn line_end(bytes: &[u8]) -> Option<usize>
    ensures found { IfSome result (λ end. (end < length bytes.now) × IsPlain (take end bytes.now)
        × (drop end bytes.now ≡ 10 ∷ drop (end + 1) bytes.now)) }
    ensures none { IsNone result → IsPlain bytes.now }
{
    memchr(b'\n', bytes)
}

/// Where the first line ends, which doesn't in the first bytes.
fn line_end_from(bytes: &[u8], plain: usize) -> Option<usize>
    requires within { plain ≤ length bytes.now }
    requires plain { IsPlain (take plain bytes.now) }
    ensures found { IfSome result (λ end. (end < length bytes.now) × IsPlain (take end bytes.now)
        × (drop end bytes.now ≡ 10 ∷ drop (end + 1) bytes.now)) }
    ensures none { IsNone result → IsPlain bytes.now }
{
    match line_end(&bytes[plain..]) {
        Some(end) => Some(plain + end),
        None => None,
    }
}

/// Takes the line that ends here, and its end.
fn take_line(pending: &mut Vec<u8>, end: usize) -> Result<Vec<u8>, Status>
    requires { end < length pending.old.items }
    ensures line { IfOk result (λ line. line.items ≡ take end pending.old.items) }
    ensures rest { OnOk result (pending.new.items ≡ drop (end + 1) pending.old.items) }
    ensures memory { IfErr result (λ status. status ≡ Status.NoMemory) }
{
    let Ok(rest) = pending.split_off(end + 1) else {
        return Err(Status::NoMemory);
    };
    let mut line = mem::replace(pending, rest);
    line.truncate(end);
    Ok(line)
}

/// Takes what is left at the end of the input: the last line, where it has no end.
fn take_rest(pending: &mut Vec<u8>) -> Option<Heard>
    ensures rest { MatchOption result (pending.old.items ≡ [])
        (λ heard. (pending.old.items ≢ []) × IsHeardAs pending.old.items heard) }
    ensures emptied { pending.new.items ≡ [] }
{
    let alloc = *pending.allocator();
    let rest = mem::replace(pending, Vec::new(alloc));
    if rest.is_empty() {
        return None;
    }
    Some(read_as(rest))
}

/// Reads the rest of a line that is too long, and keeps none of it.
fn skip_line<R: Read>(input: &mut Source<R>, pending: &mut Vec<u8>) -> Result<Heard, Status>
    requires long { LINE_BYTES < length pending.old.items }
    requires plain { IsPlain pending.old.items }
    ensures line { IfOk result (λ heard. (line : List ℕ) × TakesLine
        (prepend_known pending.old.items (R.remaining input.old.inner))
        (prepend_known pending.new.items (R.remaining input.new.inner)) line × IsHeardAs line heard) }
    ensures fault { IfErr result IsInputFault }
    ensures failed { IsErrOf result Status.FileFault → IsTrue input.new.has_failed }
{
    let is_comment = is_skipped(pending);
    for _ in 0..u64::MAX {
        pending.clear();
        match read_more(input, pending) {
            Ok(true) => {}
            Ok(false) => return Ok(Heard::TooLong(is_comment)),
            Err(status) => return Err(status),
        }
        if let Some(end) = line_end(pending) {
            let Ok(_) = take_line(pending, end) else {
                return Err(Status::NoMemory);
            };
            return Ok(Heard::TooLong(is_comment));
        }
    }
    // The counter came to its end, which is a want of room like that of memory.
    Err(Status::NoMemory)
}

/// Reads some more bytes behind those that are pending. Whether there were any.
fn read_more<R: Read>(input: &mut Source<R>, pending: &mut Vec<u8>) -> Result<bool, Status>
    ensures kept { OnOk result (Keeps (prepend_known pending.old.items (R.remaining input.old.inner))
        (prepend_known pending.new.items (R.remaining input.new.inner))) }
    ensures more { OnOk result ((bytes : List ℕ) × (pending.new.items ≡ pending.old.items ++ bytes)) }
    ensures end { IfOk result (λ more. more ≡ false
        → (pending.new.items ≡ pending.old.items) × IsAtEnd (R.remaining input.new.inner)) }
    ensures fault { IfErr result IsInputFault }
    ensures failed { IsErrOf result Status.FileFault → IsTrue input.new.has_failed }
{
    let mut chunk = [0_u8; CHUNK_BYTES];
    match input.read(&mut chunk) {
        Ok(0) => Ok(false),
        Ok(count) => match pending.extend_from_slice(&chunk[..count]) {
            Ok(()) => Ok(true),
            Err(_) => Err(Status::NoMemory),
        },
        Err(Closed) => Err(Status::FileFault),
    }
}
