//! Requests that read and write files.

ghost use Rattle.std.specs.Prelude.{◌≡◌, ◌+◌, ◌*◌, ◌≤◌, Some};
ghost use Rattle.model.specs.declared.limits.TheConstants.{TRANSFER_BYTES};
ghost use Rattle.model.specs.declared.reply.Reply.{Reply};
ghost use Rattle.served.specs.Files as spec;
ghost use Rattle.served.specs.Known.{known_of};
ghost use Rattle.served.specs.Turns.{Came, asks};

use crate::answer::Answer;
use crate::asking::{ask_data, ask_done, ask_wrote};
use crate::commands::{get_within, pwrite};
use crate::keeping::{closed_once, is_held};
use crate::making::touch_directory;
use crate::marks::Asker;
use crate::memory::{Memory, Removed};
use crate::numbers::MOST_PARTS;
use file_system::{FileSystem, Handle, path_from};
use model::{Command, Errno, TRANSFER_BYTES, Text};
use std::alloc::Global;

/// Where bytes are read.
#[derive(Clone, Copy)]
pub(crate) enum Place<'a> {
    /// In an open file.
    Open(u32),
    /// In the file that a path leads to, in a snapshot.
    Within { name: &'a [u8], path: &'a [u8] },
}

/// Reads one part of a file, of which so many bytes are asked.
fn read_part<F: FileSystem>(
    files: &mut F,
    place: Place<'_>,
    offset: i64,
    count: u32,
) -> Result<Text, Errno>
    ensures { Came F.FileSystem files.old files.new
        (asks Reply.Data (spec.reading_of place.entry offset count)) result }
{
    match place {
        Place::Open(fd) => ask_data(files, Command::Pread { fd, offset, count }),
        Place::Within { name, path } => ask_data(files, get_within(name, path, offset, count)),
    }
}

/// The offset so many bytes behind another one, where a call can have it.
pub(crate) fn offset_behind(offset: u64, count: u64) -> Option<i64>
    ensures { spec.IsOffset (offset + count) result }
{
    let Some(at) = offset.checked_add(count) else {
        return None;
    };
    match i64::try_from(at) {
        Ok(at) => Some(at),
        Err(_) => None,
    }
}

/// Reads bytes in so many parts at the most, behind those that were read: as many as are asked and
/// there.
pub(crate) fn read<F: FileSystem>(
    files: &mut F,
    place: Place<'_>,
    offset: u64,
    count: u32,
    parts: u32,
    had: Vec<u8>,
) -> Answer
    ensures { Came F.FileSystem files.old files.new
        (spec.reads (spec.reading_of place.entry) offset count parts had.items) result }
{
    let left = (count as usize).saturating_sub(had.len());
    if parts == 0 || left == 0 {
        return Answer::Bytes(Text::new(had));
    }
    let Some(at) = offset_behind(offset, had.len() as u64) else {
        return Answer::Bytes(Text::new(had));
    };
    let asked = left.min(TRANSFER_BYTES);
    match read_part(files, place, at, asked as u32) {
        Ok(text) => {
            let part = text.as_bytes();
            let mut had = had;
            if had.extend_from_slice(part).is_err() {
                return Answer::Refused(Errno::ENOMEM);
            }
            if part.len() < asked {
                return Answer::Bytes(Text::new(had));
            }
            read(files, place, offset, count, parts - 1, had)
        }
        Err(errno) => read_before(had, errno),
    }
}

/// A part was refused: what was read before it is told, or the refusal where nothing was.
fn read_before(had: Vec<u8>, errno: Errno) -> Answer
    ensures { result ≡ spec.read_before had.items errno }
{
    if had.is_empty() {
        Answer::Refused(errno)
    } else {
        Answer::Bytes(Text::new(had))
    }
}

/// Reads bytes of a file in a snapshot.
pub(crate) fn read_within<F: FileSystem>(
    alloc: Global,
    files: &mut F,
    name: &[u8],
    number: u32,
    offset: u64,
    count: u32,
) -> Answer
    ensures { Came F.FileSystem files.old files.new
        (spec.read_within name.now number offset count) result }
{
    match path_from(alloc, number, b"") {
        Ok(path) => {
            let place = Place::Within { name, path: &path };
            read(files, place, offset, count, MOST_PARTS, Vec::new(alloc))
        }
        Err(_) => Answer::Refused(Errno::ENOMEM),
    }
}

/// Writes bytes in so many parts at the most, behind so many that were written: all, or those
/// before a part that is refused.
fn write_parts<F: FileSystem>(
    files: &mut F,
    fd: u32,
    offset: u64,
    bytes: &[u8],
    parts: u32,
    done: u32,
) -> Answer
    requires { done + parts * TRANSFER_BYTES ≤ 4294967295 }
    ensures { Came F.FileSystem files.old files.new
        (spec.writes fd offset bytes.now parts done) result }
{
    if parts == 0 || bytes.is_empty() {
        return Answer::Wrote(done);
    }
    let Some(at) = offset_behind(offset, u64::from(done)) else {
        return refused_behind(done, Errno::EFBIG);
    };
    let (part, rest) = bytes.split_at(TRANSFER_BYTES.min(bytes.len()));
    match ask_wrote(files, pwrite(fd, at, part)) {
        Ok(_) => write_parts(files, fd, offset, rest, parts - 1, done + part.len() as u32),
        Err(errno) => refused_behind(done, errno),
    }
}

/// A part was refused: what was written before it is told, or the refusal where nothing was.
fn refused_behind(done: u32, errno: Errno) -> Answer
    ensures { result ≡ spec.wrote_before done errno }
{
    if done == 0 {
        Answer::Refused(errno)
    } else {
        Answer::Wrote(done)
    }
}

/// The data of a file changed now. What has no name any more has its marks by itself.
fn mark_written(memory: &mut Memory, asker: Asker, node: u64, handle: Handle)
    ensures { known_of memory.new ≡ spec.with_written (known_of memory.old) asker node handle }
{
    match memory.removed(node) {
        Some(removed) => memory.change_removed(node, written_gone(&removed, asker)),
        None => touch_directory(memory, asker, handle),
    }
}

/// A removed file whose data changed now.
fn written_gone(removed: &Removed, asker: Asker) -> Removed
    ensures { result ≡ spec.written_gone removed.now asker }
{
    Removed {
        marks: removed.marks.written(asker.now),
        ..*removed
    }
}

/// Writes bytes to an open file.
pub(crate) fn write<F: FileSystem>(
    files: &mut F,
    memory: &mut Memory,
    asker: Asker,
    node: u64,
    handle: Handle,
    fd: u32,
    offset: u64,
    bytes: &[u8],
) -> Answer
    ensures { Came F.FileSystem files.old files.new
        (spec.write (known_of memory.old) asker node handle fd offset bytes.now)
        (result, known_of memory.new) }
{
    match write_parts(files, fd, offset, bytes, MOST_PARTS, 0) {
        Answer::Wrote(count) => {
            mark_written(memory, asker, node, handle);
            Answer::Wrote(count)
        }
        other => other,
    }
}

/// Closes an open file. What is kept of one that has no name any more stays open.
pub(crate) fn release<F: FileSystem>(
    files: &mut F,
    memory: &mut Memory,
    node: u64,
    fd: u32,
) -> Answer
    ensures { Came F.FileSystem files.old files.new
        (spec.release (known_of memory.old) node fd) (result, known_of memory.new) }
{
    match memory.removed(node) {
        Some(removed) => release_gone(files, memory, node, fd, &removed),
        None => close(files, fd),
    }
}

/// The same of a removed file.
fn release_gone<F: FileSystem>(
    files: &mut F,
    memory: &mut Memory,
    node: u64,
    fd: u32,
    removed: &Removed,
) -> Answer
    ensures { Came F.FileSystem files.old files.new
        (spec.release_gone (known_of memory.old) node fd (Some removed.now))
        (result, known_of memory.new) }
{
    if is_held(removed.held, fd) {
        memory.change_removed(node, closed_once(removed));
        Answer::Done
    } else {
        close(files, fd)
    }
}

/// Closes a descriptor.
fn close<F: FileSystem>(files: &mut F, fd: u32) -> Answer
    ensures { Came F.FileSystem files.old files.new (spec.closes fd) result }
{
    match ask_done(files, Command::Close { fd }) {
        Ok(()) => Answer::Done,
        Err(errno) => Answer::Refused(errno),
    }
}
