//! Requests that look at the running tree.

ghost use Rattle.std.specs.Prelude.{◌≡◌, Some};
ghost use Rattle.served.specs.Known.{known_of};
ghost use Rattle.served.specs.Looking as spec;
ghost use Rattle.served.specs.Turns.{Came};

use crate::answer::Answer;
use crate::asking::{ask_done, ask_extent, ask_stat, ask_text, ask_usage};
use crate::attributes::{attributes_of, entry_of, is_file, parts_of_size};
use crate::commands::{extent, lstat, readlink};
use crate::keeping::removed_size;
use crate::memory::{Memory, Removed};
use crate::node::node_of;
use crate::numbers::{BLOCK_BYTES, PARTS_OF_BLOCK};
use file_system::{FileSystem, Handle, path_from};
use fuse::StatfsReply;
use model::{Command, Errno, Extent, NAME_BYTES, Stat, Text};
use std::alloc::Global;

/// How much of an object is stored, in parts of 512 bytes; the path leads to it.
pub(crate) fn stored_parts<F: FileSystem>(files: &mut F, path: &[u8], stat: &Stat) -> u64
    ensures { Came F.FileSystem files.old files.new (spec.stored_parts path.now stat.now) result }
{
    if !is_file(stat.kind) || stat.size == 0 {
        return parts_of_size(stat.size);
    }
    match ask_extent(files, extent(path, 0)) {
        Ok(extent) => u64::from(extent.blocks) * PARTS_OF_BLOCK,
        Err(_) => parts_of_size(stat.size),
    }
}

/// The entry of an object to which the path leads.
pub(crate) fn tell_entry<F: FileSystem>(
    files: &mut F,
    memory: &Memory,
    path: &[u8],
    stat: &Stat,
) -> Answer
    ensures { Came F.FileSystem files.old files.new (spec.tell_entry (known_of memory.now) path.now stat.now) result }
{
    let parts = stored_parts(files, path, stat);
    let handle = files.handle_of(stat.number);
    let inode = u64::from(stat.number);
    let told = attributes_of(inode, stat, parts, memory.marks_of(handle));
    Answer::Entry(entry_of(node_of(handle), handle.generation, told))
}

/// What has a name in the directory of a number.
#[tactic(none)]
pub(crate) fn look_up<F: FileSystem>(
    alloc: Global,
    files: &mut F,
    memory: &Memory,
    parent: u32,
    name: &[u8],
) -> Answer
    ensures { Came F.FileSystem files.old files.new (spec.look_up (known_of memory.now) parent name.now) result }
{
    let Ok(path) = path_from(alloc, parent, name) else {
        return Answer::Refused(Errno::ENOMEM);
    };
    match ask_stat(files, lstat(&path)) {
        Ok(stat) => tell_number(alloc, files, memory, &stat),
        Err(errno) => missing(errno),
    }
}

/// What is answered where a name is looked for and the look is refused.
pub(crate) fn missing(errno: Errno) -> Answer
    ensures { result ≡ spec.missing errno }
{
    match errno {
        Errno::ENOENT => Answer::NoEntry,
        _ => Answer::Refused(errno),
    }
}

/// Whether it says that a number leads to nothing.
pub(crate) fn is_stale(errno: Errno) -> bool
    ensures { result ≡ spec.is_stale errno }
{
    matches!(errno, Errno::ESTALE)
}

/// The entry of an object, by its number.
#[tactic(none)]
fn tell_number<F: FileSystem>(alloc: Global, files: &mut F, memory: &Memory, stat: &Stat) -> Answer
    ensures { Came F.FileSystem files.old files.new (spec.tell_number (known_of memory.now) stat.now) result }
{
    match path_from(alloc, stat.number, b"") {
        Ok(path) => tell_entry(files, memory, &path, stat),
        Err(_) => Answer::Refused(Errno::ENOMEM),
    }
}

/// The attributes of an object.
#[tactic(none)]
pub(crate) fn tell_attributes<F: FileSystem>(
    alloc: Global,
    files: &mut F,
    memory: &Memory,
    node: u64,
    handle: Handle,
) -> Answer
    ensures { Came F.FileSystem files.old files.new (spec.tell_attributes (known_of memory.now) node handle) result }
{
    let Ok(path) = path_from(alloc, handle.number, b"") else {
        return Answer::Refused(Errno::ENOMEM);
    };
    match ask_stat(files, lstat(&path)) {
        Ok(stat) => {
            let parts = stored_parts(files, &path, &stat);
            let inode = u64::from(stat.number);
            Answer::Attributes(attributes_of(inode, &stat, parts, memory.marks_of(handle)))
        }
        Err(errno) if is_stale(errno) => tell_removed(files, memory, node),
        Err(errno) => Answer::Refused(errno),
    }
}

/// The attributes of what has no name any more, if the kernel still knows it: what it was, and the
/// size that it has.
pub(crate) fn tell_removed<F: FileSystem>(files: &mut F, memory: &Memory, node: u64) -> Answer
    ensures { Came F.FileSystem files.old files.new (spec.tell_removed (known_of memory.now) node) result }
{
    match memory.removed(node) {
        Some(removed) => tell_gone(files, &removed),
        None => Answer::Refused(Errno::ESTALE),
    }
}

/// The attributes of a removed object.
fn tell_gone<F: FileSystem>(files: &mut F, removed: &Removed) -> Answer
    ensures { Came F.FileSystem files.old files.new (spec.tell_gone (Some removed.now)) result }
{
    match removed_size(files, removed) {
        Ok(size) => removed_told(removed, size),
        Err(errno) => Answer::Refused(errno),
    }
}

/// What is told of an object that has no name any more, of this size.
fn removed_told(removed: &Removed, size: u64) -> Answer
    ensures { result ≡ spec.removed_told removed.now size }
{
    let stat = Stat {
        size,
        ..removed.stat
    };
    let inode = u64::from(stat.number);
    let parts = parts_of_size(size);
    Answer::Attributes(attributes_of(inode, &stat, parts, removed.marks))
}

/// The text of a link.
pub(crate) fn read_link<F: FileSystem>(
    alloc: Global,
    files: &mut F,
    memory: &Memory,
    node: u64,
    number: u32,
) -> Answer
    ensures { Came F.FileSystem files.old files.new (spec.read_link (known_of memory.now) node number) result }
{
    let Ok(path) = path_from(alloc, number, b"") else {
        return Answer::Refused(Errno::ENOMEM);
    };
    match ask_text(files, readlink(&path)) {
        Ok(text) => Answer::Bytes(text),
        Err(errno) if is_stale(errno) => read_removed(alloc, memory, node),
        Err(errno) => Answer::Refused(errno),
    }
}

/// The text of a link that has no name any more.
pub(crate) fn read_removed(alloc: Global, memory: &Memory, node: u64) -> Answer
    ensures { spec.ReadsRemoved (known_of memory.now) node result }
{
    let Some(text) = memory.text(node) else {
        return Answer::Refused(Errno::ESTALE);
    };
    let mut bytes = Vec::new(alloc);
    match bytes.extend_from_slice(text.as_bytes()) {
        Ok(()) => Answer::Bytes(Text::new(bytes)),
        Err(_) => Answer::Refused(Errno::ENOMEM),
    }
}

/// The places of `lseek` that ask for data and for a hole.
pub(crate) const SEEK_DATA: u32 = 3;

pub(crate) const SEEK_HOLE: u32 = 4;

/// Where data or a hole begins in a file.
pub(crate) fn seek<F: FileSystem>(
    alloc: Global,
    files: &mut F,
    memory: &Memory,
    node: u64,
    number: u32,
    offset: u64,
    whence: u32,
) -> Answer
    ensures { Came F.FileSystem files.old files.new (spec.seek (known_of memory.now) node number offset whence) result }
{
    let Ok(at) = i64::try_from(offset) else {
        return Answer::NothingBehind;
    };
    let Ok(path) = path_from(alloc, number, b"") else {
        return Answer::Refused(Errno::ENOMEM);
    };
    match ask_extent(files, extent(&path, at)) {
        Ok(extent) => found(&extent, whence),
        Err(errno) if is_stale(errno) => seek_removed(files, memory, node, offset, whence),
        Err(errno) => Answer::Refused(errno),
    }
}

/// The same in a file that has no name any more.
fn seek_removed<F: FileSystem>(
    files: &mut F,
    memory: &Memory,
    node: u64,
    offset: u64,
    whence: u32,
) -> Answer
    ensures { Came F.FileSystem files.old files.new (spec.seek_removed (known_of memory.now) node offset whence) result }
{
    match memory.removed(node) {
        Some(removed) => seek_gone(files, &removed, offset, whence),
        None => Answer::Refused(Errno::ESTALE),
    }
}

/// The same in a removed file.
fn seek_gone<F: FileSystem>(files: &mut F, removed: &Removed, offset: u64, whence: u32) -> Answer
    ensures { Came F.FileSystem files.old files.new (spec.seek_gone offset whence (Some removed.now)) result }
{
    match removed_size(files, removed) {
        Ok(size) => found(&all_data(offset, size), whence),
        Err(errno) => Answer::Refused(errno),
    }
}

/// What is told of a file of this size from an offset on, where all of it counts as data.
fn all_data(offset: u64, size: u64) -> Extent
    ensures { result ≡ spec.all_data offset size }
{
    if offset < size {
        Extent {
            blocks: 0,
            data: Some(offset),
            hole: Some(size),
        }
    } else {
        Extent {
            blocks: 0,
            data: None,
            hole: None,
        }
    }
}

/// The place that a seek asks for.
fn found(extent: &Extent, whence: u32) -> Answer
    ensures { result ≡ spec.found extent.now whence }
{
    let place = match whence {
        SEEK_DATA => extent.data,
        SEEK_HOLE => extent.hole,
        _ => return Answer::Refused(Errno::EINVAL),
    };
    match place {
        Some(place) => Answer::Offset(place),
        None => Answer::NothingBehind,
    }
}

/// Sizes and counts of the whole file system. What was deleted counts as free behind a consistency
/// point, so one is made first; where it is refused, the counts are those before it.
#[tactic(none)]
pub(crate) fn tell_space<F: FileSystem>(files: &mut F) -> Answer
    ensures { Came F.FileSystem files.old files.new (spec.tell_space) result }
{
    let _ = ask_done(files, Command::Sync);
    match ask_usage(files, Command::Statfs) {
        Ok(usage) => {
            let free = u64::from(usage.free);
            let available = free.saturating_sub(usage.reserved);
            Answer::Space(StatfsReply {
                blocks: u64::from(usage.blocks),
                free_blocks: available,
                available_blocks: available,
                files: u64::from(usage.inodes),
                free_files: u64::from(usage.inodes.saturating_sub(usage.taken)),
                block_size: BLOCK_BYTES as u32,
                name_bytes: NAME_BYTES as u32,
                fragment_size: BLOCK_BYTES as u32,
            })
        }
        Err(errno) => Answer::Refused(errno),
    }
}
