//! Requests that make objects and names.

ghost use Rattle.std.specs.Prelude.{◌≡◌, Some};
ghost use Rattle.served.specs.Known.{known_of};
ghost use Rattle.served.specs.Making as spec;
ghost use Rattle.served.specs.Setting.{Told};
ghost use Rattle.served.specs.Turns.{Came};

use crate::answer::Answer;
use crate::asking::{ask_descriptor, ask_done, ask_opened, ask_stat};
use crate::attributes::{attributes_of, entry_of, parts_of_size};
use crate::commands;
use crate::commands::{lstat, mkdir, open_stat, symlink};
use crate::keeping::opened_more;
use crate::looking::{is_stale, tell_entry};
use crate::marks::{Asker, Marks};
use crate::memory::{Memory, Removed};
use crate::node::node_of;
use crate::numbers::mode_of;
use crate::snapshots::is_snapshots;
use file_system::{FileSystem, Handle, path_from};
use fuse::{Entry, FOPEN_KEEP_CACHE, OpenReply};
use model::{Command, Errno, Mode, Stat};
use std::alloc::Global;

/// The bit of a directory's mode by which new objects in it get its group.
pub(crate) const SET_GROUP: u16 = 0o2000;

/// The bits of a kind in a mode, and those of a file.
pub(crate) const KIND_BITS: u32 = 0o170000;

pub(crate) const FILE_KIND: u32 = 0o100000;

/// `open` was asked to make a file, and nothing else.
pub(crate) const EXCLUSIVE: u32 = 0o200;

/// Where something is made, and for whom.
#[derive(Drop)]
struct New {
    parent: Handle,
    path: Vec<u8>,
    /// The group of what is made.
    gid: u32,
    /// Whether the directory's mode says so, which a new directory's mode then says too.
    inherits: bool,
}

/// Looks at the directory in which something is to be made, unless the folder of snapshots has the
/// name.
#[tactic(auto, unfolding(crate::specs::Making::prepare))]
fn prepare<F: FileSystem>(
    alloc: Global,
    files: &mut F,
    memory: &Memory,
    asker: Asker,
    parent: u32,
    name: &[u8],
) -> Result<New, Errno>
    ensures { Came F.FileSystem files.old files.new (spec.prepare (known_of memory.now) asker parent name.now) (spec.placed result) }
{
    if is_snapshots(parent, name) {
        return Err(Errno::EEXIST);
    }
    prepare_named(alloc, files, memory, asker, parent, name)
}

/// Looks at the directory in which something is to be made.
fn prepare_named<F: FileSystem>(
    alloc: Global,
    files: &mut F,
    memory: &Memory,
    asker: Asker,
    parent: u32,
    name: &[u8],
) -> Result<New, Errno>
    ensures { Came F.FileSystem files.old files.new (spec.prepare_named (known_of memory.now) asker parent name.now) (spec.placed result) }
{
    match path_from(alloc, parent, name) {
        Ok(path) => prepare_at(alloc, files, memory, asker, parent, path),
        Err(_) => Err(Errno::ENOMEM),
    }
}

/// The same where the path is known.
fn prepare_at<F: FileSystem>(
    alloc: Global,
    files: &mut F,
    memory: &Memory,
    asker: Asker,
    parent: u32,
    path: Vec<u8>,
) -> Result<New, Errno>
    ensures { Came F.FileSystem files.old files.new (spec.prepare_at (known_of memory.now) asker parent path.items) (spec.placed result) }
{
    let Ok(directory) = path_from(alloc, parent, b"") else {
        return Err(Errno::ENOMEM);
    };
    match ask_stat(files, lstat(&directory)) {
        Ok(stat) => {
            let parent = files.handle_of(parent);
            Ok(place_in(memory, asker, parent, path, stat.mode))
        }
        Err(errno) => Err(errno),
    }
}

/// The place for what has a path in a directory of this mode.
fn place_in(memory: &Memory, asker: Asker, parent: Handle, path: Vec<u8>, mode: Mode) -> New
    ensures { spec.place_of result ≡ spec.place_in (known_of memory.now) asker parent path.items mode }
{
    let inherits = mode.bits() & SET_GROUP != 0;
    let gid = if inherits {
        memory.marks_of(parent).gid
    } else {
        asker.gid
    };
    New {
        parent,
        path,
        gid,
        inherits,
    }
}

/// The names in a directory changed now.
pub(crate) fn touch_directory(memory: &mut Memory, asker: Asker, directory: Handle)
    ensures { known_of memory.new ≡ spec.touched (known_of memory.old) asker directory }
{
    memory.mark(directory, memory.marks_of(directory).written(asker.now));
}

/// What is told of an object changed now.
pub(crate) fn mark_changed(memory: &mut Memory, asker: Asker, handle: Handle)
    ensures { known_of memory.new ≡ spec.marked_changed (known_of memory.old) asker handle }
{
    memory.mark(handle, memory.marks_of(handle).changed(asker.now));
}

/// An object was made: its entry.
fn made<F: FileSystem>(
    files: &F,
    memory: &mut Memory,
    asker: Asker,
    new: &New,
    stat: &Stat,
) -> Entry
    ensures { Came F.FileSystem files.now files.now (spec.enters (known_of memory.old) asker (spec.place_of new.now) stat.now) (result, known_of memory.new) }
{
    let handle = files.handle_of(stat.number);
    let marks = Marks::made(asker.uid, new.gid, asker.now);
    memory.mark(handle, marks);
    touch_directory(memory, asker, new.parent);
    let parts = parts_of_size(stat.size);
    let told = attributes_of(u64::from(stat.number), stat, parts, marks);
    entry_of(node_of(handle), handle.generation, told)
}

/// Looks at what was made.
fn tell_made<F: FileSystem>(files: &mut F, memory: &mut Memory, asker: Asker, new: &New) -> Answer
    ensures { Came F.FileSystem files.old files.new (spec.tell_made (known_of memory.old) asker (spec.place_of new.now)) (result, known_of memory.new) }
{
    match ask_stat(files, lstat(&new.path)) {
        Ok(stat) => Answer::Entry(made(files, memory, asker, new, &stat)),
        Err(errno) => Answer::Refused(errno),
    }
}

/// Makes a directory.
pub(crate) fn make_directory<F: FileSystem>(
    alloc: Global,
    files: &mut F,
    memory: &mut Memory,
    asker: Asker,
    parent: u32,
    name: &[u8],
    mode: u32,
) -> Answer
    ensures { Came F.FileSystem files.old files.new (spec.make_directory (known_of memory.old) asker parent name.now mode) (result, known_of memory.new) }
{
    let new = match prepare(alloc, files, memory, asker, parent, name) {
        Ok(new) => new,
        Err(errno) => return Answer::Refused(errno),
    };
    let mode = directory_mode(mode, new.inherits);
    match ask_done(files, mkdir(&new.path, mode)) {
        Ok(()) => tell_made(files, memory, asker, &new),
        Err(errno) => Answer::Refused(errno),
    }
}

/// The mode of a new directory.
fn directory_mode(mode: u32, inherits: bool) -> Mode
    ensures { result ≡ spec.directory_mode mode inherits }
{
    let mode = mode_of(mode);
    if !inherits {
        return mode;
    }
    match Mode::new(mode.bits() | SET_GROUP) {
        Some(mode) => mode,
        None => mode,
    }
}

/// Makes a symbolic link.
pub(crate) fn make_link<F: FileSystem>(
    alloc: Global,
    files: &mut F,
    memory: &mut Memory,
    asker: Asker,
    parent: u32,
    name: &[u8],
    text: &[u8],
) -> Answer
    ensures { Came F.FileSystem files.old files.new (spec.make_link (known_of memory.old) asker parent name.now text.now) (result, known_of memory.new) }
{
    let new = match prepare(alloc, files, memory, asker, parent, name) {
        Ok(new) => new,
        Err(errno) => return Answer::Refused(errno),
    };
    match ask_done(files, symlink(text, &new.path)) {
        Ok(()) => tell_made(files, memory, asker, &new),
        Err(errno) => Answer::Refused(errno),
    }
}

/// Makes a file, and opens it.
pub(crate) fn create<F: FileSystem>(
    alloc: Global,
    files: &mut F,
    memory: &mut Memory,
    asker: Asker,
    parent: u32,
    name: &[u8],
    mode: u32,
    flags: u32,
) -> Answer
    ensures { Came F.FileSystem files.old files.new (spec.create (known_of memory.old) asker parent name.now mode flags) (result, known_of memory.new) }
{
    let new = match prepare(alloc, files, memory, asker, parent, name) {
        Ok(new) => new,
        Err(errno) => return Answer::Refused(errno),
    };
    match ask_opened(
        files,
        open_stat(&new.path, flags & EXCLUSIVE != 0, mode_of(mode)),
    ) {
        Ok((fd, stat)) => {
            let entry = made(files, memory, asker, &new, &stat);
            Answer::Created(entry, opened(fd))
        }
        Err(errno) => Answer::Refused(errno),
    }
}

/// The reply for a descriptor: what the kernel has of the file's bytes holds on.
pub(crate) fn opened(fd: u32) -> OpenReply
    ensures { result ≡ spec.opened fd }
{
    OpenReply {
        handle: u64::from(fd),
        flags: FOPEN_KEEP_CACHE,
    }
}

/// Makes a file. What is neither a file nor a directory nor a link can't be made.
pub(crate) fn make_node<F: FileSystem>(
    alloc: Global,
    files: &mut F,
    memory: &mut Memory,
    asker: Asker,
    parent: u32,
    name: &[u8],
    mode: u32,
) -> Answer
    ensures { Came F.FileSystem files.old files.new (spec.make_node (known_of memory.old) asker parent name.now mode) (result, known_of memory.new) }
{
    if mode & KIND_BITS != FILE_KIND {
        return Answer::Refused(Errno::EPERM);
    }
    let new = match prepare(alloc, files, memory, asker, parent, name) {
        Ok(new) => new,
        Err(errno) => return Answer::Refused(errno),
    };
    match ask_opened(files, open_stat(&new.path, true, mode_of(mode))) {
        Ok((fd, stat)) => {
            let entry = made(files, memory, asker, &new, &stat);
            match ask_done(files, Command::Close { fd }) {
                Ok(()) => Answer::Entry(entry),
                Err(errno) => Answer::Refused(errno),
            }
        }
        Err(errno) => Answer::Refused(errno),
    }
}

/// Gives a file one more name, unless the folder of snapshots has it.
pub(crate) fn link<F: FileSystem>(
    alloc: Global,
    files: &mut F,
    memory: &mut Memory,
    asker: Asker,
    file: Handle,
    parent: u32,
    name: &[u8],
) -> Answer
    ensures { Came F.FileSystem files.old files.new (spec.link (known_of memory.old) asker file parent name.now) (result, known_of memory.new) }
{
    if is_snapshots(parent, name) {
        return Answer::Refused(Errno::EEXIST);
    }
    link_named(alloc, files, memory, asker, file, parent, name)
}

/// Gives a file one more name.
fn link_named<F: FileSystem>(
    alloc: Global,
    files: &mut F,
    memory: &mut Memory,
    asker: Asker,
    file: Handle,
    parent: u32,
    name: &[u8],
) -> Answer
    ensures { Came F.FileSystem files.old files.new (spec.link_named (known_of memory.old) asker file parent name.now) (result, known_of memory.new) }
{
    match path_from(alloc, parent, name) {
        Ok(path) => link_at(alloc, files, memory, asker, file, parent, &path),
        Err(_) => Answer::Refused(Errno::ENOMEM),
    }
}

/// The same where the path is known.
fn link_at<F: FileSystem>(
    alloc: Global,
    files: &mut F,
    memory: &mut Memory,
    asker: Asker,
    file: Handle,
    parent: u32,
    path: &[u8],
) -> Answer
    ensures { Came F.FileSystem files.old files.new (spec.link_at (known_of memory.old) asker file parent path.now) (result, known_of memory.new) }
{
    let Ok(old) = path_from(alloc, file.number, b"") else {
        return Answer::Refused(Errno::ENOMEM);
    };
    match ask_done(files, commands::link(&old, path)) {
        Ok(()) => tell_linked(files, memory, asker, file, parent, &old),
        Err(errno) => Answer::Refused(errno),
    }
}

/// A file got one more name: it is looked at.
fn tell_linked<F: FileSystem>(
    files: &mut F,
    memory: &mut Memory,
    asker: Asker,
    file: Handle,
    parent: u32,
    old: &[u8],
) -> Answer
    ensures { Came F.FileSystem files.old files.new (spec.tell_linked (known_of memory.old) asker file parent old.now) (result, known_of memory.new) }
{
    mark_changed(memory, asker, file);
    let directory = files.handle_of(parent);
    touch_directory(memory, asker, directory);
    match ask_stat(files, lstat(old)) {
        Ok(stat) => tell_entry(files, memory, old, &stat),
        Err(errno) => Answer::Refused(errno),
    }
}

/// Opens a file.
pub(crate) fn open<F: FileSystem>(
    alloc: Global,
    files: &mut F,
    memory: &mut Memory,
    node: u64,
    number: u32,
) -> Answer
    ensures { Came F.FileSystem files.old files.new (spec.open_file (known_of memory.old) node number) (result, known_of memory.new) }
{
    let Ok(path) = path_from(alloc, number, b"") else {
        return Answer::Refused(Errno::ENOMEM);
    };
    match ask_descriptor(files, commands::open(&path, mode_of(0))) {
        Ok(fd) => Answer::Opened(opened(fd)),
        Err(errno) if is_stale(errno) => open_removed(memory, node),
        Err(errno) => Answer::Refused(errno),
    }
}

/// Opens a file that has no name any more, by what is kept of it.
fn open_removed(memory: &mut Memory, node: u64) -> Answer
    ensures { (let told : Told = (result, known_of memory.new) in told) ≡ spec.open_removed (known_of memory.old) node }
{
    match memory.removed(node) {
        Some(removed) => open_gone(memory, node, &removed),
        None => Answer::Refused(Errno::ESTALE),
    }
}

/// The same of a removed file.
fn open_gone(memory: &mut Memory, node: u64, removed: &Removed) -> Answer
    ensures { (let told : Told = (result, known_of memory.new) in told) ≡ spec.open_gone (known_of memory.old) node (Some removed.now) }
{
    match removed.held {
        Some(fd) => {
            memory.change_removed(node, opened_more(removed));
            Answer::Opened(opened(fd))
        }
        None => Answer::Refused(Errno::ESTALE),
    }
}
