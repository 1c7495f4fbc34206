//! Requests that set attributes.

ghost use Rattle.std.specs.Prelude.{◌≡◌, ◌||◌, is_some, Some};
ghost use Rattle.served.specs.Known.{known_of};
ghost use Rattle.served.specs.Setting as spec;
ghost use Rattle.served.specs.Turns.{Came};

use crate::answer::Answer;
use crate::asking::ask_done;
use crate::commands::set;
use crate::looking::{is_stale, tell_attributes, tell_removed};
use crate::marks::Asker;
use crate::memory::{Memory, Removed};
use crate::numbers::mode_of;
use file_system::{FileSystem, Handle, path_from};
use fuse::AttributeChanges;
use model::{Command, Errno, Settings, Stat};
use std::alloc::Global;

/// Mode and size, as far as they are to be set. EFBIG for a size that no file has.
fn settings_of(changes: &AttributeChanges) -> Result<Settings, Errno>
    ensures { result ≡ spec.settings_of changes.now }
{
    let size = match changes.size {
        None => None,
        Some(size) => match i64::try_from(size) {
            Ok(size) => Some(size),
            Err(_) => return Err(Errno::EFBIG),
        },
    };
    let mode = match changes.mode {
        None => None,
        Some(mode) => Some(mode_of(mode)),
    };
    Ok(Settings { mode, size })
}

/// Sets attributes, mode and size by one command, and tells them.
#[tactic(none)]
pub(crate) fn set_attributes<F: FileSystem>(
    alloc: Global,
    files: &mut F,
    memory: &mut Memory,
    asker: Asker,
    node: u64,
    handle: Handle,
    changes: &AttributeChanges,
) -> Answer
    ensures { Came F.FileSystem files.old files.new (spec.set_attributes (known_of memory.old) asker node handle changes.now) (result, known_of memory.new) }
{
    let settings = match settings_of(changes) {
        Ok(settings) => settings,
        Err(errno) => return Answer::Refused(errno),
    };
    match path_from(alloc, handle.number, b"") {
        Ok(path) => set_by_path(
            alloc, files, memory, asker, node, handle, changes, settings, &path,
        ),
        Err(_) => Answer::Refused(Errno::ENOMEM),
    }
}

/// Whether mode or size is to be set.
fn sets(settings: &Settings) -> bool
    ensures { result ≡ (is_some settings.now.mode || is_some settings.now.size) }
{
    settings.mode.is_some() || settings.size.is_some()
}

/// Sets mode and size by one command, where one of them is to be set, and then what the server
/// keeps; the path leads to the object.
#[tactic(none)]
fn set_by_path<F: FileSystem>(
    alloc: Global,
    files: &mut F,
    memory: &mut Memory,
    asker: Asker,
    node: u64,
    handle: Handle,
    changes: &AttributeChanges,
    settings: Settings,
    path: &[u8],
) -> Answer
    ensures { Came F.FileSystem files.old files.new (spec.set_by_path (known_of memory.old) asker node handle changes.now settings path.now) (result, known_of memory.new) }
{
    if !sets(&settings) {
        return set_marks(alloc, files, memory, asker, node, handle, changes);
    }
    match ask_done(files, set(path, settings)) {
        Ok(()) => mark_set(alloc, files, memory, asker, node, handle, changes),
        Err(errno) if is_stale(errno) => set_removed(files, memory, asker, node, changes),
        Err(errno) => Answer::Refused(errno),
    }
}

/// Sets the marks of an object, and tells its attributes. What has no name any more is set apart.
fn set_marks<F: FileSystem>(
    alloc: Global,
    files: &mut F,
    memory: &mut Memory,
    asker: Asker,
    node: u64,
    handle: Handle,
    changes: &AttributeChanges,
) -> Answer
    ensures { Came F.FileSystem files.old files.new (spec.set_marks (known_of memory.old) asker node handle changes.now) (result, known_of memory.new) }
{
    match memory.removed(node) {
        Some(_) => set_removed(files, memory, asker, node, changes),
        None => mark_set(alloc, files, memory, asker, node, handle, changes),
    }
}

/// Sets the marks of an object that has a name, and tells its attributes.
#[tactic(none)]
fn mark_set<F: FileSystem>(
    alloc: Global,
    files: &mut F,
    memory: &mut Memory,
    asker: Asker,
    node: u64,
    handle: Handle,
    changes: &AttributeChanges,
) -> Answer
    ensures { Came F.FileSystem files.old files.new (spec.mark_set (known_of memory.old) asker node handle changes.now) (result, known_of memory.new) }
{
    let marks = memory.marks_of(handle).set(changes, asker.now);
    memory.mark(handle, marks);
    tell_attributes(alloc, files, memory, node, handle)
}

/// Sets attributes of what has no name any more.
pub(crate) fn set_removed<F: FileSystem>(
    files: &mut F,
    memory: &mut Memory,
    asker: Asker,
    node: u64,
    changes: &AttributeChanges,
) -> Answer
    ensures { Came F.FileSystem files.old files.new (spec.set_removed (known_of memory.old) asker node changes.now) (result, known_of memory.new) }
{
    let settings = match settings_of(changes) {
        Ok(settings) => settings,
        Err(errno) => return Answer::Refused(errno),
    };
    match memory.removed(node) {
        Some(removed) => set_gone(files, memory, asker, node, changes, settings, &removed),
        None => Answer::Refused(Errno::ESTALE),
    }
}

/// Sets attributes of a removed object.
#[tactic(none)]
fn set_gone<F: FileSystem>(
    files: &mut F,
    memory: &mut Memory,
    asker: Asker,
    node: u64,
    changes: &AttributeChanges,
    settings: Settings,
    removed: &Removed,
) -> Answer
    ensures { Came F.FileSystem files.old files.new (spec.set_gone (known_of memory.old) asker node changes.now settings (Some removed.now)) (result, known_of memory.new) }
{
    match cut_removed(files, removed.held, settings.size) {
        Ok(()) => keep_removed(
            files,
            memory,
            node,
            removed_set(removed, changes, settings, asker),
        ),
        Err(errno) => Answer::Refused(errno),
    }
}

/// Sets the size of a removed object, where one is to be set.
fn cut_removed<F: FileSystem>(
    files: &mut F,
    held: Option<u32>,
    size: Option<i64>,
) -> Result<(), Errno>
    ensures { Came F.FileSystem files.old files.new (spec.cut_removed held size) result }
{
    match size {
        Some(size) => cut_open(files, held, size),
        None => Ok(()),
    }
}

/// Sets the size of a file by a descriptor, if one is open.
fn cut_open<F: FileSystem>(files: &mut F, fd: Option<u32>, size: i64) -> Result<(), Errno>
    ensures { Came F.FileSystem files.old files.new (spec.cut_open fd size) result }
{
    match fd {
        Some(fd) => ask_done(files, Command::Ftruncate { fd, size }),
        None => Err(Errno::ESTALE),
    }
}

/// A removed object behind what is set.
fn removed_set(
    removed: &Removed,
    changes: &AttributeChanges,
    settings: Settings,
    asker: Asker,
) -> Removed
    ensures { result ≡ spec.removed_set removed.now changes.now settings asker }
{
    Removed {
        stat: Stat {
            mode: settings.mode.unwrap_or(removed.stat.mode),
            ..removed.stat
        },
        marks: removed.marks.set(changes, asker.now),
        ..*removed
    }
}

/// Keeps what a removed object is now, and tells its attributes.
fn keep_removed<F: FileSystem>(
    files: &mut F,
    memory: &mut Memory,
    node: u64,
    removed: Removed,
) -> Answer
    ensures { Came F.FileSystem files.old files.new (spec.keep_removed (known_of memory.old) node removed) (result, known_of memory.new) }
{
    memory.change_removed(node, removed);
    tell_removed(files, memory, node)
}
