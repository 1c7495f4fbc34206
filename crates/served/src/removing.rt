//! Requests that take names away or move them.

ghost use Rattle.std.specs.Prelude.{◌≡◌};
ghost use Rattle.model.specs.declared.reply.Reply.{Reply};
ghost use Rattle.served.specs.Commands.{lstat};
ghost use Rattle.served.specs.Known.{known_of};
ghost use Rattle.served.specs.Removing as spec;
ghost use Rattle.served.specs.Turns.{Came, asks};

use crate::answer::Answer;
use crate::asking::{ask_done, ask_stat};
use crate::attributes::is_file;
use crate::commands::{lstat, moving, removing};
use crate::keeping::{give_up, remember};
use crate::making::{mark_changed, touch_directory};
use crate::marks::Asker;
use crate::memory::Memory;
use crate::snapshots::is_snapshots;
use file_system::{FileSystem, Handle, path_from};
use model::{Errno, Stat};
use std::alloc::Global;

/// Looks at what has a path.
fn look_at<F: FileSystem>(files: &mut F, path: &[u8]) -> Result<Stat, Errno>
    ensures { Came F.FileSystem files.old files.new (asks Reply.Stat (lstat path.now)) result }
{
    ask_stat(files, lstat(path))
}

/// Whether an object goes with one of its names.
fn goes_with_name(stat: &Stat) -> bool
    ensures { result ≡ spec.goes_with_name stat.now }
{
    !is_file(stat.kind) || stat.links <= 1
}

/// Takes a name away, of a directory or of something else. The folder of snapshots stays.
pub(crate) fn remove<F: FileSystem>(
    alloc: Global,
    files: &mut F,
    memory: &mut Memory,
    asker: Asker,
    parent: u32,
    name: &[u8],
    is_directory: bool,
) -> Answer
    ensures { Came F.FileSystem files.old files.new (spec.remove (known_of memory.old) asker parent name.now is_directory) (result, known_of memory.new) }
{
    if is_snapshots(parent, name) {
        return Answer::Refused(Errno::EBUSY);
    }
    remove_named(alloc, files, memory, asker, parent, name, is_directory)
}

/// Takes a name away.
fn remove_named<F: FileSystem>(
    alloc: Global,
    files: &mut F,
    memory: &mut Memory,
    asker: Asker,
    parent: u32,
    name: &[u8],
    is_directory: bool,
) -> Answer
    ensures { Came F.FileSystem files.old files.new (spec.remove_named (known_of memory.old) asker parent name.now is_directory) (result, known_of memory.new) }
{
    let Ok(path) = path_from(alloc, parent, name) else {
        return Answer::Refused(Errno::ENOMEM);
    };
    match look_at(files, &path) {
        Ok(stat) => remove_seen(files, memory, asker, parent, &path, is_directory, &stat),
        Err(errno) => Answer::Refused(errno),
    }
}

/// The same of an object that was looked at.
fn remove_seen<F: FileSystem>(
    files: &mut F,
    memory: &mut Memory,
    asker: Asker,
    parent: u32,
    path: &[u8],
    is_directory: bool,
    stat: &Stat,
) -> Answer
    ensures { Came F.FileSystem files.old files.new (spec.remove_seen (known_of memory.old) asker parent path.now is_directory stat.now) (result, known_of memory.new) }
{
    let handle = files.handle_of(stat.number);
    if goes_with_name(stat) {
        remove_last(
            files,
            memory,
            asker,
            parent,
            path,
            is_directory,
            handle,
            stat,
        )
    } else {
        remove_one(files, memory, asker, parent, path, is_directory, handle)
    }
}

/// What was to go keeps its name, since that was refused.
fn stay<F: FileSystem>(
    files: &mut F,
    memory: &mut Memory,
    handle: Handle,
    held: Option<u32>,
    errno: Errno,
) -> Answer
    ensures { Came F.FileSystem files.old files.new (spec.stays (known_of memory.old) handle held errno) (result, known_of memory.new) }
{
    give_up(files, memory, handle, held);
    Answer::Refused(errno)
}

/// The same of an object that goes by that: it is remembered first.
fn remove_last<F: FileSystem>(
    files: &mut F,
    memory: &mut Memory,
    asker: Asker,
    parent: u32,
    path: &[u8],
    is_directory: bool,
    handle: Handle,
    stat: &Stat,
) -> Answer
    ensures { Came F.FileSystem files.old files.new (spec.remove_last (known_of memory.old) asker parent path.now is_directory handle stat.now) (result, known_of memory.new) }
{
    let held = match remember(files, memory, asker, handle, path, stat) {
        Ok(held) => held,
        Err(errno) => return Answer::Refused(errno),
    };
    match ask_done(files, removing(path, is_directory)) {
        Ok(()) => {
            touch(files, memory, asker, parent);
            Answer::Done
        }
        Err(errno) => stay(files, memory, handle, held, errno),
    }
}

/// The same of an object that has other names.
fn remove_one<F: FileSystem>(
    files: &mut F,
    memory: &mut Memory,
    asker: Asker,
    parent: u32,
    path: &[u8],
    is_directory: bool,
    handle: Handle,
) -> Answer
    ensures { Came F.FileSystem files.old files.new (spec.remove_one (known_of memory.old) asker parent path.now is_directory handle) (result, known_of memory.new) }
{
    match ask_done(files, removing(path, is_directory)) {
        Ok(()) => {
            mark_changed(memory, asker, handle);
            touch(files, memory, asker, parent);
            Answer::Done
        }
        Err(errno) => Answer::Refused(errno),
    }
}

/// The names in a directory changed.
fn touch<F: FileSystem>(files: &F, memory: &mut Memory, asker: Asker, parent: u32)
    ensures { Came F.FileSystem files.now files.now (spec.touches (known_of memory.old) asker parent) (known_of memory.new) }
{
    let directory = files.handle_of(parent);
    touch_directory(memory, asker, directory);
}

/// `renameat2` is to move only where nothing has the new name.
pub(crate) const NO_REPLACE: u32 = 1;

/// What has the new name, and goes by that.
fn replaced<F: FileSystem>(
    files: &mut F,
    moved: &Stat,
    new_path: &[u8],
) -> Result<Option<Stat>, Errno>
    ensures { Came F.FileSystem files.old files.new (spec.replaced moved.now new_path.now) result }
{
    match look_at(files, new_path) {
        Ok(stat) => Ok(gone_by(moved, &stat)),
        Err(errno) => missing_or(errno),
    }
}

/// This object, if it goes by the other one's getting its name.
fn gone_by(moved: &Stat, stat: &Stat) -> Option<Stat>
    ensures { result ≡ spec.gone_by moved.now stat.now }
{
    if stat.number != moved.number && goes_with_name(stat) {
        Some(*stat)
    } else {
        None
    }
}

/// Nothing is there where a name is missing.
fn missing_or(errno: Errno) -> Result<Option<Stat>, Errno>
    ensures { result ≡ spec.missing_or errno }
{
    match errno {
        Errno::ENOENT => Ok(None),
        _ => Err(errno),
    }
}

/// Moves what has a name to another one. The folder of snapshots stays.
pub(crate) fn rename<F: FileSystem>(
    alloc: Global,
    files: &mut F,
    memory: &mut Memory,
    asker: Asker,
    parent: u32,
    name: &[u8],
    new_parent: u32,
    new_name: &[u8],
    flags: u32,
) -> Answer
    ensures { Came F.FileSystem files.old files.new (spec.rename (known_of memory.old) asker parent name.now new_parent new_name.now flags) (result, known_of memory.new) }
{
    if flags > NO_REPLACE {
        return Answer::Refused(Errno::EINVAL);
    }
    if is_snapshots(parent, name) || is_snapshots(new_parent, new_name) {
        return Answer::Refused(Errno::EBUSY);
    }
    rename_named(
        alloc, files, memory, asker, parent, name, new_parent, new_name, flags,
    )
}

/// The same of other names.
fn rename_named<F: FileSystem>(
    alloc: Global,
    files: &mut F,
    memory: &mut Memory,
    asker: Asker,
    parent: u32,
    name: &[u8],
    new_parent: u32,
    new_name: &[u8],
    flags: u32,
) -> Answer
    ensures { Came F.FileSystem files.old files.new (spec.rename_named (known_of memory.old) asker parent name.now new_parent new_name.now flags) (result, known_of memory.new) }
{
    match path_from(alloc, parent, name) {
        Ok(path) => rename_from(
            alloc, files, memory, asker, parent, new_parent, new_name, flags, &path,
        ),
        Err(_) => Answer::Refused(Errno::ENOMEM),
    }
}

/// The same where the path is known.
fn rename_from<F: FileSystem>(
    alloc: Global,
    files: &mut F,
    memory: &mut Memory,
    asker: Asker,
    parent: u32,
    new_parent: u32,
    new_name: &[u8],
    flags: u32,
    path: &[u8],
) -> Answer
    ensures { Came F.FileSystem files.old files.new (spec.rename_from (known_of memory.old) asker parent new_parent new_name.now flags path.now) (result, known_of memory.new) }
{
    let Ok(new_path) = path_from(alloc, new_parent, new_name) else {
        return Answer::Refused(Errno::ENOMEM);
    };
    match look_at(files, path) {
        Ok(moved) => rename_seen(
            files, memory, asker, &moved, parent, new_parent, flags, path, &new_path,
        ),
        Err(errno) => Answer::Refused(errno),
    }
}

/// The same of an object that was looked at.
fn rename_seen<F: FileSystem>(
    files: &mut F,
    memory: &mut Memory,
    asker: Asker,
    moved: &Stat,
    parent: u32,
    new_parent: u32,
    flags: u32,
    path: &[u8],
    new_path: &[u8],
) -> Answer
    ensures { Came F.FileSystem files.old files.new (spec.rename_seen (known_of memory.old) asker moved.now parent new_parent flags path.now new_path.now) (result, known_of memory.new) }
{
    let over = match replaced(files, moved, new_path) {
        Ok(over) => over,
        Err(errno) => return Answer::Refused(errno),
    };
    match over {
        None => move_name(
            files, memory, asker, moved, parent, new_parent, flags, path, new_path,
        ),
        Some(stat) => move_over(
            files, memory, asker, &stat, moved, parent, new_parent, flags, path, new_path,
        ),
    }
}

/// Moves a name where nothing goes by that.
fn move_name<F: FileSystem>(
    files: &mut F,
    memory: &mut Memory,
    asker: Asker,
    moved: &Stat,
    parent: u32,
    new_parent: u32,
    flags: u32,
    path: &[u8],
    new_path: &[u8],
) -> Answer
    ensures { Came F.FileSystem files.old files.new (spec.moves (known_of memory.old) asker moved.now parent new_parent flags path.now new_path.now) (result, known_of memory.new) }
{
    match ask_done(files, moving(flags, path, new_path)) {
        Ok(()) => {
            mark_moved(files, memory, asker, moved, parent, new_parent);
            Answer::Done
        }
        Err(errno) => Answer::Refused(errno),
    }
}

/// Moves a name over an object that goes by that: it is remembered first.
fn move_over<F: FileSystem>(
    files: &mut F,
    memory: &mut Memory,
    asker: Asker,
    over: &Stat,
    moved: &Stat,
    parent: u32,
    new_parent: u32,
    flags: u32,
    path: &[u8],
    new_path: &[u8],
) -> Answer
    ensures { Came F.FileSystem files.old files.new (spec.moves_over (known_of memory.old) asker over.now moved.now parent new_parent flags path.now new_path.now) (result, known_of memory.new) }
{
    let handle = files.handle_of(over.number);
    let held = match remember(files, memory, asker, handle, new_path, over) {
        Ok(held) => held,
        Err(errno) => return Answer::Refused(errno),
    };
    match ask_done(files, moving(flags, path, new_path)) {
        Ok(()) => {
            mark_moved(files, memory, asker, moved, parent, new_parent);
            Answer::Done
        }
        Err(errno) => stay(files, memory, handle, held, errno),
    }
}

/// Marks what moved, and both directories.
fn mark_moved<F: FileSystem>(
    files: &F,
    memory: &mut Memory,
    asker: Asker,
    moved: &Stat,
    parent: u32,
    new_parent: u32,
)
    ensures { Came F.FileSystem files.now files.now (spec.marks_moved (known_of memory.old) asker moved.now parent new_parent) (known_of memory.new) }
{
    let handle = files.handle_of(moved.number);
    mark_changed(memory, asker, handle);
    touch(files, memory, asker, parent);
    touch(files, memory, asker, new_parent);
}
