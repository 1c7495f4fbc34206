//! Which answer a request gets.

ghost use Rattle.std.specs.Prelude.{◌≡◌};
ghost use Rattle.fuse.specs.Operation.{operation_of};
ghost use Rattle.served.specs.Known.{known_of, seen_of};
ghost use Rattle.served.specs.Requests as spec;
ghost use Rattle.served.specs.Turns.{Came};

use crate::agreeing::agree;
use crate::answer::Answer;
use crate::files::{Place, read, read_within, release, write};
use crate::finding::{Found, find};
use crate::keeping::{forget, forget_all};
use crate::listing::{Part, Tree, list};
use crate::looking::{
    look_up, read_link, read_removed, seek, tell_attributes, tell_removed, tell_space,
};
use crate::making::{create, link, make_directory, make_link, make_node, open};
use crate::marks::Asker;
use crate::memory::{Memory, Snapshot};
use crate::numbers::MOST_PARTS;
use crate::removing::{remove, rename};
use crate::setting::{set_attributes, set_removed};
use crate::snapshots::{
    delete, is_snapshots, list_all, list_within, look_up_snapshot, look_up_within, open_within,
    read_link_within, snapshots_attributes, snapshots_entry, take, tell_attributes_within,
};
use file_system::{FileSystem, Handle};
use fuse::{OpenReply, Operation, Request};
use model::Errno;
use std::alloc::Global;

/// A descriptor that a handle is; one that can't be is that of no open file.
fn descriptor(handle: u64) -> u32
    ensures { result ≡ spec.descriptor handle }
{
    match u32::try_from(handle) {
        Ok(fd) => fd,
        Err(_) => u32::MAX,
    }
}

/// Answers a request.
#[tactic(auto, unfolding(crate::specs::Requests::answers))]
pub(crate) fn answer<F: FileSystem>(
    alloc: Global,
    files: &mut F,
    memory: &mut Memory,
    asker: Asker,
    request: &Request<'_>,
) -> Answer
    ensures { Came F.FileSystem files.old files.new (spec.answers (known_of memory.old) asker request.now.head.node (operation_of request.now.operation))
        (result, known_of memory.new) }
{
    let node = request.head.node;
    match &request.operation {
        Operation::Init {
            major,
            minor,
            max_readahead,
            flags,
        } => agree(*major, *minor, *max_readahead, *flags),
        Operation::Destroy => Answer::Done,
        Operation::Interrupt { .. } => Answer::Silent,
        Operation::Retrieved => Answer::Silent,
        Operation::Forget { .. } => {
            forget(files, memory, node);
            Answer::Silent
        }
        Operation::BatchForget { forgets } => {
            forget_all(files, memory, *forgets);
            Answer::Silent
        }
        Operation::StatFileSystem => tell_space(files),
        Operation::OpenDirectory { .. } => Answer::Opened(OpenReply {
            handle: 0,
            flags: 0,
        }),
        Operation::ReleaseDirectory { .. } => Answer::Done,
        Operation::Sync { .. } => Answer::NotServed,
        Operation::SyncDirectory { .. } => Answer::NotServed,
        Operation::Flush { .. } => Answer::NotServed,
        Operation::Access { .. } => Answer::NotServed,
        Operation::Other { .. } => Answer::NotServed,
        _ => {
            let found = find(files, node);
            answer_found(alloc, files, memory, asker, node, found, request)
        }
    }
}

/// Answers a request that is asked of what a node leads to.
#[tactic(auto, unfolding(crate::specs::Requests::of_found))]
fn answer_found<F: FileSystem>(
    alloc: Global,
    files: &mut F,
    memory: &mut Memory,
    asker: Asker,
    node: u64,
    found: Found,
    request: &Request<'_>,
) -> Answer
    ensures { Came F.FileSystem files.old files.new
        (spec.of_found (known_of memory.old) asker node (operation_of request.now.operation) found)
        (result, known_of memory.new) }
{
    match found {
        Found::Running(handle) => answer_running(
            alloc, files, memory, asker, node, handle, request,
        ),
        Found::Snapshots => answer_snapshots(alloc, files, memory, request),
        Found::Within { snapshot, number } => answer_within(
            alloc, files, memory, snapshot, number, request,
        ),
        Found::Nothing => answer_removed(alloc, files, memory, asker, node, request),
    }
}

/// Answers a request that is asked of an object of the running tree.
#[tactic(auto, unfolding(crate::specs::Requests::of_running))]
fn answer_running<F: FileSystem>(
    alloc: Global,
    files: &mut F,
    memory: &mut Memory,
    asker: Asker,
    node: u64,
    handle: Handle,
    request: &Request<'_>,
) -> Answer
    ensures { Came F.FileSystem files.old files.new (spec.of_running (known_of memory.old) asker node handle (operation_of request.now.operation))
        (result, known_of memory.new) }
{
    let number = handle.number;
    match &request.operation {
        Operation::Lookup { name } => { look_up_running(alloc, files, memory, number, name) }
        Operation::GetAttributes { .. } => { tell_attributes(alloc, files, memory, node, handle) }
        Operation::SetAttributes { changes } => {
            set_attributes(alloc, files, memory, asker, node, handle, changes)
        }
        Operation::ReadLink => read_link(alloc, files, memory, node, number),
        Operation::SymbolicLink { name, text } => {
            make_link(alloc, files, memory, asker, number, name, text)
        }
        Operation::MakeNode { name, mode, .. } => {
            make_node(alloc, files, memory, asker, number, name, *mode)
        }
        Operation::MakeDirectory { name, mode, .. } => {
            make_directory(alloc, files, memory, asker, number, name, *mode)
        }
        Operation::Unlink { name } => { remove(alloc, files, memory, asker, number, name, false) }
        Operation::RemoveDirectory { name } => {
            remove(alloc, files, memory, asker, number, name, true)
        }
        Operation::Rename {
            name,
            new_parent,
            new_name,
            flags,
        } => move_name(
            alloc,
            files,
            memory,
            asker,
            number,
            name,
            *new_parent,
            new_name,
            *flags,
        ),
        Operation::Link { name, node } => add_name(
            alloc, files, memory, asker, *node, number, name,
        ),
        Operation::Open { .. } => open(alloc, files, memory, node, number),
        Operation::Create {
            name,
            mode,
            flags,
            ..
        } => create(alloc, files, memory, asker, number, name, *mode, *flags),
        Operation::Read {
            handle,
            offset,
            size,
            ..
        } => {
            let place = Place::Open(descriptor(*handle));
            read(files, place, *offset, *size, MOST_PARTS, Vec::new(alloc))
        }
        Operation::Write {
            handle: open_file,
            offset,
            bytes,
            ..
        } => {
            let fd = descriptor(*open_file);
            write(files, memory, asker, node, handle, fd, *offset, bytes)
        }
        Operation::Release { handle, .. } => { release(files, memory, node, descriptor(*handle)) }
        Operation::ReadDirectory { offset, size, .. } => {
            let part = Part {
                behind: *offset,
                bytes: *size,
                plus: false,
            };
            list(alloc, files, memory, Tree::Running, number, part)
        }
        Operation::ReadDirectoryPlus { offset, size, .. } => {
            let part = Part {
                behind: *offset,
                bytes: *size,
                plus: true,
            };
            list(alloc, files, memory, Tree::Running, number, part)
        }
        Operation::Seek { offset, whence, .. } => {
            seek(alloc, files, memory, node, number, *offset, *whence)
        }
        _ => Answer::NotServed,
    }
}

/// What has a name in a directory of the running tree.
#[tactic(auto, unfolding(crate::specs::Requests::look_up_running))]
fn look_up_running<F: FileSystem>(
    alloc: Global,
    files: &mut F,
    memory: &Memory,
    parent: u32,
    name: &[u8],
) -> Answer
    ensures { Came F.FileSystem files.old files.new
        (spec.look_up_running (known_of memory.now) parent name.now) result }
{
    if is_snapshots(parent, name) {
        return snapshots_entry(memory);
    }
    look_up(alloc, files, memory, parent, name)
}

/// Moves a name into a directory of the running tree.
#[tactic(auto, unfolding(crate::specs::Requests::renames, crate::specs::Requests::among_running))]
fn move_name<F: FileSystem>(
    alloc: Global,
    files: &mut F,
    memory: &mut Memory,
    asker: Asker,
    parent: u32,
    name: &[u8],
    new_parent: u64,
    new_name: &[u8],
    flags: u32,
) -> Answer
    ensures { Came F.FileSystem files.old files.new (spec.renames (known_of memory.old) asker parent name.now new_parent new_name.now flags)
        (result, known_of memory.new) }
{
    match find(files, new_parent) {
        Found::Running(new) => rename(
            alloc, files, memory, asker, parent, name, new.number, new_name, flags,
        ),
        Found::Nothing => Answer::Refused(Errno::ESTALE),
        _ => Answer::Refused(Errno::EROFS),
    }
}

/// Gives a file of the running tree one more name.
#[tactic(auto, unfolding(crate::specs::Requests::links, crate::specs::Requests::among_running))]
fn add_name<F: FileSystem>(
    alloc: Global,
    files: &mut F,
    memory: &mut Memory,
    asker: Asker,
    file: u64,
    parent: u32,
    name: &[u8],
) -> Answer
    ensures { Came F.FileSystem files.old files.new (spec.links (known_of memory.old) asker file parent name.now)
        (result, known_of memory.new) }
{
    match find(files, file) {
        Found::Running(handle) => link(alloc, files, memory, asker, handle, parent, name),
        Found::Nothing => Answer::Refused(Errno::ESTALE),
        _ => Answer::Refused(Errno::EROFS),
    }
}

/// Answers a request that is asked of the folder of snapshots.
#[tactic(auto, unfolding(crate::specs::Requests::of_snapshots))]
fn answer_snapshots<F: FileSystem>(
    alloc: Global,
    files: &mut F,
    memory: &mut Memory,
    request: &Request<'_>,
) -> Answer
    ensures { Came F.FileSystem files.old files.new (spec.of_snapshots (known_of memory.old) (operation_of request.now.operation))
        (result, known_of memory.new) }
{
    match &request.operation {
        Operation::Lookup { name } => look_up_snapshot(alloc, files, memory, name),
        Operation::GetAttributes { .. } => Answer::Attributes(snapshots_attributes(memory)),
        Operation::MakeDirectory { name, .. } => take(alloc, files, memory, name),
        Operation::RemoveDirectory { name } => delete(files, memory, name),
        Operation::ReadDirectory { offset, size, .. } => {
            let part = Part {
                behind: *offset,
                bytes: *size,
                plus: false,
            };
            list_all(alloc, memory, part)
        }
        Operation::ReadDirectoryPlus { offset, size, .. } => {
            let part = Part {
                behind: *offset,
                bytes: *size,
                plus: true,
            };
            list_all(alloc, memory, part)
        }
        _ => Answer::Refused(Errno::EROFS),
    }
}

/// Answers a request that is asked of an object in a snapshot.
#[tactic(auto, unfolding(crate::specs::Requests::of_within, crate::specs::Requests::if_seen))]
fn answer_within<F: FileSystem>(
    alloc: Global,
    files: &mut F,
    memory: &Memory,
    snapshot: u32,
    number: u32,
    request: &Request<'_>,
) -> Answer
    ensures { Came F.FileSystem files.old files.new (spec.of_within (known_of memory.now) snapshot number (operation_of request.now.operation)) result }
{
    match memory.snapshot_by_id(snapshot) {
        Some(snapshot) => answer_seen(alloc, files, memory, snapshot, number, request),
        None => Answer::Refused(Errno::ESTALE),
    }
}

/// The same where the snapshot is there.
#[tactic(auto, unfolding(crate::specs::Requests::of_seen))]
fn answer_seen<F: FileSystem>(
    alloc: Global,
    files: &mut F,
    memory: &Memory,
    snapshot: &Snapshot,
    number: u32,
    request: &Request<'_>,
) -> Answer
    ensures { Came F.FileSystem files.old files.new
        (spec.of_seen (known_of memory.now) (seen_of snapshot.now) number (operation_of request.now.operation))
        result }
{
    match &request.operation {
        Operation::Lookup { name } => {
            look_up_within(alloc, files, memory, snapshot, number, name)
        }
        Operation::GetAttributes { .. } => {
            tell_attributes_within(alloc, files, memory, snapshot, number)
        }
        Operation::ReadLink => read_link_within(alloc, files, snapshot, number),
        Operation::Open { flags, .. } => open_within(*flags),
        Operation::Read { offset, size, .. } => {
            read_within(alloc, files, &snapshot.name, number, *offset, *size)
        }
        Operation::Release { .. } => Answer::Done,
        Operation::ReadDirectory { offset, size, .. } => {
            let part = Part {
                behind: *offset,
                bytes: *size,
                plus: false,
            };
            list_within(alloc, files, memory, snapshot, number, part)
        }
        Operation::ReadDirectoryPlus { offset, size, .. } => {
            let part = Part {
                behind: *offset,
                bytes: *size,
                plus: true,
            };
            list_within(alloc, files, memory, snapshot, number, part)
        }
        Operation::Seek { .. } => Answer::Refused(Errno::EINVAL),
        _ => Answer::Refused(Errno::EROFS),
    }
}

/// Answers a request that is asked of what isn't there any more.
#[tactic(auto, unfolding(crate::specs::Requests::of_removed))]
fn answer_removed<F: FileSystem>(
    alloc: Global,
    files: &mut F,
    memory: &mut Memory,
    asker: Asker,
    node: u64,
    request: &Request<'_>,
) -> Answer
    ensures { Came F.FileSystem files.old files.new (spec.of_removed (known_of memory.old) asker node (operation_of request.now.operation))
        (result, known_of memory.new) }
{
    match &request.operation {
        Operation::GetAttributes { .. } => { tell_removed(files, memory, node) }
        Operation::SetAttributes { changes } => { set_removed(files, memory, asker, node, changes) }
        Operation::ReadLink => read_removed(alloc, memory, node),
        Operation::Release { handle, .. } => { release(files, memory, node, descriptor(*handle)) }
        _ => Answer::Refused(Errno::ESTALE),
    }
}
