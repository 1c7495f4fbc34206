//! Requests of the folder of snapshots, and of what stands in them.

ghost use Rattle.std.specs.Prelude.{◌≡◌, map, OnErr, OnOk};
ghost use Rattle.served.specs.Known.{known_of, seen_of, with_snapshot};
ghost use Rattle.served.specs.Listing.{TellsSnapshots, list, within};
ghost use Rattle.served.specs.Looking.{is_snapshots};
ghost use Rattle.served.specs.Snapshots as spec;
ghost use Rattle.served.specs.Turns.{Came};
ghost use Rattle.served.specs.declared.node.TheConstants.{SNAPSHOTS_NODE};

use crate::answer::Answer;
use crate::asking::{ask_done, ask_snapshots, ask_stat, ask_text};
use crate::attributes::{attributes_of, entry_of, parts_of_size};
use crate::commands::{lstat_within, readlink_within, snap_delete, snap_take};
use crate::listing::{Part, Tree, list, list_snapshots};
use crate::looking::missing;
use crate::memory::{Memory, Snapshot};
use crate::node::{SNAPSHOTS_NODE, node_within};
use file_system::{FileSystem, path_from};
use fuse::{Attributes, OpenReply};
use model::{Command, Errno, FileType, Mode, ROOT_NUMBER, Stat};
use std::alloc::{AllocError, Global};

/// The name of the folder in the root.
pub(crate) const SNAPSHOTS_NAME: &[u8] = b".snapshot";

/// Whether a name in a directory of the running tree is that of the folder of snapshots.
pub(crate) fn is_snapshots(parent: u32, name: &[u8]) -> bool
    ensures { result ≡ is_snapshots parent name.now }
{
    parent == ROOT_NUMBER && name == SNAPSHOTS_NAME
}

/// Learns which snapshots there are.
#[tactic(none)]
pub(crate) fn learn_snapshots<F: FileSystem>(
    alloc: Global,
    files: &mut F,
    memory: &mut Memory,
) -> Result<(), Errno>
    ensures { Came F.FileSystem files.old files.new (spec.learns (known_of memory.old))
        (result, known_of memory.new) }
{
    match ask_snapshots(files, Command::SnapList) {
        Ok(names) => note_all(alloc, memory, names.as_slice()),
        Err(errno) => Err(errno),
    }
}

/// Notes snapshots more, of these names, as far as there is memory.
fn note_all(alloc: Global, memory: &mut Memory, names: &[Vec<u8>]) -> Result<(), Errno>
    ensures { spec.AreLearnt (known_of memory.old) (map (λ name. name.items) names.now)
        (result, known_of memory.new) }
{
    for name in names {
        match note(alloc, memory, name) {
            Ok(()) => {}
            Err(_) => return Err(Errno::ENOMEM),
        }
    }
    Ok(())
}

/// The attributes of the folder of snapshots.
pub(crate) fn snapshots_attributes(memory: &Memory) -> Attributes
    ensures { result ≡ spec.snapshots_attributes (known_of memory.now) }
{
    let stat = Stat {
        number: 2,
        kind: FileType::Dir,
        mode: Mode::NEW_DIRECTORY,
        links: 2,
        size: 0,
    };
    attributes_of(SNAPSHOTS_NODE, &stat, 0, memory.first())
}

/// The entry of the folder of snapshots.
pub(crate) fn snapshots_entry(memory: &Memory) -> Answer
    ensures { result ≡ spec.snapshots_entry (known_of memory.now) }
{
    Answer::Entry(entry_of(SNAPSHOTS_NODE, 0, snapshots_attributes(memory)))
}

/// What is told of an object in a snapshot.
fn attributes_within(memory: &Memory, snapshot: &Snapshot, stat: &Stat) -> Attributes
    ensures { result ≡ spec.attributes_within (known_of memory.now) snapshot.now.id stat.now }
{
    let node = node_within(snapshot.id, stat.number);
    attributes_of(node, stat, parts_of_size(stat.size), memory.first())
}

/// The entry of an object in a snapshot.
fn entry_within(memory: &Memory, snapshot: &Snapshot, stat: &Stat) -> Answer
    ensures { result ≡ spec.entry_within (known_of memory.now) snapshot.now.id stat.now }
{
    let node = node_within(snapshot.id, stat.number);
    Answer::Entry(entry_of(node, 0, attributes_within(memory, snapshot, stat)))
}

/// What has a name in the directory of a number, in a snapshot.
#[tactic(none)]
pub(crate) fn look_up_within<F: FileSystem>(
    alloc: Global,
    files: &mut F,
    memory: &Memory,
    snapshot: &Snapshot,
    parent: u32,
    name: &[u8],
) -> Answer
    ensures { Came F.FileSystem files.old files.new (spec.look_up_within (known_of memory.now) (seen_of snapshot.now) parent name.now) result }
{
    let Ok(path) = path_from(alloc, parent, name) else {
        return Answer::Refused(Errno::ENOMEM);
    };
    match ask_stat(files, lstat_within(&snapshot.name, &path)) {
        Ok(stat) => entry_within(memory, snapshot, &stat),
        Err(errno) => missing(errno),
    }
}

/// The snapshot of a name: its root.
#[tactic(auto, unfolding(crate::specs::Snapshots::look_up_snapshot, crate::specs::Snapshots::look_up_found))]
pub(crate) fn look_up_snapshot<F: FileSystem>(
    alloc: Global,
    files: &mut F,
    memory: &Memory,
    name: &[u8],
) -> Answer
    ensures { Came F.FileSystem files.old files.new (spec.look_up_snapshot (known_of memory.now) name.now) result }
{
    match memory.snapshot_by_name(name) {
        Some(snapshot) => look_up_within(alloc, files, memory, snapshot, ROOT_NUMBER, b""),
        None => Answer::NoEntry,
    }
}

/// The attributes of an object in a snapshot.
#[tactic(none)]
pub(crate) fn tell_attributes_within<F: FileSystem>(
    alloc: Global,
    files: &mut F,
    memory: &Memory,
    snapshot: &Snapshot,
    number: u32,
) -> Answer
    ensures { Came F.FileSystem files.old files.new (spec.tell_attributes_within (known_of memory.now) (seen_of snapshot.now) number) result }
{
    let Ok(path) = path_from(alloc, number, b"") else {
        return Answer::Refused(Errno::ENOMEM);
    };
    match ask_stat(files, lstat_within(&snapshot.name, &path)) {
        Ok(stat) => Answer::Attributes(attributes_within(memory, snapshot, &stat)),
        Err(errno) => Answer::Refused(errno),
    }
}

/// The text of a link in a snapshot.
#[tactic(none)]
pub(crate) fn read_link_within<F: FileSystem>(
    alloc: Global,
    files: &mut F,
    snapshot: &Snapshot,
    number: u32,
) -> Answer
    ensures { Came F.FileSystem files.old files.new (spec.read_link_within (seen_of snapshot.now) number) result }
{
    let Ok(path) = path_from(alloc, number, b"") else {
        return Answer::Refused(Errno::ENOMEM);
    };
    match ask_text(files, readlink_within(&snapshot.name, &path)) {
        Ok(text) => Answer::Bytes(text),
        Err(errno) => Answer::Refused(errno),
    }
}

/// Tells a part of the names in a directory of a snapshot.
pub(crate) fn list_within<F: FileSystem>(
    alloc: Global,
    files: &mut F,
    memory: &Memory,
    snapshot: &Snapshot,
    number: u32,
    part: Part,
) -> Answer
    ensures { Came F.FileSystem files.old files.new
        (list (known_of memory.now) (within (seen_of snapshot.now) (known_of memory.now).first) number part) result }
{
    let tree = Tree::Within(snapshot, memory.first());
    list(alloc, files, memory, tree, number, part)
}

/// Tells a part of the snapshots.
pub(crate) fn list_all(alloc: Global, memory: &Memory, part: Part) -> Answer
    ensures { TellsSnapshots (known_of memory.now) SNAPSHOTS_NODE part result }
{
    list_snapshots(alloc, memory, SNAPSHOTS_NODE, part)
}

/// Takes a snapshot.
#[tactic(none)]
pub(crate) fn take<F: FileSystem>(
    alloc: Global,
    files: &mut F,
    memory: &mut Memory,
    name: &[u8],
) -> Answer
    ensures { Came F.FileSystem files.old files.new (spec.take_snapshot (known_of memory.old) name.now)
        (result, known_of memory.new) }
{
    if memory.snapshot_by_name(name).is_some() {
        return Answer::Refused(Errno::EEXIST);
    }
    match note(alloc, memory, name) {
        Ok(()) => take_noted(alloc, files, memory, name),
        Err(_) => Answer::Refused(Errno::ENOMEM),
    }
}

/// Notes a snapshot more, of this name.
fn note(alloc: Global, memory: &mut Memory, name: &[u8]) -> Result<(), AllocError>
    ensures ok { OnOk result
        (known_of memory.new ≡ with_snapshot name.now (known_of memory.old)) }
    ensures err { OnErr result (known_of memory.new ≡ known_of memory.old) }
{
    let mut own = Vec::new(alloc);
    own.extend_from_slice(name)?;
    memory.add_snapshot(own)
}

/// Takes a snapshot that is noted already.
#[tactic(none)]
fn take_noted<F: FileSystem>(
    alloc: Global,
    files: &mut F,
    memory: &mut Memory,
    name: &[u8],
) -> Answer
    ensures { Came F.FileSystem files.old files.new (spec.take_noted (known_of memory.old) name.now)
        (result, known_of memory.new) }
{
    match ask_done(files, snap_take(name)) {
        Ok(()) => look_up_snapshot(alloc, files, memory, name),
        Err(errno) => {
            memory.drop_snapshot(name);
            Answer::Refused(errno)
        }
    }
}

/// Deletes a snapshot. A later one of its name has other nodes.
#[tactic(auto, unfolding(crate::specs::Snapshots::delete))]
pub(crate) fn delete<F: FileSystem>(files: &mut F, memory: &mut Memory, name: &[u8]) -> Answer
    ensures { Came F.FileSystem files.old files.new (spec.delete (known_of memory.old) name.now)
        (result, known_of memory.new) }
{
    match ask_done(files, snap_delete(name)) {
        Ok(()) => {
            memory.drop_snapshot(name);
            Answer::Done
        }
        Err(errno) => Answer::Refused(errno),
    }
}

/// The bits of `open`'s flags that tell how it opens, 0 for reading alone.
const ACCESS_BITS: u32 = 3;

/// Opens a file in a snapshot, for reading alone.
pub(crate) fn open_within(flags: u32) -> Answer
    ensures { result ≡ spec.open_within flags }
{
    if flags & ACCESS_BITS != 0 {
        return Answer::Refused(Errno::EROFS);
    }
    Answer::Opened(OpenReply {
        handle: 0,
        flags: fuse::FOPEN_KEEP_CACHE,
    })
}
