//! What is kept of objects whose last name goes, since the kernel may know them for longer.

ghost use Rattle.std.specs.Prelude.{◌≡◌, OnErr, OnOk, Some};
ghost use Rattle.fuse.specs.Forgets.{forgets_of};
ghost use Rattle.served.specs.Keeping as spec;
ghost use Rattle.served.specs.Known.{known_of, without_removed};
ghost use Rattle.served.specs.Nodes.{node_of};
ghost use Rattle.served.specs.Turns.{Came};

use crate::asking::{ask_descriptor, ask_done, ask_stat, ask_text};
use crate::commands::{open, readlink};
use crate::marks::Asker;
use crate::memory::{Memory, Removed};
use crate::node::node_of;
use crate::numbers::mode_of;
use file_system::{FileSystem, Handle};
use fuse::Forgets;
use model::{Command, Errno, FileType, Stat, Text};
use std::alloc::AllocError;

/// What is kept of an object.
#[derive(Drop)]
pub(crate) enum Kept {
    /// Nothing beside what is told of it.
    Nothing,
    /// A file is open by a descriptor.
    Open(u32),
    /// The text of a link.
    Text(Text),
}

/// Keeps what the kernel may ask for of an object, to which the path leads, behind its last name.
fn keep<F: FileSystem>(files: &mut F, path: &[u8], stat: &Stat) -> Kept
    ensures { Came F.FileSystem files.old files.new (spec.keeps path.now stat.now) result }
{
    match stat.kind {
        FileType::File => match ask_descriptor(files, open(path, mode_of(0))) {
            Ok(fd) => Kept::Open(fd),
            Err(_) => Kept::Nothing,
        },
        FileType::Link => match ask_text(files, readlink(path)) {
            Ok(text) => Kept::Text(text),
            Err(_) => Kept::Nothing,
        },
        FileType::Dir => Kept::Nothing,
    }
}

/// The descriptor by which a file is kept.
fn descriptor_of(kept: &Kept) -> Option<u32>
    ensures { result ≡ spec.descriptor_of kept.now }
{
    match kept {
        Kept::Open(fd) => Some(*fd),
        _ => None,
    }
}

/// The text of a link that is kept.
fn text_of(kept: Kept) -> Option<Text>
    ensures { result ≡ spec.text_of kept }
{
    match kept {
        Kept::Text(text) => Some(text),
        _ => None,
    }
}

/// Closes what is kept.
fn let_go<F: FileSystem>(files: &mut F, held: Option<u32>)
    ensures { Came F.FileSystem files.old files.new (spec.lets_go held) tt }
{
    if let Some(fd) = held {
        let _ = ask_done(files, Command::Close { fd });
    }
}

/// Keeps and remembers an object whose last name is about to go: the descriptor, if it is a file.
pub(crate) fn remember<F: FileSystem>(
    files: &mut F,
    memory: &mut Memory,
    asker: Asker,
    handle: Handle,
    path: &[u8],
    stat: &Stat,
) -> Result<Option<u32>, Errno>
    ensures { Came F.FileSystem files.old files.new
        (spec.remembers (known_of memory.old) asker handle path.now stat.now)
        (result, known_of memory.new) }
{
    let kept = keep(files, path, stat);
    let held = descriptor_of(&kept);
    match note(memory, asker, handle, stat, kept) {
        Ok(()) => Ok(held),
        Err(_) => {
            let_go(files, held);
            Err(Errno::ENOMEM)
        }
    }
}

/// Remembers an object, and what is kept of it.
fn note(
    memory: &mut Memory,
    asker: Asker,
    handle: Handle,
    stat: &Stat,
    kept: Kept,
) -> Result<(), AllocError>
    ensures ok { OnOk result
        (known_of memory.new ≡ spec.remembered (known_of memory.old) asker handle stat.now kept) }
    ensures err { OnErr result
        (known_of memory.new ≡ without_removed (node_of handle) (known_of memory.old)) }
{
    let removed = Removed {
        stat: Stat { links: 0, ..*stat },
        marks: memory.marks_of(handle).changed(asker.now),
        held: descriptor_of(&kept),
        opens: 0,
    };
    memory.note_removed(node_of(handle), removed, text_of(kept))
}

/// What was to go keeps its name.
pub(crate) fn give_up<F: FileSystem>(
    files: &mut F,
    memory: &mut Memory,
    handle: Handle,
    held: Option<u32>,
)
    ensures { Came F.FileSystem files.old files.new
        (spec.gives_up (known_of memory.old) handle held) (known_of memory.new) }
{
    let_go(files, held);
    memory.forget(node_of(handle));
}

/// The kernel forgets a node.
pub(crate) fn forget<F: FileSystem>(files: &mut F, memory: &mut Memory, node: u64)
    ensures { Came F.FileSystem files.old files.new
        (spec.forgets (known_of memory.old) node) (known_of memory.new) }
{
    if let Some(removed) = memory.removed(node) {
        forget_removed(files, memory, node, &removed);
    }
}

/// The same of one whose object is removed.
fn forget_removed<F: FileSystem>(files: &mut F, memory: &mut Memory, node: u64, removed: &Removed)
    ensures { Came F.FileSystem files.old files.new
        (spec.forgets_removed (known_of memory.old) node (Some removed.now))
        (known_of memory.new) }
{
    if removed.opens == 0 {
        let_go(files, removed.held);
        memory.forget(node);
    }
}

/// The kernel forgets several nodes.
pub(crate) fn forget_all<F: FileSystem>(files: &mut F, memory: &mut Memory, forgets: Forgets<'_>)
    ensures { Came F.FileSystem files.old files.new
        (spec.forgets_all (known_of memory.old) (forgets_of forgets.entry)) (known_of memory.new) }
{
    let mut rest = forgets;
    for _ in 0..forgets.bytes.len() {
        let Some((one, behind)) = rest.split_first() else {
            return;
        };
        forget(files, memory, one.node);
        rest = behind;
    }
}

/// A removed file that the kernel opened by what is kept.
pub(crate) fn opened_more(removed: &Removed) -> Removed
    ensures { result ≡ spec.opened_more removed.now }
{
    Removed {
        opens: removed.opens.saturating_add(1),
        ..*removed
    }
}

/// A removed file that the kernel closed.
pub(crate) fn closed_once(removed: &Removed) -> Removed
    ensures { result ≡ spec.closed_once removed.now }
{
    Removed {
        opens: removed.opens.saturating_sub(1),
        ..*removed
    }
}

/// Whether a file is kept by this descriptor.
pub(crate) fn is_held(held: Option<u32>, fd: u32) -> bool
    ensures { result ≡ spec.is_held held fd }
{
    match held {
        Some(held) => held == fd,
        None => false,
    }
}

/// The size that a removed object has.
pub(crate) fn removed_size<F: FileSystem>(files: &mut F, removed: &Removed) -> Result<u64, Errno>
    ensures { Came F.FileSystem files.old files.new (spec.removed_size removed.now) result }
{
    match removed.held {
        Some(fd) => match ask_stat(files, Command::Fstat { fd }) {
            Ok(now) => Ok(now.size),
            Err(errno) => Err(errno),
        },
        None => Ok(removed.stat.size),
    }
}
