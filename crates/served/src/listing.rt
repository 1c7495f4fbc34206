//! Listings of directories, in parts.

ghost use Rattle.std.specs.Prelude.{◌≡◌, ◌≤◌, ◌++◌, IfOk, length, map, take, if◌then◌else◌};
ghost use Rattle.fuse.specs.Directory as directory;
ghost use Rattle.model.specs.declared.reply.Reply.{Reply};
ghost use Rattle.served.specs.Known.{known_of, seen_of};
ghost use Rattle.served.specs.Listing as spec;
ghost use Rattle.served.specs.Turns.{Came, asks};

use crate::answer::Answer;
use crate::asking::ask_entries;
use crate::attributes::{attributes_of, entry_of, parts_of_size};
use crate::commands::{entries, entries_within};
use crate::files::offset_behind;
use crate::looking::stored_parts;
use crate::marks::Marks;
use crate::memory::{Memory, Snapshot};
use crate::node::{node_of, node_within};
use crate::snapshots::is_snapshots;
use file_system::{FileSystem, path_from};
use fuse::{
    Attributes, Entry as Told, LISTED_NAME_BYTES, Listed, ListedKind, Time, list_entry,
    list_entry_plus,
};
use model::{ENTRIES_TOLD, Entries, Entry, Errno, FileType, ROOT_NUMBER, Stat, Text};
use std::alloc::{AllocError, Global};

/// How a part of a listing is asked for.
#[derive(Clone, Copy)]
pub(crate) struct Part {
    /// Behind this place: 0 before all, 1 behind `.`, 2 behind `..`, else the cookie of a name.
    pub(crate) behind: u64,
    /// The most bytes of it.
    pub(crate) bytes: u32,
    /// Whether each name comes with what it leads to.
    pub(crate) plus: bool,
}

/// Places of `.` and `..`.
pub(crate) const BEHIND_SELF: u64 = 1;

pub(crate) const BEHIND_PARENT: u64 = 2;

/// A name's kind, as a listing has it.
fn listed_kind(kind: FileType) -> ListedKind
    ensures { result ≡ spec.listed_kind kind }
{
    match kind {
        FileType::File => ListedKind::File,
        FileType::Dir => ListedKind::Directory,
        FileType::Link => ListedKind::SymbolicLink,
    }
}

/// The entry of a name of which a listing tells nothing.
fn untold() -> Told
    ensures { result ≡ spec.untold }
{
    let never = Time {
        seconds: 0,
        nanoseconds: 0,
    };
    entry_of(
        0,
        0,
        Attributes {
            inode: 0,
            size: 0,
            blocks: 0,
            atime: never,
            mtime: never,
            ctime: never,
            mode: 0,
            links: 0,
            uid: 0,
            gid: 0,
            device: 0,
            block_size: 0,
        },
    )
}

/// Appends a name to a listing, where it has room for it.
fn append(
    listing: &mut Vec<u8>,
    part: Part,
    entry: &Told,
    listed: &Listed<'_>,
) -> Result<bool, AllocError>
    ensures fits { IfOk result (λ fits.
        fits ≡ spec.has_room part listing.old.items entry.now (directory.listed_of listed.now)) }
    ensures ok { IfOk result (λ fits. listing.new.items ≡ (if fits
        then listing.old.items ++ spec.spelled part entry.now (directory.listed_of listed.now)
        else listing.old.items)) }
{
    if listed.name.len() > LISTED_NAME_BYTES {
        return Ok(false);
    }
    if part.plus {
        list_entry_plus(listing, part.bytes as usize, entry, listed)
    } else {
        list_entry(listing, part.bytes as usize, listed)
    }
}

/// Appends the name of a directory that stands at a place, unless the part begins behind it; false
/// where it has no room.
fn append_directory(
    listing: &mut Vec<u8>,
    part: Part,
    inode: u64,
    place: u64,
    name: &[u8],
) -> Result<bool, AllocError>
    ensures { IfOk result (λ all. (listing.new.items, all)
        ≡ spec.listed part (spec.directory_at part inode place name.now) listing.old.items) }
{
    if place <= part.behind {
        return Ok(true);
    }
    let listed = Listed {
        inode,
        offset: place,
        kind: ListedKind::Directory,
        name,
    };
    append(listing, part, &untold(), &listed)
}

/// Appends `.` and `..`, as far as the part begins before them; false where one has no room.
fn append_dots(listing: &mut Vec<u8>, part: Part, inode: u64) -> Result<bool, AllocError>
    ensures { IfOk result (λ all. (listing.new.items, all)
        ≡ spec.listed part (spec.dots part inode) listing.old.items) }
{
    if !append_directory(listing, part, inode, BEHIND_SELF, b".")? {
        return Ok(false);
    }
    append_directory(listing, part, inode, BEHIND_PARENT, b"..")
}

/// Appends the snapshots' names; false where one has no room.
fn append_snapshots(
    listing: &mut Vec<u8>,
    part: Part,
    snapshots: &[Snapshot],
) -> Result<bool, AllocError>
    ensures { IfOk result (λ all. (listing.new.items, all)
        ≡ spec.listed part (spec.snapshots_in part (map seen_of snapshots.now)) listing.old.items) }
{
    let Some((snapshot, behind)) = snapshots.split_first() else {
        return Ok(true);
    };
    let inode = node_within(snapshot.id, ROOT_NUMBER);
    let place = u64::from(snapshot.id) + BEHIND_PARENT + 1;
    if !append_directory(listing, part, inode, place, &snapshot.name)? {
        return Ok(false);
    }
    append_snapshots(listing, part, behind)
}

/// Appends `.`, `..` and the snapshots' names; false where one has no room.
fn append_folder(
    listing: &mut Vec<u8>,
    part: Part,
    inode: u64,
    snapshots: &[Snapshot],
) -> Result<bool, AllocError>
    ensures { IfOk result (λ all. (listing.new.items, all) ≡ spec.listed part
        (spec.dots part inode ++ spec.snapshots_in part (map seen_of snapshots.now))
        listing.old.items) }
{
    if !append_dots(listing, part, inode)? {
        return Ok(false);
    }
    append_snapshots(listing, part, snapshots)
}

/// Tells a part of the snapshots' names: the place of one is its id and 3.
pub(crate) fn list_snapshots(alloc: Global, memory: &Memory, inode: u64, part: Part) -> Answer
    ensures { spec.TellsSnapshots (known_of memory.now) inode part result }
{
    let mut listing = Vec::new(alloc);
    match append_folder(&mut listing, part, inode, &memory.snapshots) {
        Ok(_) => Answer::Bytes(Text::new(listing)),
        Err(_) => Answer::Refused(Errno::ENOMEM),
    }
}

/// Whose directory is listed.
#[derive(Clone, Copy)]
pub(crate) enum Tree<'a> {
    Running,
    Within(&'a Snapshot, Marks),
}

/// How many names are asked for, so that they fill the part.
fn names_asked(part: Part) -> u32
    ensures { result ≡ spec.names_asked part }
{
    let least = if part.plus { 160 } else { 32 };
    (part.bytes / least).min(ENTRIES_TOLD).max(1)
}

/// Asks for names in a directory.
fn ask_names<F: FileSystem>(
    files: &mut F,
    tree: Tree<'_>,
    path: &[u8],
    after: i64,
    count: u32,
) -> Result<Entries, Errno>
    ensures { Came F.FileSystem files.old files.new
        (asks Reply.Entries (spec.names_in (spec.whose_of tree.entry) path.now after count)) result }
{
    match tree {
        Tree::Running => ask_entries(files, entries(path, after, count)),
        Tree::Within(snapshot, _) => {
            ask_entries(files, entries_within(&snapshot.name, path, after, count))
        }
    }
}

/// The number by which programs see what has a number.
fn inode_in(tree: Tree<'_>, number: u32) -> u64
    ensures { result ≡ spec.inode_in (spec.whose_of tree.entry) number }
{
    match tree {
        Tree::Running => u64::from(number),
        Tree::Within(snapshot, _) => node_within(snapshot.id, number),
    }
}

/// A name as a listing has it.
fn listed_of<'a>(tree: Tree<'_>, name: &'a Entry) -> Listed<'a>
    ensures { directory.listed_of result ≡ spec.name_in (spec.whose_of tree.entry) name.now }
{
    Listed {
        inode: inode_in(tree, name.stat.number),
        offset: name.cookie,
        kind: listed_kind(name.stat.kind),
        name: name.name.as_bytes(),
    }
}

/// What a name in the running tree leads to.
fn leads_to<F: FileSystem>(
    alloc: Global,
    files: &mut F,
    memory: &Memory,
    stat: &Stat,
) -> Result<Told, Errno>
    ensures { Came F.FileSystem files.old files.new
        (spec.leads_to (known_of memory.now) spec.running stat.now) result }
{
    match path_from(alloc, stat.number, b"") {
        Ok(path) => {
            let parts = stored_parts(files, &path, stat);
            let handle = files.handle_of(stat.number);
            let marks = memory.marks_of(handle);
            let told = attributes_of(u64::from(stat.number), stat, parts, marks);
            Ok(entry_of(node_of(handle), handle.generation, told))
        }
        Err(_) => Err(Errno::ENOMEM),
    }
}

/// Whether an object with this name is hidden by the folder of snapshots.
fn is_hidden(tree: Tree<'_>, number: u32, name: &Entry) -> bool
    ensures { result ≡ spec.is_hidden (spec.whose_of tree.entry) number name.now.name }
{
    match tree {
        Tree::Running => is_snapshots(number, name.name.as_bytes()),
        Tree::Within(..) => false,
    }
}

/// What a listing of the directory of a number tells of what a name leads to.
#[tactic(auto, unfolding(crate::specs::Listing::told_of))]
fn told_of<F: FileSystem>(
    alloc: Global,
    files: &mut F,
    memory: &Memory,
    tree: Tree<'_>,
    number: u32,
    part: Part,
    name: &Entry,
) -> Result<Told, Errno>
    ensures { Came F.FileSystem files.old files.new
        (spec.told_of (known_of memory.now) (spec.whose_of tree.entry) number part name.now) result }
{
    if !(part.plus && !is_hidden(tree, number, name)) {
        return Ok(untold());
    }
    match tree {
        Tree::Running => leads_to(alloc, files, memory, &name.stat),
        Tree::Within(snapshot, marks) => Ok(entry_within(snapshot.id, marks, &name.stat)),
    }
}

/// What a name in the snapshot with an id leads to.
fn entry_within(id: u32, marks: Marks, stat: &Stat) -> Told
    requires { id ≤ 2147483647 }
    ensures { result ≡ spec.entry_within id marks stat.now }
{
    let node = node_within(id, stat.number);
    entry_of(
        node,
        0,
        attributes_of(node, stat, parts_of_size(stat.size), marks),
    )
}

/// Whether the next name has the same cookie.
fn shares_cookie(name: &Entry, names: &[Entry]) -> bool
    ensures { result ≡ spec.shares_cookie name.now names.now }
{
    match names.split_first() {
        Some((next, _)) => next.cookie == name.cookie,
        None => false,
    }
}

/// How many bytes of a listing end with a cookie, behind a name and before others.
fn whole_behind(name: &Entry, names: &[Entry], whole: usize, now: usize) -> usize
    ensures { result ≡ (if spec.shares_cookie name.now names.now then whole else now) }
{
    if shares_cookie(name, names) {
        whole
    } else {
        now
    }
}

/// A part ends behind the last cookie all of whose names have room; one in which none has is too
/// small.
fn ends(listing: Vec<u8>, whole: usize) -> Answer
    ensures { result ≡ spec.ends (take whole listing.items) }
{
    let mut listing = listing;
    listing.truncate(whole);
    if listing.is_empty() {
        Answer::Refused(Errno::EINVAL)
    } else {
        Answer::Bytes(Text::new(listing))
    }
}

/// Tells names behind others, of which so many bytes end with a cookie.
fn tell_names<F: FileSystem>(
    alloc: Global,
    files: &mut F,
    memory: &Memory,
    tree: Tree<'_>,
    number: u32,
    part: Part,
    names: &[Entry],
    whole: usize,
    listing: Vec<u8>,
) -> Answer
    ensures { Came F.FileSystem files.old files.new
        (spec.tells (known_of memory.now) (spec.whose_of tree.entry) number part names.now whole
        listing.items) result }
{
    let Some((name, behind)) = names.split_first() else {
        return Answer::Bytes(Text::new(listing));
    };
    match told_of(alloc, files, memory, tree, number, part, name) {
        Ok(told) => {
            let mut listing = listing;
            match append(&mut listing, part, &told, &listed_of(tree, name)) {
                Ok(true) => {
                    let now = whole_behind(name, behind, whole, listing.len());
                    tell_names(
                        alloc, files, memory, tree, number, part, behind, now, listing,
                    )
                }
                Ok(false) => ends(listing, whole),
                Err(_) => Answer::Refused(Errno::ENOMEM),
            }
        }
        Err(errno) => Answer::Refused(errno),
    }
}

/// Tells the names behind the part's beginning, behind `.` and `..`.
fn list_names<F: FileSystem>(
    alloc: Global,
    files: &mut F,
    memory: &Memory,
    tree: Tree<'_>,
    number: u32,
    part: Part,
    listing: Vec<u8>,
) -> Answer
    ensures { Came F.FileSystem files.old files.new
        (spec.lists (known_of memory.now) (spec.whose_of tree.entry) number part listing.items)
        result }
{
    let Some(after) = offset_behind(part.behind, 0) else {
        return Answer::Bytes(Text::new(listing));
    };
    match path_from(alloc, number, b"") {
        Ok(path) => match ask_names(files, tree, &path, after, names_asked(part)) {
            Ok(names) => {
                let whole = listing.len();
                let names = names.as_slice();
                tell_names(
                    alloc, files, memory, tree, number, part, names, whole, listing,
                )
            }
            Err(errno) => Answer::Refused(errno),
        },
        Err(_) => Answer::Refused(Errno::ENOMEM),
    }
}

/// Tells a part of the names in the directory of a number.
pub(crate) fn list<F: FileSystem>(
    alloc: Global,
    files: &mut F,
    memory: &Memory,
    tree: Tree<'_>,
    number: u32,
    part: Part,
) -> Answer
    ensures { Came F.FileSystem files.old files.new
        (spec.list (known_of memory.now) (spec.whose_of tree.entry) number part) result }
{
    let mut listing = Vec::new(alloc);
    match append_dots(&mut listing, part, inode_in(tree, number)) {
        Ok(true) => list_names(alloc, files, memory, tree, number, part, listing),
        Ok(false) => Answer::Bytes(Text::new(listing)),
        Err(_) => Answer::Refused(Errno::ENOMEM),
    }
}
