//! The directories of a tree: what they name, what is reached, and how many names each file has.

ghost use Rattle.std.specs.Prelude.{◌≡◌, ◌↔◌, ◌<◌, ◌≤◌, ◌^◌, ℕ, List, Err, IfOk, IsTrue, None, vec_len};
ghost use Rattle.layout.specs.Trees.{greatest_size};
ghost use Rattle.layout.specs.declared.trees.Layout.TheVariants.{Summed};
ghost use Rattle.layout.specs.declared.root.Root.{Root};
ghost use Rattle.images.specs.Faults.{HoldsGraph, HoldsNames};
ghost use Rattle.images.specs.Roots.{whole};
ghost use Rattle.checker.specs.Checks.{Passes};
ghost use Rattle.checker.specs.Errors.{IsCheckEndFault, ReadsForFaults};
ghost use Rattle.checker.specs.Findings.{IsNamedKind, IsTreeFinding, tree_in};
ghost use Rattle.checker.specs.Trees.{IsRootOf, IsSeen, IsTreeAt};
ghost use Rattle.std.specs.Prelude.{◌+◌, ◌/◌, IsFalse, OnOk, Some, slice_get};
ghost use Rattle.blocktree.specs.Trees.{IsSoundAt};
ghost use Rattle.layout.specs.declared.kind.Kind.TheVariants as kinds;
ghost use Rattle.layout.specs.Directory.{IsEntry, named_of};
ghost use Rattle.layout.specs.Pointer.{PointsBelow};
ghost use Rattle.layout.specs.declared.TheConstants.{BLOCK_BYTES, INODES_PER_BLOCK};
ghost use Rattle.blocktree.specs.PlaceMaps.{AreBelow};
ghost use Rattle.model.specs.Paths.{Name};
ghost use Rattle.model.specs.Volumes.{Entries, entries, with_edge};
ghost use Rattle.images.specs.Nodes.{file_block};
ghost use Rattle.images.specs.Roots.{HeldTree};
ghost use Rattle.checker.specs.Links.{AreLinked, AreReached, IsUnlinked, IsUnreached};
ghost use Rattle.checker.specs.Rows.{LeadsToRow, LeadsToRows};
ghost use Rattle.checker.specs.Seen.{KnowsSeen};
ghost use Rattle.checker.specs.Tables.{IsKnown};
ghost use Rattle.checker.specs.Names.{IsAllWalked, IsFirst, IsTable, IsUnnamed};
ghost use Rattle.checker.specs.Walks.{GoesOn, HasCounted, HasCountedRows, HasFile, IsAwaited, IsOnWay, IsToCount, LooksInto};

use crate::error::{CheckEnd, or_fault};
use crate::owners::read_inode;
use crate::seen::Seen;
use crate::table::{CACHE_LIMIT, NumberTable, forget_over, read_table};
use crate::tree::Tree;
use crate::{DirectoryFault, Fault, TreeFault, UncachedReads};
use blocktree::PlaceMap;
use images::files_hold_one_volume;
use inode::{File, based_trees_are_sound};
use layout::{
    BLOCK_BYTES, Entry, FIRST_NUMBER, Geometry, INODES_PER_BLOCK, Kind, NextEntry, Pointer,
    ROOT_NUMBER, next_entry,
};
use std::alloc::Global;

/// What a tree has of a number: the kind of its inode and its links, and how many names were found.
#[derive(Clone, Copy, Debug)]
pub(crate) struct NumberRow {
    pub(crate) kind: Kind,
    pub(crate) links: u32,
    pub(crate) names: u32,
}

/// Tests the directories of a tree: each block of entries, that no name stands twice, that each
/// leads to an object, to a directory or a link at most one, that these are reached from the root;
/// and then that each file has as many names as links.
pub(crate) fn check_names<B: UncachedReads>(
    alloc: Global,
    blocks: &mut B,
    geometry: Geometry,
    tree: &Tree,
    known: &mut Option<NumberTable>,
) -> Result<(), CheckEnd>
    ensures reads { ReadsForFaults B.Blocks IsCheckEndFault blocks.old blocks.new result }
    ensures known { (disk : ℕ → List ℕ) → B.Shows blocks.old disk
        → IsKnown disk known.old → IsKnown disk known.new }
    ensures passes { (disk : ℕ → List ℕ) (r : Root) (marks : List ℕ) → B.Shows blocks.old disk
        → IsKnown disk known.old → IsRootOf r geometry (B.count blocks.old)
        → IsSeen disk r marks tree.now → tree.now.fault ≡ None
        → Passes (λ _. HoldsGraph r.geometry.inodes (tree_in (whole disk r) tree.now.plane))
        (IsTreeFinding r (tree_in (whole disk r) tree.now.plane)) result }
{
    files_hold_one_volume();
    let now = read_table(alloc, blocks, geometry, tree, known)?;
    let mut table = Vec::from_slice(alloc, &now.rows)?;
    walk(alloc, blocks, geometry, tree, &now.places, &mut table)?;
    check_reached(&table)?;
    check_links(&table)?;
    *known = Some(now);
    Ok(())
}

/// Looks into each directory that is reached from the root.
fn walk<B: UncachedReads>(
    alloc: Global,
    blocks: &mut B,
    geometry: Geometry,
    tree: &Tree,
    places: &PlaceMap,
    table: &mut Vec<NumberRow>,
) -> Result<(), CheckEnd>
    requires table { vec_len table.old ≡ geometry.inodes }
    requires below { AreBelow (B.count blocks.old) places.now }
    ensures reads { ReadsForFaults B.Blocks IsCheckEndFault blocks.old blocks.new result }
    ensures table { vec_len table.new ≡ vec_len table.old }
    ensures walked { (disk : ℕ → List ℕ) (r : Root) → B.Shows blocks.old disk
        → IsTreeAt disk r geometry (B.count blocks.old) tree.now → LeadsToRows disk r tree.now places.now
        → IsTable r.geometry (tree_in (whole disk r) tree.now.plane) table.old.items
        → IsUnnamed table.old.items
        → Passes (λ _. (e : Entries) × (found : List ℕ)
        × IsAllWalked r.geometry (tree_in (whole disk r) tree.now.plane) e found table.new.items)
        (IsTreeFinding r (tree_in (whole disk r) tree.now.plane)) result }
{
    let _ = geometry.inodes();
    let mut found = Vec::new(alloc);
    found.push(ROOT_NUMBER)?;
    let mut next = 0;
    let mut kept = 0;
    while next < found.len() {
        let directory = found[next];
        let place = places.at(directory / INODES_PER_BLOCK);
        let size = look_into(
            alloc, blocks, geometry, tree, place, directory, table, &mut found,
        )?;
        next += 1;
        kept = forget_over(blocks, kept + size / 4096 + 2, CACHE_LIMIT);
    }
    Ok(())
}

/// Counts the names of a directory, and adds the directories among them to those that are found. It
/// tells the directory's bytes.
fn look_into<B: UncachedReads>(
    alloc: Global,
    blocks: &mut B,
    geometry: Geometry,
    tree: &Tree,
    place: Pointer,
    directory: u32,
    table: &mut Vec<NumberRow>,
    found: &mut Vec<u32>,
) -> Result<u64, CheckEnd>
    requires low { 1 ≤ directory }
    requires high { directory < geometry.inodes }
    requires below { PointsBelow (B.count blocks.old) place }
    requires table { vec_len table.old ≡ geometry.inodes }
    ensures reads { ReadsForFaults B.Blocks IsCheckEndFault blocks.old blocks.new result }
    ensures goes { GoesOn table.old.items found.old.items table.new.items found.new.items }
    ensures size { IfOk result (λ size. size ≤ greatest_size Summed) }
    ensures looked { (disk : ℕ → List ℕ) (r : Root) (e : Entries) (count : ℕ)
        → B.Shows blocks.old disk → IsTreeAt disk r geometry (B.count blocks.old) tree.now
        → LooksInto r.geometry (tree_in (whole disk r) tree.now.plane) e count found.old.items table.old.items
        → slice_get found.old.items count ≡ Some directory
        → LeadsToRow disk r (directory / INODES_PER_BLOCK) tree.now place
        → Passes (λ _. (f : Entries) × LooksInto r.geometry (tree_in (whole disk r) tree.now.plane)
        f (count + 1) found.new.items table.new.items)
        (IsTreeFinding r (tree_in (whole disk r) tree.now.plane)) result }
{
    based_trees_are_sound();
    let Some(inode) = read_inode(blocks, geometry, place, directory)? else {
        return Err(CheckEnd::Fault(Fault::Tree(TreeFault::Inode(directory))));
    };
    let file = File::load(alloc, inode)?;
    count_blocks(
        alloc,
        blocks,
        geometry.inodes(),
        &file,
        directory,
        table,
        found,
    )?;
    Ok(file.size())
}

/// Counts the names of the directory of a file.
fn count_blocks<B: UncachedReads>(
    alloc: Global,
    blocks: &mut B,
    inodes: u32,
    file: &File,
    directory: u32,
    table: &mut Vec<NumberRow>,
    found: &mut Vec<u32>,
) -> Result<(), CheckEnd>
    requires { vec_len table.old ≡ inodes }
    ensures reads { ReadsForFaults B.Blocks IsCheckEndFault blocks.old blocks.new result }
    ensures goes { GoesOn table.old.items found.old.items table.new.items found.new.items }
    ensures counted { (disk : ℕ → List ℕ) (r : Root) (t : HeldTree) (e : Entries) (count : ℕ)
        → B.Shows blocks.old disk → r.geometry.inodes ≡ inodes
        → HasFile (B.count blocks.old) disk file.now (t directory)
        → IsToCount r.geometry t directory e count found.old.items table.old.items
        → Passes (λ _. HasCountedRows r.geometry t directory (file.now.size / BLOCK_BYTES)
        (file_block (t directory)) e count found.new.items table.new.items)
        (IsTreeFinding r t) result }
    ensures sound { (disk : ℕ → List ℕ) → B.Shows blocks.old disk → OnOk result ((i : ℕ)
        → i < file.now.size / BLOCK_BYTES → IsSoundAt (B.count blocks.old) disk file.now.tree i) }
{
    let mut names = Seen::none(alloc);
    for i in 0..(file.size() / BLOCK_BYTES as u64) as u32 {
        let location = or_fault(
            file.locate(blocks, i),
            Fault::Directory(DirectoryFault::Entries {
                directory,
                block: i,
            }),
        )?;
        let bytes = file.bytes(blocks, i, location);
        count_entries(bytes, inodes, directory, i, &mut names, table, found)?;
    }
    Ok(())
}

/// Counts the names that stand in these bytes of a directory's block.
fn count_entries(
    bytes: &[u8],
    inodes: u32,
    directory: u32,
    block: u32,
    names: &mut Seen,
    table: &mut Vec<NumberRow>,
    found: &mut Vec<u32>,
) -> Result<(), CheckEnd>
    requires { vec_len table.old ≡ inodes }
    ensures device { result ≡ Err CheckEnd.Device → ⊥ }
    ensures goes { GoesOn table.old.items found.old.items table.new.items found.new.items }
    ensures counted { (r : Root) (t : HeldTree) (e : Entries) (count : ℕ)
        → r.geometry.inodes ≡ inodes
        → IsOnWay r.geometry t e count found.old.items table.old.items
        → IsFirst found.old.items count directory
        → KnowsSeen names.old (e directory)
        → ((g : HoldsNames r.geometry.inodes t) → IsAwaited r.geometry.inodes g.volume directory e bytes.now)
        → Passes (λ _. (h : HasCounted r.geometry t directory bytes.now e count found.new.items table.new.items)
        × KnowsSeen names.new (h.names directory))
        (IsTreeFinding r t) result }
{
    match next_entry(bytes, inodes) {
        NextEntry::End => Ok(()),
        NextEntry::Malformed => Err(CheckEnd::Fault(Fault::Directory(DirectoryFault::Entries {
            directory,
            block,
        }))),
        NextEntry::Entry { entry, rest } => {
            count_entry(&entry, directory, names, table, found)?;
            count_entries(rest, inodes, directory, block, names, table, found)?;
            Ok(())
        }
    }
}

/// Whether a name may lead to what has this kind.
fn may_be_named(kind: Kind) -> bool
    ensures { IsTrue result ↔ IsNamedKind kind }
{
    matches!(kind, Kind::File | Kind::Directory | Kind::Link)
}

fn is_directory(kind: Kind) -> bool
    ensures { IsTrue result ↔ (kind ≡ kinds.Directory) }
{
    matches!(kind, Kind::Directory)
}

/// Whether a name more may lead to what has this row: a file may have several, all else one.
fn takes_name(row: NumberRow) -> bool
    ensures yes { IsTrue result → (row.kind ≡ kinds.File → ⊥) → row.names ≡ 0 }
    ensures no { IsFalse result → (row.kind ≡ kinds.File → ⊥) × (row.names ≡ 0 → ⊥) }
{
    match row.kind {
        Kind::File => true,
        _ => row.names == 0,
    }
}

/// Counts one name of a directory.
fn count_entry(
    entry: &Entry<'_>,
    directory: u32,
    names: &mut Seen,
    table: &mut Vec<NumberRow>,
    found: &mut Vec<u32>,
) -> Result<(), CheckEnd>
    requires low { 1 ≤ entry.now.number }
    requires high { entry.now.number < vec_len table.old }
    ensures device { result ≡ Err CheckEnd.Device → ⊥ }
    ensures goes { GoesOn table.old.items found.old.items table.new.items found.new.items }
    ensures counted { (r : Root) (t : HeldTree) (e : Entries) (count : ℕ)
        → IsOnWay r.geometry t e count found.old.items table.old.items
        → IsFirst found.old.items count directory
        → KnowsSeen names.old (e directory)
        → IsEntry r.geometry.inodes (named_of entry.now)
        → ((g : HoldsNames r.geometry.inodes t)
        → (entries g.volume directory entry.now.name.now ≡ Some entry.now.number)
        × (e directory entry.now.name.now ≡ None))
        → Passes (λ _. (e directory entry.now.name.now ≡ None)
        × IsOnWay r.geometry t (with_edge directory entry.now.name.now (Some entry.now.number) e)
        count found.new.items table.new.items
        × KnowsSeen names.new
        (with_edge directory entry.now.name.now (Some entry.now.number) e directory))
        (IsTreeFinding r t) result }
{
    let is_new = names.add(entry.name)?;
    if !is_new {
        return Err(CheckEnd::Fault(Fault::Directory(DirectoryFault::Repeated { directory })));
    }
    count_name(entry.number.get(), directory, table, found)
}

/// Counts a name of a directory that leads to this number.
fn count_name(
    number: u32,
    directory: u32,
    table: &mut Vec<NumberRow>,
    found: &mut Vec<u32>,
) -> Result<(), CheckEnd>
    requires low { 1 ≤ number }
    requires high { number < vec_len table.old }
    ensures device { result ≡ Err CheckEnd.Device → ⊥ }
    ensures goes { GoesOn table.old.items found.old.items table.new.items found.new.items }
    ensures counted { (r : Root) (t : HeldTree) (e : Entries) (count : ℕ) (x : Name)
        → IsOnWay r.geometry t e count found.old.items table.old.items
        → IsFirst found.old.items count directory → e directory x ≡ None
        → IsEntry r.geometry.inodes (record { number = number; name = x })
        → ((g : HoldsNames r.geometry.inodes t) → entries g.volume directory x ≡ Some number)
        → Passes (λ _. IsOnWay r.geometry t (with_edge directory x (Some number) e)
        count found.new.items table.new.items) (IsTreeFinding r t) result }
{
    let row = table[number as usize];
    if !may_be_named(row.kind) {
        return Err(CheckEnd::Fault(Fault::Directory(DirectoryFault::Unused { directory, number })));
    }
    if !takes_name(row) {
        return Err(CheckEnd::Fault(Fault::Directory(DirectoryFault::Twice { number })));
    }
    // No disk has room for so many names.
    let Some(names) = row.names.checked_add(1) else {
        return Err(CheckEnd::NoMemory);
    };
    table[number as usize] = NumberRow { names, ..row };
    if !is_directory(row.kind) {
        return Ok(());
    }
    found.push(number)?;
    Ok(())
}

/// Tests that each directory but the root, and each link, has a name.
fn check_reached(table: &Vec<NumberRow>) -> Result<(), CheckEnd>
    requires { vec_len table.now < 2 ^ 32 }
    ensures device { result ≡ Err CheckEnd.Device → ⊥ }
    ensures rows { Passes (λ _. AreReached table.now.items) (IsUnreached table.now.items) result }
{
    for number in FIRST_NUMBER..table.len() as u32 {
        let named = table[number as usize];
        if named.names == 0 && (named.kind == Kind::Directory || named.kind == Kind::Link) {
            return Err(CheckEnd::Fault(Fault::Directory(DirectoryFault::Unreached { number })));
        }
    }
    Ok(())
}

/// Tests that each file has as many names as links.
fn check_links(table: &Vec<NumberRow>) -> Result<(), CheckEnd>
    requires { vec_len table.now < 2 ^ 32 }
    ensures device { result ≡ Err CheckEnd.Device → ⊥ }
    ensures rows { Passes (λ _. AreLinked table.now.items) (IsUnlinked table.now.items) result }
{
    for number in FIRST_NUMBER..table.len() as u32 {
        let NumberRow { kind, links, names } = table[number as usize];
        if kind == Kind::File && names != links {
            return Err(CheckEnd::Fault(Fault::Links {
                number,
                names,
                links,
            }));
        }
    }
    Ok(())
}
