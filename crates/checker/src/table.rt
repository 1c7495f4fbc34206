//! The table of a tree's numbers: of each what its inode says, and how many names of it were found.

ghost use Rattle.std.specs.Prelude.{◌≡◌, ◌≤◌, ◌<◌, ◌+◌, ◌*◌, min, ℕ, List, Err, IfOk, IsFalse, IsTrue, OnOk, length, vec_len};
ghost use Rattle.layout.specs.Inode.{IsInode, inode_bytes};
ghost use Rattle.layout.specs.Limits.{Sizes};
ghost use Rattle.layout.specs.declared.TheConstants.{INODES_PER_BLOCK, INODE_BYTES};
ghost use Rattle.layout.specs.declared.inode.Inode.{Inode};
ghost use Rattle.layout.specs.declared.root.Root.{Root};
ghost use Rattle.buffers.specs.Reads.{HasOnlyRead};
ghost use Rattle.buffers.specs.Disks.{IsWhole};
ghost use Rattle.layout.specs.Places.{pointed};
ghost use Rattle.blocktree.specs.PlaceMaps.{AreBelow, place_at};
ghost use Rattle.blocktree.specs.Trees.{AreSound};
ghost use Rattle.images.specs.Roots.{whole};
ghost use Rattle.checker.specs.Errors.{IsFault, ReadsForFaults};
ghost use Rattle.checker.specs.Findings.{tree_in};
ghost use Rattle.checker.specs.Names.{IsTable, IsUnnamed};
ghost use Rattle.checker.specs.Rows.{LeadsToRows};
ghost use Rattle.checker.specs.Tables.{ArePlaces, AreRowsAt, IsKnown};
ghost use Rattle.checker.specs.Trees.{IsTreeAt};
ghost use Rattle.checker.specs.declared.error.CheckError.TheVariants as check;

use crate::names::NumberRow;
use crate::rows::is_same;
use crate::tree::Tree;
use crate::uncached_reads::read_block;
use crate::{CheckError, UncachedReads};
use blocktree::PlaceMap;
use buffers::BlockError;
use inode::{File, based_trees_are_sound};
use layout::{BLOCK_BYTES, Geometry, INODE_BYTES, INODES_PER_BLOCK, Inode, Kind, Pointer};
use std::alloc::{AllocError, Global};

/// Numbers, or blocks of directories and inodes, after which the blocks that are kept are let go
/// of.
pub(crate) const CACHE_LIMIT: u64 = 256;

/// Lets go of the blocks that are kept where these are more than that. It tells how many are kept.
pub(crate) fn forget_over<B: UncachedReads>(blocks: &mut B, kept: u64, most: u64) -> u64
    ensures few { result ≤ most }
    ensures reads { HasOnlyRead B.Blocks blocks.old blocks.new }
{
    if kept > most {
        blocks.forget();
        return 0;
    }
    kept
}

/// Rows of numbers as they were read, no name found yet, and where the blocks of inodes are that
/// they were read of.
#[derive(Drop)]
pub(crate) struct NumberTable {
    pub(crate) places: PlaceMap,
    pub(crate) rows: Vec<NumberRow>,
}

/// What the tree has of each number, no name found yet. Rows of blocks that another tree has at the
/// same place are known from it.
pub(crate) fn read_table<B: UncachedReads>(
    alloc: Global,
    blocks: &mut B,
    geometry: Geometry,
    tree: &Tree,
    known: &Option<NumberTable>,
) -> Result<NumberTable, CheckError>
    ensures reads { ReadsForFaults B.Blocks IsFault blocks.old blocks.new result }
    ensures length { IfOk result (λ now. vec_len now.rows ≡ geometry.inodes) }
    ensures below { IfOk result (λ now. AreBelow (B.count blocks.old) now.places) }
    ensures known { (disk : ℕ → List ℕ) → B.Shows blocks.old disk → IsKnown disk known.now
        → IfOk result (λ now. AreRowsAt disk now.places now.rows.items) }
    ensures places { (disk : ℕ → List ℕ) (r : Root) → B.Shows blocks.old disk
        → IsTreeAt disk r geometry (B.count blocks.old) tree.now
        → IfOk result (λ now. LeadsToRows disk r tree.now now.places) }
    ensures table { (disk : ℕ → List ℕ) (r : Root) → B.Shows blocks.old disk
        → IsKnown disk known.now → IsTreeAt disk r geometry (B.count blocks.old) tree.now
        → IfOk result (λ now. IsTable r.geometry (tree_in (whole disk r) tree.now.plane) now.rows.items
        × IsUnnamed now.rows.items) }
{
    based_trees_are_sound();
    let places = find_places(alloc, blocks, &tree.file)?;
    let rows = rows_at(alloc, blocks, geometry, &places, known)?;
    Ok(NumberTable { places, rows })
}

/// The rows of all numbers, of the blocks of inodes at these places.
fn rows_at<B: UncachedReads>(
    alloc: Global,
    blocks: &mut B,
    geometry: Geometry,
    places: &PlaceMap,
    known: &Option<NumberTable>,
) -> Result<Vec<NumberRow>, CheckError>
    requires { AreBelow (B.count blocks.old) places.now }
    ensures reads { ReadsForFaults B.Blocks IsFault blocks.old blocks.new result }
    ensures length { IfOk result (λ rows. vec_len rows ≡ geometry.inodes) }
    ensures rows { (disk : ℕ → List ℕ) → B.Shows blocks.old disk → IsKnown disk known.now
        → IfOk result (λ rows. AreRowsAt disk places.now rows.items) }
{
    let mut rows = Vec::new(alloc);
    let mut kept = 0;
    for i in 0..geometry.inodes().div_ceil(INODES_PER_BLOCK) {
        if take_rows(known, places, geometry, i, &mut rows)? {
            continue;
        }
        read_rows(blocks, places, geometry, i, &mut rows)?;
        kept = forget_over(blocks, kept + 1, CACHE_LIMIT);
    }
    Ok(rows)
}

/// Adds the rows of block `i` of those at these places, where they are known. It tells whether they
/// are.
fn take_rows(
    known: &Option<NumberTable>,
    places: &PlaceMap,
    geometry: Geometry,
    i: u32,
    rows: &mut Vec<NumberRow>,
) -> Result<bool, AllocError>
    requires block { INODES_PER_BLOCK * i < geometry.inodes }
    requires length { vec_len rows.old ≡ INODES_PER_BLOCK * i }
    ensures length { IfOk result (λ taken. IsTrue taken
        → vec_len rows.new ≡ min (INODES_PER_BLOCK * (i + 1)) geometry.inodes) }
    ensures none { IfOk result (λ taken. IsFalse taken → rows.new ≡ rows.old) }
    ensures rows { (disk : ℕ → List ℕ) → IsKnown disk known.now
        → AreRowsAt disk places.now rows.old.items
        → IfOk result (λ taken. IsTrue taken → AreRowsAt disk places.now rows.new.items) }
{
    let Some(known) = known else {
        return Ok(false);
    };
    let from = (INODES_PER_BLOCK * i) as usize;
    let to = (from + INODES_PER_BLOCK as usize).min(geometry.inodes() as usize);
    if known.rows.len() < to {
        return Ok(false);
    }
    let there = known.places.at(i);
    let here = places.at(i);
    if !is_same(there, here) {
        return Ok(false);
    }
    rows.extend_from_slice(&known.rows[from..to])?;
    Ok(true)
}

/// Where the blocks of a file are: nowhere, where one over them is out of its grammar.
pub(crate) fn find_places<B: UncachedReads>(
    alloc: Global,
    blocks: &mut B,
    file: &File,
) -> Result<PlaceMap, CheckError>
    ensures reads { ReadsForFaults B.Blocks IsFault blocks.old blocks.new result }
    ensures below { IfOk result (AreBelow (B.count blocks.old)) }
    ensures places { (disk : ℕ → List ℕ) → B.Shows blocks.old disk
        → AreSound (B.count blocks.old) disk file.now.tree
        → IfOk result (ArePlaces disk file.now.tree) }
{
    match file.tree().settled_nodes(alloc, blocks, 0) {
        Ok(places) => Ok(places),
        Err(BlockError::NoMemory) => Err(CheckError::NoMemory),
        Err(BlockError::Device) => Err(CheckError::Device),
        Err(BlockError::Damaged) => Ok(PlaceMap::new(alloc, file.tree().layout())),
    }
}

/// Adds the rows of the numbers in block `i` of those at these places.
fn read_rows<B: UncachedReads>(
    blocks: &mut B,
    places: &PlaceMap,
    geometry: Geometry,
    i: u32,
    rows: &mut Vec<NumberRow>,
) -> Result<(), CheckError>
    requires below { AreBelow (B.count blocks.old) places.now }
    requires block { INODES_PER_BLOCK * i < geometry.inodes }
    requires length { vec_len rows.old ≡ INODES_PER_BLOCK * i }
    ensures reads { ReadsForFaults B.Blocks IsFault blocks.old blocks.new result }
    ensures length { OnOk result (vec_len rows.new ≡ min (INODES_PER_BLOCK * (i + 1)) geometry.inodes) }
    ensures rows { (disk : ℕ → List ℕ) → B.Shows blocks.old disk
        → AreRowsAt disk places.now rows.old.items
        → OnOk result (AreRowsAt disk places.now rows.new.items) }
{
    let place = places.at(i);
    let Pointer::Block(at) = place else {
        return add_rows(&[0; BLOCK_BYTES], geometry, i, rows);
    };
    if !read_block(blocks, at)? {
        return add_rows(&[0; BLOCK_BYTES], geometry, i, rows);
    }
    add_rows(blocks.bytes(at), geometry, i, rows)
}

/// Adds the rows of the numbers whose inodes stand in these bytes of block `i`.
fn add_rows(
    bytes: &[u8; BLOCK_BYTES],
    geometry: Geometry,
    i: u32,
    rows: &mut Vec<NumberRow>,
) -> Result<(), CheckError>
    requires block { INODES_PER_BLOCK * i < geometry.inodes }
    requires length { vec_len rows.old ≡ INODES_PER_BLOCK * i }
    ensures device { result ≡ Err check.Device → ⊥ }
    ensures length { OnOk result (vec_len rows.new ≡ min (INODES_PER_BLOCK * (i + 1)) geometry.inodes) }
    ensures rows { (disk : ℕ → List ℕ) (places : PlaceMap)
        → (IsWhole (pointed disk (place_at places i)) → bytes.now ≡ pointed disk (place_at places i))
        → AreRowsAt disk places rows.old.items → OnOk result (AreRowsAt disk places rows.new.items) }
{
    for place in 0..INODES_PER_BLOCK.min(geometry.inodes() - INODES_PER_BLOCK * i) {
        let at = INODE_BYTES * place as usize;
        let row = row_of(&bytes[at..at + INODE_BYTES]);
        rows.push(row)?;
    }
    Ok(())
}

/// The row of an inode, no name found yet.
fn row_of(bytes: &[u8]) -> NumberRow
    requires { length bytes.now ≡ INODE_BYTES }
    ensures unnamed { result.names ≡ 0 }
    ensures inode { (s : Sizes) (i : Inode) → IsInode s i → bytes.now ≡ inode_bytes i
        → (result.kind ≡ i.kind) × (result.links ≡ i.links) }
{
    let (kind, links) = Inode::kind_and_links(bytes).unwrap_or((Kind::Free, 0));
    NumberRow {
        kind,
        links,
        names: 0,
    }
}
