//! The inodes of all trees, number by number: what several trees have alike is looked at once.

ghost use Rattle.std.specs.Prelude.{◌≡◌, ◌↔◌, ◌⊎◌, ◌+◌, ◌-◌, ◌*◌, ◌<◌, ◌^◌, drop, ℕ, List, IfOk, IsTrue, OnOk, Option, Some, [], ◌++◌, ◌∷◌, length, slice_get, slice_index_or, vec_len};
ghost use Rattle.std.specs.Int.{div_ceil};
ghost use Rattle.layout.specs.Maps.{IsTaken};
ghost use Rattle.layout.specs.Pointer.{PointsBelow};
ghost use Rattle.layout.specs.Root.{IsRoot};
ghost use Rattle.layout.specs.Bytes.{zeros};
ghost use Rattle.layout.specs.declared.TheConstants.{BLOCK_BYTES, INODE_BYTES, INODES_PER_BLOCK};
ghost use Rattle.layout.specs.declared.root.Root.{Root};
ghost use Rattle.images.specs.BlockMap.{HasBit};
ghost use Rattle.images.specs.Nodes.{file_block};
ghost use Rattle.images.specs.Roots.{inode_part, whole};
ghost use Rattle.checker.specs.Errors.{IsFault, ReadsForFaults};
ghost use Rattle.checker.specs.Nodes.{KeepsMarks};
ghost use Rattle.checker.specs.declared.nodes.Shared.{Shared};
ghost use Rattle.checker.specs.Rows.{AddsToEach, AreAllBelow, ArePlacesOfTrees, AreReadAt, AreRows, AreSeenInBlock, AreSeenTo, AreTwins, ComparesBits, KeepsTrees, LeadsToRow, MarksTrees, SeesInode, row_added, rows_of};
ghost use Rattle.checker.specs.Findings.{tree_in};
ghost use Rattle.checker.specs.Trees.{IsOut, IsSeenTo};
ghost use Rattle.checker.specs.declared.tree.Tree.{Tree};

use crate::error::fault_of;
use crate::marks::Marks;
use crate::nodes::{PLANES, SharedBlocks, mark_file};
use crate::rows::Rows;
use crate::table::find_places;
use crate::tree::Tree;
use crate::{CheckError, Fault, TreeFault, UncachedReads};
use blocktree::PlaceMap;
use images::inodes_are_what_their_bytes_spell;
use inode::based_trees_are_sound;
use layout::{
    BLOCK_BYTES, FIRST_NUMBER, INODE_BYTES, INODES_PER_BLOCK, Inode, Kind, Pointer, Root, is_taken,
};
use loading::{inode_at, is_zero_from};
use std::alloc::Global;

/// Tests the inodes of the trees and the indirect blocks under them, marks the blocks that they
/// name, and compares their kinds with the inode maps. The first fault of each tree is told in it.
pub(crate) fn check_numbers<B: UncachedReads>(
    alloc: Global,
    blocks: &mut B,
    root: &Root,
    trees: &mut Vec<Tree>,
    marks: &mut Marks,
    shared: &mut SharedBlocks,
) -> Result<(), CheckError>
    requires root { IsRoot root.now }
    requires size { B.count blocks.old ≡ root.now.geometry.blocks }
    requires table { length marks.old ≡ root.now.geometry.blocks }
    ensures reads { ReadsForFaults B.Blocks IsFault blocks.old blocks.new result }
    ensures marked { MarksTrees trees.old.items trees.new.items marks.old marks.new
        shared.old.of shared.new.of }
    ensures seen { (disk : ℕ → List ℕ) → B.Shows blocks.old disk
        → AreSeenTo disk root.now 0 marks.old shared.old.of trees.old.items
        → OnOk result (AreSeenTo disk root.now (div_ceil root.now.geometry.inodes INODES_PER_BLOCK)
        marks.new shared.new.of trees.new.items) }
{
    let places = places_of_trees(alloc, blocks, trees)?;
    for i in 0..root.geometry.inodes().div_ceil(INODES_PER_BLOCK) {
        check_block(alloc, blocks, root, trees, &places, i, marks, shared)?;
        blocks.forget();
    }
    Ok(())
}

/// Where the blocks of each tree's inode file are.
fn places_of_trees<B: UncachedReads>(
    alloc: Global,
    blocks: &mut B,
    trees: &Vec<Tree>,
) -> Result<Vec<PlaceMap>, CheckError>
    ensures reads { ReadsForFaults B.Blocks IsFault blocks.old blocks.new result }
    ensures length { IfOk result (λ places. vec_len places ≡ vec_len trees.now) }
    ensures below { IfOk result (λ places. AreAllBelow (B.count blocks.old) places.items) }
    ensures places { (disk : ℕ → List ℕ) → B.Shows blocks.old disk → IfOk result (λ places.
        ArePlacesOfTrees (B.count blocks.old) disk trees.now.items places.items) }
{
    let mut places = Vec::new(alloc);
    for k in 0..trees.len() {
        let found = find_places(alloc, blocks, &trees[k].file)?;
        places.push(found)?;
    }
    Ok(places)
}

/// Looks at the inodes of block `i` of each tree's inode file.
fn check_block<B: UncachedReads>(
    alloc: Global,
    blocks: &mut B,
    root: &Root,
    trees: &mut Vec<Tree>,
    places: &Vec<PlaceMap>,
    i: u32,
    marks: &mut Marks,
    shared: &mut SharedBlocks,
) -> Result<(), CheckError>
    requires within { i < 2 ^ 16 }
    requires places { vec_len places.now ≡ vec_len trees.old }
    requires below { AreAllBelow (B.count blocks.old) places.now.items }
    requires root { IsRoot root.now }
    requires size { B.count blocks.old ≡ root.now.geometry.blocks }
    requires table { length marks.old ≡ root.now.geometry.blocks }
    ensures reads { ReadsForFaults B.Blocks IsFault blocks.old blocks.new result }
    ensures marked { MarksTrees trees.old.items trees.new.items marks.old marks.new
        shared.old.of shared.new.of }
    ensures seen { (disk : ℕ → List ℕ) → B.Shows blocks.old disk
        → ArePlacesOfTrees (B.count blocks.old) disk trees.old.items places.now.items
        → AreSeenTo disk root.now i marks.old shared.old.of trees.old.items
        → OnOk result (AreSeenTo disk root.now (i + 1) marks.new shared.new.of trees.new.items) }
{
    let rows = read_rows(alloc, blocks, trees, places, i)?;
    for place in 0..INODES_PER_BLOCK {
        let number = INODES_PER_BLOCK * i + place;
        check_number(blocks, root, trees, &rows, place, number, marks, shared)?;
    }
    check_ends(trees, &rows, i);
    Ok(())
}

/// Block `i` of each tree's inode file; of one that is out of its grammar any block.
fn read_rows<B: UncachedReads>(
    alloc: Global,
    blocks: &mut B,
    trees: &mut Vec<Tree>,
    places: &Vec<PlaceMap>,
    i: u32,
) -> Result<Rows, CheckError>
    requires places { vec_len places.now ≡ vec_len trees.old }
    requires below { AreAllBelow (B.count blocks.old) places.now.items }
    ensures reads { ReadsForFaults B.Blocks IsFault blocks.old blocks.new result }
    ensures trees { KeepsTrees trees.old.items trees.new.items }
    ensures length { IfOk result (λ rows. length (rows_of rows) ≡ vec_len trees.new) }
    ensures rows { (disk : ℕ → List ℕ) (r : Root) (marks : List ℕ)
        (shared : List (Option Shared)) → B.Shows blocks.old disk
        → IsRoot r → B.count blocks.old ≡ r.geometry.blocks
        → ArePlacesOfTrees (B.count blocks.old) disk trees.old.items places.now.items
        → AreSeenTo disk r i marks shared trees.old.items
        → IfOk result (λ rows. AreRows disk r i trees.new.items (rows_of rows)
        × AreSeenTo disk r i marks shared trees.new.items) }
{
    based_trees_are_sound();
    let mut rows = Rows::none(alloc);
    for k in 0..trees.len() {
        let place = places[k].at(i);
        read_row(alloc, blocks, &mut trees[k], place, i, &mut rows)?;
    }
    Ok(rows)
}

/// Adds block `i` of a tree's inode file, which is at this place, to those of other trees; of one
/// that is out of its grammar any block.
fn read_row<B: UncachedReads>(
    alloc: Global,
    blocks: &mut B,
    tree: &mut Tree,
    place: Pointer,
    i: u32,
    rows: &mut Rows,
) -> Result<(), CheckError>
    requires { PointsBelow (B.count blocks.old) place }
    ensures reads { ReadsForFaults B.Blocks IsFault blocks.old blocks.new result }
    ensures same { record tree.old { fault = tree.new.fault } ≡ tree.new }
    ensures added { OnOk result (rows_of rows.new
        ≡ rows_of rows.old ++ row_added rows.old rows.new ∷ []) }
    ensures read { (disk : ℕ → List ℕ) → B.Shows blocks.old disk
        → AreReadAt disk rows.old → OnOk result (AreReadAt disk rows.new) }
    ensures row { (disk : ℕ → List ℕ) (r : Root) (count places : ℕ) (marks : List ℕ)
        (shared : List (Option Shared)) → B.Shows blocks.old disk → IsRoot r
        → AreReadAt disk rows.old → LeadsToRow disk r i tree.old place
        → IsSeenTo disk r count places marks shared tree.old
        → OnOk result (IsSeenTo disk r count places marks shared tree.new
        × ((IsOut tree.new.fault → ⊥) → row_added rows.old rows.new
        ≡ file_block (tree_in (whole disk r) tree.new.plane 0) i)) }
{
    if rows.read(alloc, blocks, place)? {
        return Ok(());
    }
    tree.add(Fault::Tree(TreeFault::InodeBlock(i)));
    Ok(())
}

/// Tests that zeros stand behind the inodes of each tree's block.
fn check_ends(trees: &mut Vec<Tree>, rows: &Rows, i: u32)
    requires { length (rows_of rows.now) ≡ vec_len trees.old }
    ensures trees { KeepsTrees trees.old.items trees.new.items }
    ensures seen { (disk : ℕ → List ℕ) (r : Root) (marks : List ℕ)
        (shared : List (Option Shared)) → AreRows disk r i trees.old.items (rows_of rows.now)
        → AreSeenInBlock disk r i INODES_PER_BLOCK marks shared trees.old.items
        → AreSeenTo disk r (i + 1) marks shared trees.new.items }
{
    for k in 0..trees.len() {
        if !is_ended(rows.bytes(k)) {
            trees[k].add(Fault::Tree(TreeFault::InodeBlock(i)));
        }
    }
}

/// Whether zeros stand behind the inodes of a block.
fn is_ended(bytes: &[u8; BLOCK_BYTES]) -> bool
    ensures { IsTrue result ↔ (drop (INODE_BYTES * INODES_PER_BLOCK) bytes.now
        ≡ zeros (BLOCK_BYTES - INODE_BYTES * INODES_PER_BLOCK)) }
{
    is_zero_from(bytes, INODE_BYTES * INODES_PER_BLOCK as usize)
}

/// Looks at the inode of a number in each tree, once for all trees that have the same there.
fn check_number<B: UncachedReads>(
    blocks: &mut B,
    root: &Root,
    trees: &mut Vec<Tree>,
    rows: &Rows,
    place: u32,
    number: u32,
    marks: &mut Marks,
    shared: &mut SharedBlocks,
) -> Result<(), CheckError>
    requires place { place < INODES_PER_BLOCK }
    requires number { number < 2 ^ 32 }
    requires rows { length (rows_of rows.now) ≡ vec_len trees.old }
    requires root { IsRoot root.now }
    requires size { B.count blocks.old ≡ root.now.geometry.blocks }
    requires table { length marks.old ≡ root.now.geometry.blocks }
    ensures reads { ReadsForFaults B.Blocks IsFault blocks.old blocks.new result }
    ensures marked { MarksTrees trees.old.items trees.new.items marks.old marks.new
        shared.old.of shared.new.of }
    ensures seen { (disk : ℕ → List ℕ) (i : ℕ) → B.Shows blocks.old disk
        → number ≡ INODES_PER_BLOCK * i + place
        → AreRows disk root.now i trees.old.items (rows_of rows.now)
        → AreSeenInBlock disk root.now i place marks.old shared.old.of trees.old.items
        → OnOk result (AreRows disk root.now i trees.new.items (rows_of rows.now)
        × AreSeenInBlock disk root.now i (place + 1) marks.new shared.new.of trees.new.items) }
{
    let mut done = 0;
    for k in 0..trees.len() {
        if is_done(&trees[k], done) {
            continue;
        }
        let bits = twins(trees, rows, k, place);
        done |= bits;
        let bytes = part_of(rows, k, place);
        check_inode(blocks, root, trees, bits, bytes, number, marks, shared)?;
    }
    Ok(())
}

/// Looks at the inode that these bytes are at a number, for the trees of these bits.
fn check_inode<B: UncachedReads>(
    blocks: &mut B,
    root: &Root,
    trees: &mut Vec<Tree>,
    bits: u32,
    bytes: &[u8],
    number: u32,
    marks: &mut Marks,
    shared: &mut SharedBlocks,
) -> Result<(), CheckError>
    requires planes { (k : ℕ) → HasBit k bits → k < PLANES }
    requires root { IsRoot root.now }
    requires size { B.count blocks.old ≡ root.now.geometry.blocks }
    requires table { length marks.old ≡ root.now.geometry.blocks }
    ensures reads { ReadsForFaults B.Blocks IsFault blocks.old blocks.new result }
    ensures keeps { KeepsMarks bits marks.old marks.new shared.old.of shared.new.of }
    ensures trees { KeepsTrees trees.old.items trees.new.items }
    ensures others { (l : ℕ) (t q : Tree) → slice_get trees.old.items l ≡ Some t
        → slice_get trees.new.items l ≡ Some q → (HasBit t.plane bits → ⊥) → q ≡ t }
    ensures seen { (disk : ℕ → List ℕ) (i : ℕ) → B.Shows blocks.old disk
        → OnOk result (SeesInode disk root.now bits bytes.now number
        (IsSeenTo disk root.now i number marks.old shared.old.of)
        (IsSeenTo disk root.now i (number + 1) marks.new shared.new.of) trees.old.items trees.new.items) }
{
    inodes_are_what_their_bytes_spell();
    let Some(inode) = inode_at(bytes, number, root.version, root.geometry) else {
        add_to_each(trees, bits, Fault::Tree(TreeFault::Inode(number)));
        return Ok(());
    };
    let marked = mark_file(blocks, &inode, number, bits, marks, shared);
    if let Some(fault) = fault_of(marked)? {
        add_to_each(trees, bits, fault);
        return Ok(());
    }
    if number < root.geometry.inodes() {
        check_bits(trees, bits, number, &inode);
    }
    Ok(())
}

/// The bits of the trees from the k-th on that have the same bytes as it at a place of their
/// blocks, its own among them.
fn twins(trees: &Vec<Tree>, rows: &Rows, k: usize, place: u32) -> u32
    requires tree { k < vec_len trees.now }
    requires rows { length (rows_of rows.now) ≡ vec_len trees.now }
    requires place { place < INODES_PER_BLOCK }
    ensures { AreTwins trees.now.items (rows_of rows.now) k place result }
{
    let mut bits = trees[k].bit();
    for l in k + 1..trees.len() {
        if !trees[l].is_out() && are_twins(rows, l, k, place) {
            bits |= trees[l].bit();
        }
    }
    bits
}

/// Whether the l-th block and the k-th have the same inode at a place.
fn are_twins(rows: &Rows, l: usize, k: usize, place: u32) -> bool
    requires other { l < length (rows_of rows.now) }
    requires block { k < length (rows_of rows.now) }
    requires place { place < INODES_PER_BLOCK }
    ensures { IsTrue result ↔ (inode_part (slice_index_or (rows_of rows.now) l []) place
        ≡ inode_part (slice_index_or (rows_of rows.now) k []) place) }
{
    rows.is_shared(l, k) || part_of(rows, l, place) == part_of(rows, k, place)
}

/// The bytes of one inode of the k-th block.
fn part_of(rows: &Rows, k: usize, place: u32) -> &[u8]
    requires block { k < length (rows_of rows.now) }
    requires place { place < INODES_PER_BLOCK }
    ensures { result.now ≡ inode_part (slice_index_or (rows_of rows.now) k []) place }
{
    part(rows.bytes(k), place)
}

/// The bytes of one inode of a block.
fn part(bytes: &[u8; BLOCK_BYTES], place: u32) -> &[u8]
    requires { place < INODES_PER_BLOCK }
    ensures { result.now ≡ inode_part bytes.now place }
{
    let at = INODE_BYTES * place as usize;
    &bytes[at..at + INODE_BYTES]
}

/// The trees of these bits have a fault.
fn add_to_each(trees: &mut Vec<Tree>, bits: u32, fault: Fault)
    ensures trees { KeepsTrees trees.old.items trees.new.items }
    ensures added { AddsToEach bits fault trees.old.items trees.new.items }
{
    for k in 0..trees.len() {
        if is_among(&trees[k], bits) {
            trees[k].add(fault);
        }
    }
}

/// Whether a tree needs no look: it is out of its grammar, or one of those of these bits.
fn is_done(tree: &Tree, bits: u32) -> bool
    ensures { IsTrue result ↔ (IsOut tree.now.fault ⊎ HasBit tree.now.plane bits) }
{
    tree.is_out() || is_among(tree, bits)
}

/// Whether a tree is one of those of these bits.
fn is_among(tree: &Tree, bits: u32) -> bool
    ensures { IsTrue result ↔ HasBit tree.now.plane bits }
{
    (bits >> tree.plane) % 2 == 1
}

/// Tests that the inode maps of the trees of these bits say of a number whether its inode is in
/// use.
fn check_bits(trees: &mut Vec<Tree>, bits: u32, number: u32, inode: &Inode)
    ensures trees { KeepsTrees trees.old.items trees.new.items }
    ensures compared { ComparesBits number inode.now.kind bits trees.old.items trees.new.items }
{
    let used = is_used(number, inode.kind);
    for k in 0..trees.len() {
        if is_among(&trees[k], bits) && !trees[k].is_out() {
            let is_taken = has_bit(&trees[k].numbers, number);
            if is_taken != used {
                trees[k].add(Fault::InodeMap { number, is_taken });
            }
        }
    }
}

/// Whether a number whose inode is of this kind is in use: the file system's own are.
fn is_used(number: u32, kind: Kind) -> bool
    ensures { IsTrue result ↔ ((number < FIRST_NUMBER) ⊎ (kind ≡ Kind.Free → ⊥)) }
{
    match kind {
        Kind::Free => number < FIRST_NUMBER,
        _ => true,
    }
}

/// Whether the bytes of an inode map say that a number is in use.
fn has_bit(numbers: &Vec<u8>, number: u32) -> bool
    ensures { IsTrue result ↔ IsTaken numbers.now.items number }
{
    ((number / 8) as usize) < numbers.len() && is_taken(numbers, number)
}
