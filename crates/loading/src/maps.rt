//! The inode map and the block map, read from their files.

ghost use Rattle.std.specs.Prelude.{◌≡◌, ◌≢◌, ℕ, ◌/◌, ◌<◌, ◌≤◌, List, IsTrue, IsFalse, OnOk, IfOk, IsErrOf, length, vec_len};
ghost use Rattle.std.specs.Int.{div_ceil};
ghost use Rattle.layout.specs.FileBytes.{EndsAt};
ghost use Rattle.layout.specs.Inode.{IsInode};
ghost use Rattle.layout.specs.Maps.{IsInodeMap};
ghost use Rattle.layout.specs.declared.TheConstants.{BLOCK_POINTERS};
ghost use Rattle.layout.specs.declared.kind.Kind.TheVariants as kinds;
ghost use Rattle.layout.specs.declared.pointer.Pointer.TheVariants.{Hole};
ghost use Rattle.layout.specs.Trees.{greatest_size};
ghost use Rattle.buffers.specs.Reads.{ReadsBlocks};
ghost use Rattle.buffers.specs.Errors.{IsFault};
ghost use Rattle.blocktree.specs.PlaceMaps.{place_at};
ghost use Rattle.blocktree.specs.Places.{block_count};
ghost use Rattle.blocktree.specs.Trees.{AreSound, IsSoundAt};
ghost use Rattle.inode.specs.Bases.{StartsFrom, StartsUnchanged};
ghost use Rattle.inode.specs.Bodies.{inode_block};
ghost use Rattle.inode.specs.Files.{byte_at, bytes_of_file, file_block};
ghost use Rattle.loading.specs.Readings.{AreParts, AreUnchanged, HasAllPlaces, IsBodyPath, IsMapFile, IsWholeBody, inode_bytes_of};

use crate::inodes::is_zero_from;
use blockmap::MapPart;
use blocktree::PlaceMap;
use buffers::{BlockError, Blocks};
use inode::File;
use layout::{BLOCK_POINTERS, Geometry, Inode, is_inode_map};
use std::alloc::Global;

/// The bytes of the inode map whose settled inode this is.
pub fn load_numbers<B: Blocks>(
    alloc: Global,
    blocks: &mut B,
    inode: Inode,
    geometry: Geometry,
) -> Result<Vec<u8>, BlockError>
    requires is { IsInode geometry inode }
    requires kind { inode.kind ≡ kinds.InodeMap }
    ensures reads { ReadsBlocks B.Blocks IsFault blocks.old blocks.new result }
    ensures size { IfOk result (λ v. vec_len v ≡ div_ceil geometry.inodes 8) }
    ensures map { IfOk result (λ v. IsInodeMap 0 geometry.inodes v.items) }
    ensures file { (disk : ℕ → List ℕ) → B.Shows blocks.old disk
        → OnOk result (IsMapFile disk inode) }
    ensures whole { (disk : ℕ → List ℕ) → B.Shows blocks.old disk
        → OnOk result (IsWholeBody inode.layout disk inode.body inode.size) }
    ensures bytes { (disk : ℕ → List ℕ) → B.Shows blocks.old disk
        → IfOk result (λ v. v.items ≡ inode_bytes_of disk inode) }
    ensures damaged { (disk : ℕ → List ℕ) → B.Shows blocks.old disk
        → IsErrOf result BlockError.Damaged
        → ((i : ℕ) → IsBodyPath inode.layout (B.count blocks.old) disk inode.body inode.size i)
        → IsWholeBody inode.layout disk inode.body inode.size → IsMapFile disk inode
        → IsInodeMap 0 geometry.inodes (inode_bytes_of disk inode) → ⊥ }
{
    let inodes = geometry.inodes();
    let file = map_file(alloc, blocks, inode)?;
    let bytes = read_all(alloc, blocks, &file)?;
    if is_inode_map(&bytes, 0, inodes) {
        Ok(bytes)
    } else {
        Err(BlockError::Damaged)
    }
}

/// All bytes of a file.
fn read_all<B: Blocks>(alloc: Global, blocks: &mut B, file: &File) -> Result<Vec<u8>, BlockError>
    ensures reads { ReadsBlocks B.Blocks IsFault blocks.old blocks.new result }
    ensures size { IfOk result (λ v. vec_len v ≡ file.now.size) }
    ensures bytes { (disk : ℕ → List ℕ) → B.Shows blocks.old disk
        → IfOk result (λ v. v.items ≡ bytes_of_file disk file.now) }
    ensures sound { (disk : ℕ → List ℕ) → B.Shows blocks.old disk → OnOk result ((i : ℕ)
        → i < block_count file.now.size → IsSoundAt (B.count blocks.old) disk file.now.tree i) }
    ensures damaged { (disk : ℕ → List ℕ) → B.Shows blocks.old disk
        → IsErrOf result BlockError.Damaged
        → ((i : ℕ) → IsSoundAt (B.count blocks.old) disk file.now.tree i) → ⊥ }
{
    let mut bytes = vec![in alloc; 0u8; file.size() as usize]?;
    file.read_at(blocks, 0, &mut bytes)?;
    Ok(bytes)
}

/// The parts of the block map whose settled inode this is.
pub(crate) fn load_parts<B: Blocks>(
    alloc: Global,
    blocks: &mut B,
    inode: Inode,
    geometry: Geometry,
) -> Result<Vec<MapPart>, BlockError>
    requires is { IsInode geometry inode }
    requires kind { inode.kind ≡ kinds.BlockMap }
    ensures reads { ReadsBlocks B.Blocks IsFault blocks.old blocks.new result }
    ensures size { IfOk result
        (λ parts. length parts.items ≡ div_ceil geometry.blocks BLOCK_POINTERS) }
    ensures file { (disk : ℕ → List ℕ) → B.Shows blocks.old disk
        → OnOk result (IsMapFile disk inode) }
    ensures parts { (disk : ℕ → List ℕ) → B.Shows blocks.old disk
        → IfOk result (λ parts. AreParts (inode_block disk inode)
        (div_ceil geometry.blocks BLOCK_POINTERS) parts.items) }
    ensures unchanged { IfOk result (λ parts. AreUnchanged parts.items) }
    ensures damaged { (disk : ℕ → List ℕ) → B.Shows blocks.old disk
        → IsErrOf result BlockError.Damaged
        → ((i : ℕ) → IsBodyPath inode.layout (B.count blocks.old) disk inode.body inode.size i)
        → IsWholeBody inode.layout disk inode.body inode.size → IsMapFile disk inode → ⊥ }
{
    let file = map_file(alloc, blocks, inode)?;
    let mut parts = Vec::new(alloc);
    for j in 0..geometry.blocks().div_ceil(BLOCK_POINTERS as u32) {
        let location = file.locate(blocks, j)?;
        let part = MapPart::read(alloc, file.bytes(blocks, j, location))?;
        parts.push(part)?;
    }
    Ok(parts)
}

/// The file of a map: all of its blocks are stored, and zeros stand past its end. Of its blocks
/// only the last one is read.
pub fn map_file<B: Blocks>(alloc: Global, blocks: &mut B, inode: Inode) -> Result<File, BlockError>
    requires { inode.size ≤ greatest_size inode.layout }
    ensures reads { ReadsBlocks B.Blocks IsFault blocks.old blocks.new result }
    ensures size { IfOk result (λ f. f.size ≡ inode.size) }
    ensures blocks { IfOk result (λ f. (disk : ℕ → List ℕ) (i : ℕ)
        → file_block disk f i ≡ inode_block disk inode i) }
    ensures starts { IfOk result (λ f. StartsFrom inode.layout inode.body inode.size f.tree) }
    ensures unchanged { IfOk result (λ f. StartsUnchanged inode.body f.tree) }
    ensures file { (disk : ℕ → List ℕ) → B.Shows blocks.old disk
        → OnOk result (IsMapFile disk inode) }
    ensures damaged { (disk : ℕ → List ℕ) → B.Shows blocks.old disk
        → IsErrOf result BlockError.Damaged
        → ((i : ℕ) → IsBodyPath inode.layout (B.count blocks.old) disk inode.body inode.size i)
        → IsMapFile disk inode → ⊥ }
{
    let file = File::load(alloc, inode)?;
    check_stored(alloc, blocks, &file)?;
    check_end(blocks, &file)?;
    Ok(file)
}

/// Tests that each block that the settled inode counts is stored.
fn check_stored<B: Blocks>(alloc: Global, blocks: &mut B, file: &File) -> Result<(), BlockError>
    ensures reads { ReadsBlocks B.Blocks IsFault blocks.old blocks.new result }
    ensures stored { (disk : ℕ → List ℕ) → B.Shows blocks.old disk
        → OnOk result (HasAllPlaces disk file.now.tree) }
    ensures damaged { (disk : ℕ → List ℕ) → B.Shows blocks.old disk
        → IsErrOf result BlockError.Damaged
        → AreSound (B.count blocks.old) disk file.now.tree
        → HasAllPlaces disk file.now.tree → ⊥ }
{
    let tree = file.tree();
    let places = tree.settled_nodes(alloc, blocks, 0)?;
    if has_hole(&places, tree.count()) {
        return Err(BlockError::Damaged);
    }
    Ok(())
}

/// Whether one of so many nodes is a hole.
fn has_hole(places: &PlaceMap, count: u32) -> bool
    ensures one { IsTrue result → (i : ℕ) × (i < count) × (place_at places.now i ≡ Hole) }
    ensures none { IsFalse result → (i : ℕ) → i < count → place_at places.now i ≢ Hole }
{
    let mut from = 0;
    while let Some(node) = places.next(from, count) {
        if from < node.index {
            return true;
        }
        from = node.index + 1;
    }
    from < count
}

/// Tests that zeros stand past a file's end in its last block.
fn check_end<B: Blocks>(blocks: &mut B, file: &File) -> Result<(), BlockError>
    ensures reads { ReadsBlocks B.Blocks IsFault blocks.old blocks.new result }
    ensures ends { (disk : ℕ → List ℕ) → B.Shows blocks.old disk
        → OnOk result ((p : ℕ) → file.now.size ≤ p → p / 4096 ≡ file.now.size / 4096
        → byte_at disk file.now p ≡ 0) }
    ensures sound { (disk : ℕ → List ℕ) → B.Shows blocks.old disk
        → OnOk result (IsSoundAt (B.count blocks.old) disk file.now.tree (file.now.size / 4096)) }
    ensures damaged { (disk : ℕ → List ℕ) → B.Shows blocks.old disk
        → IsErrOf result BlockError.Damaged
        → IsSoundAt (B.count blocks.old) disk file.now.tree (file.now.size / 4096)
        → EndsAt file.now.size (byte_at disk file.now) → ⊥ }
{
    let size = file.size();
    let last = (size / 4096) as u32;
    let location = file.locate(blocks, last)?;
    if is_zero_from(file.bytes(blocks, last, location), (size % 4096) as usize) {
        Ok(())
    } else {
        Err(BlockError::Damaged)
    }
}
