//! All that mount reads under a root.

ghost use Rattle.std.specs.Prelude.{◌≡◌, ◌≤◌, ◌⊎◌, ℕ, List, IfOk, MatchResult};
ghost use Rattle.layout.specs.Root.{IsRoot};
ghost use Rattle.layout.specs.Trees.{greatest_size};
ghost use Rattle.buffers.specs.Reads.{ReadsBlocks};
ghost use Rattle.buffers.specs.Errors.{IsFault};
ghost use Rattle.images.specs.Roots.{whole};
ghost use Rattle.images.specs.Soundness.{Detail};
ghost use Rattle.loading.specs.Images.{AreInodesIn, IsReadableIn};
ghost use Rattle.loading.specs.Loading.{LoadsUnder};

use crate::inodes::{check_inodes, own_inode};
use crate::laws::trees_read_as_held;
use crate::maps::{load_numbers, load_parts};
use blockmap::BlockMap;
use buffers::{BlockError, Blocks};
use inode::File;
use inofile::InodeFile;
use layout::{Geometry, Inode, Kind, Root};
use std::alloc::Global;

/// What memory has of an image: the block map, and the inodes.
#[derive(Debug, Drop)]
pub struct Loaded {
    pub map: BlockMap,
    pub inodes: InodeFile,
}

/// Reads the inode file, the inode map and the block map under a root, and tests them. Where the
/// root's tree is in its grammar and its block map can be read, what is loaded is what the tree
/// has, and Err comes only for want of memory and where a device call failed. `Damaged` comes where
/// an inode, a map's bytes or an indirect block over these isn't in its grammar or can't be read,
/// where the inodes don't have the kinds of their numbers, and where a map has a hole or bytes past
/// its end.
pub fn load<B: Blocks>(alloc: Global, blocks: &mut B, root: &Root) -> Result<Loaded, BlockError>
    requires root { IsRoot root.now }
    requires size { B.count blocks.old ≡ root.now.geometry.blocks }
    ensures { LoadsUnder B.Blocks blocks.old blocks.new root.now result }
{
    trees_read_as_held();
    let geometry = root.geometry;
    let file = File::load(alloc, root.inode_file)?;
    check_inodes(blocks, &file, root.version, geometry)?;
    let inode_map = own_inode(blocks, &file, 1, Kind::InodeMap, geometry)?;
    let block_map = own_inode(blocks, &file, 2, Kind::BlockMap, geometry)?;
    let numbers = load_numbers(alloc, blocks, inode_map, geometry)?;
    let parts = load_parts(alloc, blocks, block_map, geometry)?;
    let map = BlockMap::new(parts, geometry.blocks());
    let inodes = InodeFile::new(alloc, root.version, geometry, file, numbers);
    Ok(Loaded { map, inodes })
}

/// Reads the inodes of a tree of this version under the inode of its inode file: a kept tree, of
/// which only what is asked for is read. Where the tree is in its grammar, what is loaded is what
/// it has, and Err comes only for want of memory and where a device call failed. `Damaged` comes
/// where the inode of the inode map or its bytes aren't in their grammar.
pub fn load_inodes<B: Blocks>(
    alloc: Global,
    blocks: &mut B,
    version: u32,
    geometry: Geometry,
    inode_file: Inode,
) -> Result<InodeFile, BlockError>
    requires count { B.count blocks.old ≡ geometry.blocks }
    requires size { inode_file.size ≤ greatest_size inode_file.layout }
    ensures reads { ReadsBlocks B.Blocks IsFault blocks.old blocks.new result }
    ensures version { IfOk result (λ s. s.version ≡ version) }
    ensures geometry { IfOk result (λ s. s.geometry ≡ geometry) }
    ensures loads { (detail : Detail) (disk : ℕ → List ℕ) → B.Shows blocks.old disk → (r : Root)
        → r.version ≡ version → r.geometry ≡ geometry → r.inode_file ≡ inode_file → IsReadableIn detail disk r
        → MatchResult result (AreInodesIn detail disk version geometry (whole disk r).active)
        (λ e. (e ≡ BlockError.NoMemory) ⊎ (e ≡ BlockError.Device)) }
{
    trees_read_as_held();
    let _ = geometry.blocks();
    let file = File::load(alloc, inode_file)?;
    let inode_map = own_inode(blocks, &file, 1, Kind::InodeMap, geometry)?;
    let numbers = load_numbers(alloc, blocks, inode_map, geometry)?;
    Ok(InodeFile::new(alloc, version, geometry, file, numbers))
}
