//! Which node of a tree stands in a block.

ghost use Rattle.std.specs.Prelude.{◌≡◌, ◌≢◌, ◌<◌, ◌≤◌, ◌/◌, ◌%◌, ℕ, List, IfNone, IfOk, IfSome, IsFalse, IsTrue, Some};
ghost use Rattle.layout.specs.Inode.{IsInode, inode_bytes};
ghost use Rattle.layout.specs.Limits.{Sizes};
ghost use Rattle.layout.specs.Pointer.{PointsBelow};
ghost use Rattle.layout.specs.Version.{greatest_under};
ghost use Rattle.layout.specs.declared.TheConstants.{INODES_PER_BLOCK};
ghost use Rattle.layout.specs.declared.inode.Inode.{Inode};
ghost use Rattle.layout.specs.declared.pointer.Pointer.TheVariants as pointers;
ghost use Rattle.layout.specs.declared.root.Root.{Root};
ghost use Rattle.layout.specs.declared.version.TheConstants.{VERSION};
ghost use Rattle.blocktree.specs.PlaceMaps.{place_at};
ghost use Rattle.images.specs.Soundness.{IsFileGrammar};
ghost use Rattle.images.specs.Nodes.{held};
ghost use Rattle.images.specs.Roots.{inode_part, whole};
ghost use Rattle.loading.specs.Images.{IsFileOfInode};
ghost use Rattle.loading.specs.InodeBlocks.{HasKindOfPlace};
ghost use Rattle.checker.specs.Errors.{IsFault, ReadsForFaults};
ghost use Rattle.checker.specs.Findings.{StandsIn, tree_in};
ghost use Rattle.checker.specs.Rows.{LeadsToRow};
ghost use Rattle.checker.specs.Trees.{IsAloneAt, IsNode, IsOwner, IsTreeAt, SharesBlock};
ghost use Rattle.checker.specs.declared.tree.Tree.{Tree};

use crate::nodes::Shared;
use crate::table::find_places;
use crate::tree::Tree;
use crate::uncached_reads::read_block;
use crate::{CheckError, FileNode, UncachedReads};
use blocktree::PlaceMap;
use buffers::BlockError;
use images::inodes_are_what_their_bytes_spell;
use inode::{File, based_trees_are_sound, nodes_are_where_pointers_lead};
use layout::{
    BLOCK_BYTES, BlockNumber, Geometry, INODE_BYTES, INODES_PER_BLOCK, Inode, Pointer, VERSION,
};
use loading::inode_at;
use std::alloc::Global;

/// The first node of a tree, by number and then by height, that stands in a block which the tree
/// names twice, but for the node that is told of it.
pub(crate) fn first_owner<B: UncachedReads>(
    alloc: Global,
    blocks: &mut B,
    geometry: Geometry,
    tree: &Tree,
    shared: &Shared,
) -> Result<FileNode, CheckError>
    ensures reads { ReadsForFaults B.Blocks IsFault blocks.old blocks.new result }
    ensures stands { (disk : ℕ → List ℕ) (r : Root) → B.Shows blocks.old disk
        → IsTreeAt disk r geometry (B.count blocks.old) tree.now
        → SharesBlock (tree_in (whole disk r) tree.now.plane) shared.now
        → IfOk result (λ node. StandsIn (tree_in (whole disk r) tree.now.plane) node shared.now.block
        × (node ≢ shared.now.second)) }
{
    inodes_are_what_their_bytes_spell();
    nodes_are_where_pointers_lead();
    based_trees_are_sound();
    if let Some(node) = node_in(alloc, blocks, &tree.file, 0, shared)? {
        return Ok(node);
    }
    let places = find_places(alloc, blocks, &tree.file)?;
    for number in 1..geometry.inodes() {
        let place = places.at(number / INODES_PER_BLOCK);
        let Some(inode) = read_inode(blocks, geometry, place, number)? else {
            continue;
        };
        let file = File::load(alloc, inode)?;
        if let Some(node) = node_in(alloc, blocks, &file, number, shared)? {
            return Ok(node);
        }
        blocks.forget();
    }
    Ok(shared.second)
}

/// The inode of a number, whose block in the inode file is at this place; None where its bytes
/// spell none.
pub(crate) fn read_inode<B: UncachedReads>(
    blocks: &mut B,
    geometry: Geometry,
    place: Pointer,
    number: u32,
) -> Result<Option<Inode>, CheckError>
    requires low { 1 ≤ number }
    requires high { number < geometry.inodes }
    requires below { PointsBelow (B.count blocks.old) place }
    ensures reads { ReadsForFaults B.Blocks IsFault blocks.old blocks.new result }
    ensures fits { IfOk result (λ found. IfSome found (IsInode geometry)) }
    ensures is { (disk : ℕ → List ℕ) (r : Root) (tree : Tree) → B.Shows blocks.old disk
        → IsTreeAt disk r geometry (B.count blocks.old) tree
        → LeadsToRow disk r (number / INODES_PER_BLOCK) tree place
        → IfOk result (λ found. found ≡ Some (tree_in (whole disk r) tree.plane number).inode) }
{
    let Pointer::Block(at) = place else {
        return Ok(inode_in(&[0; BLOCK_BYTES], number, geometry));
    };
    if !read_block(blocks, at)? {
        return Ok(None);
    }
    Ok(inode_in(blocks.bytes(at), number, geometry))
}

/// The inode of a number, of whose block in the inode file these are the bytes; None where they
/// spell none.
fn inode_in(bytes: &[u8; BLOCK_BYTES], number: u32, geometry: Geometry) -> Option<Inode>
    requires low { 1 ≤ number }
    requires high { number < geometry.inodes }
    ensures fits { IfSome result (IsInode geometry) }
    ensures only { (i : Inode) → IsInode geometry i → i.size ≤ greatest_under VERSION
        → inode_part bytes.now (number % INODES_PER_BLOCK) ≡ inode_bytes i
        → HasKindOfPlace geometry.inodes number i.kind → result ≡ Some i }
{
    let at = INODE_BYTES * (number % INODES_PER_BLOCK) as usize;
    inode_at(&bytes[at..at + INODE_BYTES], number, VERSION, geometry)
}

/// The first node of a file that stands in a block which is named twice, but for the one that is
/// told of it.
fn node_in<B: UncachedReads>(
    alloc: Global,
    blocks: &mut B,
    file: &File,
    number: u32,
    shared: &Shared,
) -> Result<Option<FileNode>, CheckError>
    ensures reads { ReadsForFaults B.Blocks IsFault blocks.old blocks.new result }
    ensures stands { (disk : ℕ → List ℕ) (s : Sizes) (inode : Inode) → B.Shows blocks.old disk
        → IsInode s inode → IsFileOfInode inode file.now
        → IfOk result (λ found. IfSome found (IsOwner shared.now number (held disk inode))) }
    ensures alone { (disk : ℕ → List ℕ) (s : Sizes) (inode : Inode) → B.Shows blocks.old disk
        → s.blocks ≡ B.count blocks.old → IsFileGrammar s (held disk inode) → IsFileOfInode inode file.now
        → IfOk result (λ found. IfNone found ((m : ℕ) → IsAloneAt shared.now number (held disk inode) m)) }
{
    based_trees_are_sound();
    nodes_are_where_pointers_lead();
    let tree = file.tree();
    for height in 0..=tree.depth() {
        let nodes = match tree.settled_nodes(alloc, blocks, height) {
            Ok(nodes) => nodes,
            Err(BlockError::NoMemory) => return Err(CheckError::NoMemory),
            Err(BlockError::Device) => return Err(CheckError::Device),
            Err(BlockError::Damaged) => return Ok(None),
        };
        if let Some(node) = node_at(&nodes, tree.count(), number, height, shared) {
            return Ok(Some(node));
        }
    }
    Ok(None)
}

/// The first of so many nodes at a height that stands in a block which is named twice, but for the
/// one that is told of it.
fn node_at(
    nodes: &PlaceMap,
    count: u32,
    number: u32,
    height: u32,
    shared: &Shared,
) -> Option<FileNode>
    ensures found { IfSome result (λ n. (n.number ≡ number) × (n.height ≡ height) × (n.index < count)
        × (place_at nodes.now n.index ≡ pointers.Block shared.now.block) × (n ≢ shared.now.second)) }
    ensures none { IfNone result ((i : ℕ) → i < count
        → place_at nodes.now i ≡ pointers.Block shared.now.block → IsNode shared.now.second number height i) }
{
    let mut from = 0;
    while let Some(stored) = nodes.next(from, count) {
        let node = FileNode {
            number,
            height,
            index: stored.index,
        };
        if is_other(node, stored.place, shared) {
            return Some(node);
        }
        from = stored.index + 1;
    }
    None
}

/// Whether a node at a place stands in a block that is named twice, and isn't the one that is told
/// of it.
fn is_other(node: FileNode, place: BlockNumber, shared: &Shared) -> bool
    ensures other { IsTrue result → (place ≡ shared.now.block) × (node ≢ shared.now.second) }
    ensures same { IsFalse result → place ≡ shared.now.block → node ≡ shared.now.second }
{
    place.get() == shared.block && node != shared.second
}
