//! The nodes of a file: each is marked, and each indirect block tested.

ghost use Rattle.std.specs.Prelude.{◌≡◌, IfOk, IsFalse, IsTrue, ◌+◌, ◌-◌, ◌*◌, ◌^◌, ◌<◌, ◌≤◌, ℕ, List, None, Some, length, min, slice_index_or};
ghost use Rattle.std.specs.Int.{div_ceil};
ghost use Rattle.layout.specs.Inode.{IsInode};
ghost use Rattle.layout.specs.Limits.{Sizes};
ghost use Rattle.layout.specs.Maps.{IsIndirectBlock, indirect_pointer};
ghost use Rattle.layout.specs.Pointer.{PointsBelow};
ghost use Rattle.layout.specs.Trees.{fan_out, greatest_size, level_of};
ghost use Rattle.layout.specs.declared.trees.Layout.{Layout};
ghost use Rattle.blocktree.specs.Names.{nodes_at};
ghost use Rattle.checker.specs.Errors.{IsFault, IsCheckEndFault, ReadsForFaults};
ghost use Rattle.images.specs.BlockMap.{HasBit};
ghost use Rattle.images.specs.Nodes.{Held};
ghost use Rattle.checker.specs.Nodes.{HasNodes, IsAmong, IsAt, IsUnder, KeepsMarks, KeepsShared, MarksFile, MarksFor, MarksThese, SharesNone};

use crate::error::CheckEnd;
use crate::marks::Marks;
use crate::uncached_reads::read_into;
use crate::{CheckError, Fault, FileNode, TreeFault, UncachedReads};
use buffers::Block;
use layout::{
    BLOCK_BYTES, BODY_POINTERS, BlockNumber, Body, Inode, Layout, Pointer, SNAPSHOT_SLOTS,
    indirect_pointer, is_indirect_block,
};
use std::alloc::{AllocError, Global};

/// Trees that are marked at once, each with a bit of a block's entry: the newest root's, and those
/// of snapshots.
pub(crate) const PLANES: usize = SNAPSHOT_SLOTS + 1;

/// A block that a tree names twice, and the node that it stood for the second time.
#[derive(Clone, Copy, Debug)]
pub(crate) struct Shared {
    pub(crate) block: u32,
    pub(crate) second: FileNode,
}

/// What says how many nodes a file has: the layout of its tree, and how many blocks it has.
#[derive(Clone, Copy, Debug)]
struct Shape {
    layout: Layout,
    count: u32,
}

/// What the trees name twice, each its first such block; and memory for a block that is looked
/// through.
#[derive(Debug, Drop)]
pub(crate) struct SharedBlocks {
    pub(crate) of: [Option<Shared>; PLANES],
    block: Block,
}

impl SharedBlocks {
    pub(crate) fn none(alloc: Global) -> Result<SharedBlocks, AllocError>
        ensures { IfOk result (λ s. (k : ℕ) → SharesNone s.of k) }
    {
        let block = Block::zeroed(alloc)?;
        Ok(SharedBlocks {
            of: [None; PLANES],
            block,
        })
    }
}

/// The trees of these bits name a block that they named before.
fn add_shared(of: &mut [Option<Shared>; PLANES], bits: u32, shared: Shared)
    ensures kept { KeepsShared of.old of.new }
    ensures these { (k : ℕ) → k < PLANES → HasBit k bits → SharesNone of.old k
        → slice_index_or of.new k None ≡ Some shared }
    ensures others { (k : ℕ) → (HasBit k bits → ⊥)
        → slice_index_or of.new k None ≡ slice_index_or of.old k None }
{
    if bits == 0 {
        return;
    }
    for k in 0..PLANES {
        if (bits >> k) % 2 == 1 {
            of[k] = match of[k] {
                Some(first) => Some(first),
                None => Some(shared),
            };
        }
    }
}

/// Marks the blocks of the file of an inode for the trees of these bits, the indirect ones among
/// them. A fault is that of an indirect block outside its grammar.
pub(crate) fn mark_file<B: UncachedReads>(
    blocks: &mut B,
    inode: &Inode,
    number: u32,
    bits: u32,
    marks: &mut Marks,
    shared: &mut SharedBlocks,
) -> Result<(), CheckEnd>
    requires fits { (s : Sizes) × (s.blocks ≡ B.count blocks.old) × IsInode s inode.now }
    requires table { length marks.old ≡ B.count blocks.old }
    requires planes { (k : ℕ) → HasBit k bits → k < PLANES }
    ensures reads { ReadsForFaults B.Blocks IsCheckEndFault blocks.old blocks.new result }
    ensures keeps { KeepsMarks bits marks.old marks.new shared.old.of shared.new.of }
    ensures marked { (disk : ℕ → List ℕ) (s : Sizes) → B.Shows blocks.old disk
        → s.blocks ≡ B.count blocks.old → IsInode s inode.now
        → MarksFile disk s inode.now number bits marks.old marks.new shared.old.of shared.new.of result }
{
    let Body::Pointers(pointers) = &inode.body else {
        return Ok(());
    };
    let count = block_count(inode);
    let layout = inode.layout;
    let shape = Shape { layout, count };
    let height = top_height(inode);
    for i in 0..BODY_POINTERS {
        let node = FileNode {
            number,
            height,
            index: i as u32,
        };
        mark_top(blocks, pointers[i], node, shape, bits, marks, shared)?;
    }
    Ok(())
}

/// How many blocks the file of an inode has.
fn block_count(inode: &Inode) -> u32
    requires { inode.now.size ≤ greatest_size inode.now.layout }
    ensures { result ≡ div_ceil inode.now.size 4096 }
{
    inode.size.div_ceil(4096) as u32
}

/// The height of the nodes that the inode's pointers lead to.
fn top_height(inode: &Inode) -> u32
    ensures { result ≡ level_of inode.now.layout inode.now.size - 1 }
{
    u32::from(inode.layout.level_of(inode.size).saturating_sub(1))
}

/// Marks the node at a pointer of an inode, of a file of this shape, and those below it.
fn mark_top<B: UncachedReads>(
    blocks: &mut B,
    pointer: Pointer,
    node: FileNode,
    shape: Shape,
    bits: u32,
    marks: &mut Marks,
    shared: &mut SharedBlocks,
) -> Result<(), CheckEnd>
    requires pointer { PointsBelow (B.count blocks.old) pointer }
    requires table { length marks.old ≡ B.count blocks.old }
    requires planes { (k : ℕ) → HasBit k bits → k < PLANES }
    ensures reads { ReadsForFaults B.Blocks IsCheckEndFault blocks.old blocks.new result }
    ensures keeps { KeepsMarks bits marks.old marks.new shared.old.of shared.new.of }
    ensures marked { (disk : ℕ → List ℕ) (h : Held) → B.Shows blocks.old disk
        → h.place node.height node.index ≡ pointer → HasNodes shape.layout disk h node.height
        → MarksThese shape.layout (B.count blocks.old) disk h
        (IsUnder shape.layout node.height node.index) node.number shape.count bits marks.old marks.new shared.old.of shared.new.of result }
{
    let Pointer::Block(place) = pointer else {
        return Ok(());
    };
    if node.height == 0 {
        let _ = mark_block(place, node, bits, marks, &mut shared.of);
        return Ok(());
    }
    let pointer = Pointer::Block(place);
    mark_node(blocks, pointer, node, shape, bits, marks, shared)
}

/// Marks the node at a pointer, of a file of this shape, and those below it. The file's blocks
/// below an indirect one that all of these trees named before aren't marked again, so that none is
/// looked through twice for one tree.
fn mark_node<B: UncachedReads>(
    blocks: &mut B,
    pointer: Pointer,
    node: FileNode,
    shape: Shape,
    bits: u32,
    marks: &mut Marks,
    shared: &mut SharedBlocks,
) -> Result<(), CheckEnd>
    requires pointer { PointsBelow (B.count blocks.old) pointer }
    requires table { length marks.old ≡ B.count blocks.old }
    requires planes { (k : ℕ) → HasBit k bits → k < PLANES }
    ensures reads { ReadsForFaults B.Blocks IsCheckEndFault blocks.old blocks.new result }
    ensures keeps { KeepsMarks bits marks.old marks.new shared.old.of shared.new.of }
    ensures marked { (disk : ℕ → List ℕ) (h : Held) → B.Shows blocks.old disk
        → h.place node.height node.index ≡ pointer → HasNodes shape.layout disk h node.height
        → MarksThese shape.layout (B.count blocks.old) disk h
        (IsUnder shape.layout node.height node.index) node.number shape.count bits marks.old marks.new shared.old.of shared.new.of result }
{
    let Pointer::Block(place) = pointer else {
        return Ok(());
    };
    let before = mark_block(place, node, bits, marks, &mut shared.of);
    if node.height == 0 {
        return Ok(());
    }
    let height = node.height - 1;
    let first = first_below(shape.layout, node.index);
    let used = used_below(shape, height, node.index);
    if !read_indirect(blocks, place, shape.layout, used, &mut shared.block)? {
        return Err(CheckEnd::Fault(Fault::Tree(TreeFault::Indirect {
            number: node.number,
            block: place.get(),
        })));
    }
    let end = shape.layout.fan_out().min(used);
    if height == 0 && before == bits {
        return Ok(());
    }
    if height == 0 {
        let bytes = shared.block.bytes();
        mark_leaves(bytes, node.number, first, end, bits, marks, &mut shared.of);
        return Ok(());
    }
    let bytes = *shared.block.bytes();
    for r in 0..end {
        let below = indirect_pointer(&bytes, r);
        let node = FileNode {
            number: node.number,
            height,
            index: first + r,
        };
        mark_node(blocks, below, node, shape, bits, marks, shared)?;
    }
    Ok(())
}

/// Reads the block at a place into this one, and tells whether it is an indirect block of this
/// layout over so many nodes.
fn read_indirect<B: UncachedReads>(
    blocks: &mut B,
    place: BlockNumber,
    layout: Layout,
    used: u32,
    block: &mut Block,
) -> Result<bool, CheckError>
    requires { PointsBelow (B.count blocks.old) (Pointer.Block place) }
    ensures reads { ReadsForFaults B.Blocks IsFault blocks.old blocks.new result }
    ensures good { IfOk result (λ good. IsTrue good
        → IsIndirectBlock layout (B.count blocks.old) used block.new) }
    ensures block { (disk : ℕ → List ℕ) → B.Shows blocks.old disk
        → IfOk result (λ good. IsTrue good → block.new ≡ disk place) }
    ensures bad { (disk : ℕ → List ℕ) → B.Shows blocks.old disk → IfOk result (λ good. IsFalse good
        → IsIndirectBlock layout (B.count blocks.old) used (disk place) → ⊥) }
{
    if !read_into(blocks, place, block)? {
        return Ok(false);
    }
    Ok(is_indirect_block(block.bytes(), layout, blocks.count(), used))
}

/// Marks the file's blocks from one on, to which the first so many pointers of an indirect block
/// lead.
fn mark_leaves(
    bytes: &[u8; BLOCK_BYTES],
    number: u32,
    first: u32,
    end: u32,
    bits: u32,
    marks: &mut Marks,
    of: &mut [Option<Shared>; PLANES],
)
    requires end { end ≤ 1024 }
    requires fits { first + end < 2 ^ 32 }
    requires pointers { (r : ℕ) → r < end
        → PointsBelow (length marks.old) (indirect_pointer bytes.now r) }
    requires planes { (k : ℕ) → HasBit k bits → k < PLANES }
    ensures keeps { KeepsMarks bits marks.old marks.new of.old of.new }
    ensures marked { (layout : Layout) (h : Held)
        → ((r : ℕ) → r < end → h.place 0 (first + r) ≡ indirect_pointer bytes.now r)
        → MarksFor h (IsAmong layout 0 first (first + end)) number bits marks.old marks.new of.old of.new }
{
    for r in 0..end {
        let Pointer::Block(place) = indirect_pointer(bytes, r) else {
            continue;
        };
        let node = FileNode {
            number,
            height: 0,
            index: first + r,
        };
        let _ = mark_block(place, node, bits, marks, of);
    }
}

/// Marks the block of a node for the trees of these bits, and tells which of them named it before.
fn mark_block(
    place: BlockNumber,
    node: FileNode,
    bits: u32,
    marks: &mut Marks,
    of: &mut [Option<Shared>; PLANES],
) -> u32
    requires table { place < length marks.old }
    requires planes { (k : ℕ) → HasBit k bits → k < PLANES }
    ensures keeps { KeepsMarks bits marks.old marks.new of.old of.new }
    ensures marked { (h : Held) → h.place node.height node.index ≡ Pointer.Block place
        → MarksFor h (IsAt node) node.number bits marks.old marks.new of.old of.new }
    ensures again { result ≡ bits → (k : ℕ) → HasBit k bits → SharesNone of.new k → ⊥ }
{
    let before = marks.mark(place, bits);
    let block = place.get();
    let second = node;
    add_shared(of, before, Shared { block, second });
    before
}

/// The first node under node `index` of the height above, or the last number where it is past that.
fn first_below(layout: Layout, index: u32) -> u32
    ensures { result ≡ min (fan_out layout * index) (2 ^ 32 - 1) }
{
    layout.fan_out().saturating_mul(index)
}

/// How many nodes a file of this shape has at a height, from those under node `index` of the height
/// above on.
fn used_below(shape: Shape, height: u32, index: u32) -> u32
    ensures used { result ≡ nodes_at shape.layout shape.count height - fan_out shape.layout * index }
    ensures low { 1 ≤ result → fan_out shape.layout * index + result < 2 ^ 32 }
{
    let first = first_below(shape.layout, index);
    nodes_at(shape, height).saturating_sub(first)
}

/// How many nodes a file of this shape has at a height.
fn nodes_at(shape: Shape, height: u32) -> u32
    ensures { result ≡ nodes_at shape.layout shape.count height }
{
    if height == 0 {
        return shape.count;
    }
    nodes_at(shape, height - 1).div_ceil(shape.layout.fan_out())
}
