//! Where a file's blocks lie, from the inode down.

ghost use Rattle.std.specs.Prelude.{◌≡◌, ℕ, ◌*◌, ◌^◌, ◌<◌, List, OnOk, OnErr, IfOk, IfErr, IsErrOf, slice_index_or};
ghost use Rattle.buffers.specs.Reads.{ReadsBlocks};
ghost use Rattle.buffers.specs.Errors.{IsFault};
ghost use Rattle.layout.specs.Maps.{indirect_pointer, IsIndirectBlock};
ghost use Rattle.layout.specs.Pointer.{PointsBelow};
ghost use Rattle.layout.specs.Trees.{fan_out};
ghost use Rattle.layout.specs.declared.pointer.Pointer.TheVariants.{Hole};
ghost use Rattle.blocktree.specs.Places.{follow, place, IsStoredNode, IsPath};

use buffers::{BlockError, Blocks};
use layout::{BODY_POINTERS, BlockNumber, Layout, Pointer, indirect_pointer};

/// The pointer to node `i` of `count` at this depth under an inode's pointers. Depth 0 is that of
/// the pointers themselves.
pub(crate) fn find_place<B: Blocks>(
    blocks: &mut B,
    layout: Layout,
    pointers: &[Pointer; BODY_POINTERS],
    depth: u32,
    count: u32,
    i: u32,
) -> Result<Pointer, BlockError>
    requires { i < 16 * fan_out layout ^ depth }
    ensures reads { ReadsBlocks B.Blocks IsFault blocks.old blocks.new result }
    ensures within { IfOk result (PointsBelow (B.count blocks.old)) }
    ensures place { (disk : ℕ → List ℕ) → B.Shows blocks.old disk
        → IfOk result (λ p. p ≡ place layout disk pointers.now depth i) }
    ensures sound { (disk : ℕ → List ℕ) → B.Shows blocks.old disk
        → OnOk result (IsPath layout (B.count blocks.old) disk pointers.now depth count i) }
    ensures damaged { (disk : ℕ → List ℕ) → B.Shows blocks.old disk
        → IsErrOf result BlockError.Damaged
        → IsPath layout (B.count blocks.old) disk pointers.now depth count i → ⊥ }
{
    if depth == 0 {
        let own = own_pointer(pointers, blocks.count(), i)?;
        return Ok(own);
    }
    let fan = layout.fan_out();
    let wide = count.div_ceil(fan);
    let above = find_place(blocks, layout, pointers, depth - 1, wide, i / fan)?;
    let used = count.saturating_sub(fan * (i / fan));
    let next = follow(blocks, layout, above, used, i % fan)?;
    Ok(next)
}

/// Pointer `i` of an inode, on a disk of so many blocks.
pub(crate) fn own_pointer(
    pointers: &[Pointer; BODY_POINTERS],
    blocks: u32,
    i: u32,
) -> Result<Pointer, BlockError>
    requires { i < 16 }
    ensures pointer { IfOk result (λ p. p ≡ slice_index_or pointers.now i Hole) }
    ensures within { OnOk result (PointsBelow blocks (slice_index_or pointers.now i Hole)) }
    ensures damaged { OnErr result (PointsBelow blocks (slice_index_or pointers.now i Hole) → ⊥) }
    ensures only { IfErr result (λ e. e ≡ BlockError.Damaged) }
{
    within(pointers[i as usize], blocks)
}

/// A pointer, on a disk of so many blocks.
fn within(pointer: Pointer, blocks: u32) -> Result<Pointer, BlockError>
    ensures pointer { IfOk result (λ p. p ≡ pointer) }
    ensures within { OnOk result (PointsBelow blocks pointer) }
    ensures damaged { OnErr result (PointsBelow blocks pointer → ⊥) }
    ensures only { IfErr result (λ e. e ≡ BlockError.Damaged) }
{
    match pointer {
        Pointer::Hole => Ok(Pointer::Hole),
        Pointer::Block(block) if 2 <= block.get() && block.get() < blocks => Ok(Pointer::Block(
            block,
        )),
        Pointer::Block(_) => Err(BlockError::Damaged),
    }
}

/// What pointer `i` is under one to an indirect block over `used` nodes.
fn follow<B: Blocks>(
    blocks: &mut B,
    layout: Layout,
    above: Pointer,
    used: u32,
    i: u32,
) -> Result<Pointer, BlockError>
    requires above { PointsBelow (B.count blocks.old) above }
    requires index { i < 1024 }
    ensures reads { ReadsBlocks B.Blocks IsFault blocks.old blocks.new result }
    ensures within { IfOk result (PointsBelow (B.count blocks.old)) }
    ensures pointer { (disk : ℕ → List ℕ) → B.Shows blocks.old disk
        → IfOk result (λ p. p ≡ follow disk above i) }
    ensures sound { (disk : ℕ → List ℕ) → B.Shows blocks.old disk
        → OnOk result (IsStoredNode layout (B.count blocks.old) disk used above) }
    ensures damaged { (disk : ℕ → List ℕ) → B.Shows blocks.old disk
        → IsErrOf result BlockError.Damaged
        → IsStoredNode layout (B.count blocks.old) disk used above → ⊥ }
{
    match above {
        Pointer::Hole => Ok(Pointer::Hole),
        Pointer::Block(node) => read_pointer(blocks, layout, node, used, i),
    }
}

/// Pointer `i` of an indirect block over `used` nodes.
fn read_pointer<B: Blocks>(
    blocks: &mut B,
    layout: Layout,
    node: BlockNumber,
    used: u32,
    i: u32,
) -> Result<Pointer, BlockError>
    requires place { PointsBelow (B.count blocks.old) (Pointer.Block node) }
    requires index { i < 1024 }
    ensures reads { ReadsBlocks B.Blocks IsFault blocks.old blocks.new result }
    ensures within { IfOk result (PointsBelow (B.count blocks.old)) }
    ensures pointer { (disk : ℕ → List ℕ) → B.Shows blocks.old disk
        → IfOk result (λ p. p ≡ indirect_pointer (disk node) i) }
    ensures sound { (disk : ℕ → List ℕ) → B.Shows blocks.old disk
        → OnOk result (IsIndirectBlock layout (B.count blocks.old) used (disk node)) }
    ensures damaged { (disk : ℕ → List ℕ) → B.Shows blocks.old disk
        → IsErrOf result BlockError.Damaged
        → IsIndirectBlock layout (B.count blocks.old) used (disk node) → ⊥ }
{
    blocks.make_resident(node)?;
    if !blocks.is_indirect(node, layout, used) {
        return Err(BlockError::Damaged);
    }
    // Each pointer of such a block stays on the disk: this tells nothing new.
    within(indirect_pointer(blocks.bytes(node), i), blocks.count())
}
