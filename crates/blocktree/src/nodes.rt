//! The places of a settled file's nodes, read from the inode down: each indirect block that is
//! stored is read and tested once.

ghost use Rattle.std.specs.Prelude.{◌≡◌, ◌⊎◌, ℕ, ◌+◌, ◌-◌, ◌*◌, ◌/◌, ◌%◌, ◌^◌, ◌<◌, ◌≤◌, List, OnOk, IfErr, IfOk, IsErrOf, slice_index_or};
ghost use Rattle.std.specs.Int.{div_ceil};
ghost use Rattle.buffers.specs.Reads.{ReadsBlocks};
ghost use Rattle.buffers.specs.Errors.{IsFault};
ghost use Rattle.blocktree.specs.PlaceMaps.{AreBelow, EndBefore, place_at};
ghost use Rattle.blocktree.specs.Places.{follow, place, IsStoredNode, IsPath};
ghost use Rattle.layout.specs.Maps.{indirect_pointer, IsIndirectBlock};
ghost use Rattle.layout.specs.Pointer.{PointsBelow};
ghost use Rattle.layout.specs.Trees.{fan_out};
ghost use Rattle.layout.specs.declared.pointer.Pointer.TheVariants.{Hole};

use crate::place::own_pointer;
use crate::place_map::PlaceMap;
use buffers::{BlockError, Blocks};
use layout::{
    BLOCK_BYTES, BODY_POINTERS, BlockNumber, Layout, Pointer, indirect_pointer, is_indirect_block,
};
use std::alloc::{AllocError, Global};

/// The first `count` of an inode's pointers, on a disk of so many blocks.
fn own_places(
    alloc: Global,
    layout: Layout,
    pointers: &[Pointer; BODY_POINTERS],
    blocks: u32,
    count: u32,
) -> Result<PlaceMap, BlockError>
    requires { count ≤ 16 }
    ensures within { IfOk result (AreBelow blocks) }
    ensures end { IfOk result (EndBefore count) }
    ensures nodes { IfOk result (λ p. (i : ℕ) → i < count
        → place_at p i ≡ slice_index_or pointers.now i Hole) }
    ensures damaged { IsErrOf result BlockError.Damaged → ((i : ℕ) → i < count
        → PointsBelow blocks (slice_index_or pointers.now i Hole)) → ⊥ }
    ensures only { IfErr result (λ e. (e ≡ BlockError.Damaged) ⊎ (e ≡ BlockError.NoMemory)) }
    ensures layout { IfOk result (λ p. p.layout ≡ layout) }
{
    let mut places = PlaceMap::new(alloc, layout);
    for i in 0..count {
        let pointer = own_pointer(pointers, blocks, i)?;
        places.set(i, pointer)?;
    }
    Ok(places)
}

/// Has the pointers of an indirect block as those to the nodes of group `j`, which are holes so
/// far.
fn put_group(
    layout: Layout,
    j: u32,
    bytes: &[u8; BLOCK_BYTES],
    places: &mut PlaceMap,
) -> Result<(), AllocError>
    requires layout { places.old.layout ≡ layout }
    requires holes { (i : ℕ) → fan_out layout * j ≤ i → place_at places.old i ≡ Hole }
    ensures before { OnOk result ((i : ℕ) → i < fan_out layout * j
        → place_at places.new i ≡ place_at places.old i) }
    ensures group { OnOk result ((r : ℕ) → r < fan_out layout
        → place_at places.new (fan_out layout * j + r) ≡ indirect_pointer bytes.now r) }
    ensures behind { OnOk result (EndBefore (fan_out layout * j + fan_out layout) places.new) }
    ensures layout { OnOk result (places.new.layout ≡ layout) }
{
    places.put_spelled(j, bytes)?;
    Ok(())
}

/// Reads the indirect block over group `j` of `count` nodes, and has its pointers as those to the
/// nodes of the group, which are holes so far, as all behind it.
fn add_group<B: Blocks>(
    blocks: &mut B,
    layout: Layout,
    node: BlockNumber,
    j: u32,
    count: u32,
    places: &mut PlaceMap,
) -> Result<(), BlockError>
    requires place { PointsBelow (B.count blocks.old) (Pointer.Block node) }
    requires layout { places.old.layout ≡ layout }
    requires index { fan_out layout * j < count }
    requires within { AreBelow (B.count blocks.old) places.old }
    requires end { EndBefore (fan_out layout * j) places.old }
    ensures reads { ReadsBlocks B.Blocks IsFault blocks.old blocks.new result }
    ensures within { OnOk result (AreBelow (B.count blocks.old) places.new) }
    ensures before { OnOk result ((i : ℕ) → i < fan_out layout * j
        → place_at places.new i ≡ place_at places.old i) }
    ensures group { (disk : ℕ → List ℕ) → B.Shows blocks.old disk → OnOk result ((r : ℕ)
        → r < fan_out layout
        → place_at places.new (fan_out layout * j + r) ≡ indirect_pointer (disk node) r) }
    ensures behind { OnOk result (EndBefore (fan_out layout * j + fan_out layout) places.new) }
    ensures end { OnOk result (EndBefore count places.new) }
    ensures sound { (disk : ℕ → List ℕ) → B.Shows blocks.old disk → OnOk result
        (IsIndirectBlock layout (B.count blocks.old) (count - fan_out layout * j) (disk node)) }
    ensures damaged { (disk : ℕ → List ℕ) → B.Shows blocks.old disk
        → IsErrOf result BlockError.Damaged
        → IsIndirectBlock layout (B.count blocks.old) (count - fan_out layout * j) (disk node)
        → ⊥ }
    ensures layout { OnOk result (places.new.layout ≡ layout) }
{
    blocks.make_resident(node)?;
    let bytes = blocks.bytes(node);
    let used = count - layout.fan_out() * j;
    if !is_indirect_block(bytes, layout, blocks.count(), used) {
        return Err(BlockError::Damaged);
    }
    put_group(layout, j, bytes, places)?;
    Ok(())
}

/// The places of the first `count` nodes under nodes of the next height.
fn places_under<B: Blocks>(
    alloc: Global,
    blocks: &mut B,
    layout: Layout,
    above: &PlaceMap,
    count: u32,
) -> Result<PlaceMap, BlockError>
    requires { AreBelow (B.count blocks.old) above.now }
    ensures reads { ReadsBlocks B.Blocks IsFault blocks.old blocks.new result }
    ensures within { IfOk result (AreBelow (B.count blocks.old)) }
    ensures end { IfOk result (EndBefore count) }
    ensures nodes { (disk : ℕ → List ℕ) → B.Shows blocks.old disk
        → IfOk result (λ p. (i : ℕ) → i < count
        → place_at p i ≡ follow disk (place_at above.now (i / fan_out layout)) (i % fan_out layout)) }
    ensures sound { (disk : ℕ → List ℕ) → B.Shows blocks.old disk → OnOk result ((j : ℕ)
        → j < div_ceil count (fan_out layout)
        → IsStoredNode layout (B.count blocks.old) disk (count - fan_out layout * j)
        (place_at above.now j)) }
    ensures damaged { (disk : ℕ → List ℕ) → B.Shows blocks.old disk
        → IsErrOf result BlockError.Damaged → ((j : ℕ) → j < div_ceil count (fan_out layout)
        → IsStoredNode layout (B.count blocks.old) disk (count - fan_out layout * j)
        (place_at above.now j)) → ⊥ }
    ensures layout { IfOk result (λ p. p.layout ≡ layout) }
{
    let groups = count.div_ceil(layout.fan_out());
    let mut places = PlaceMap::new(alloc, layout);
    let mut from = 0;
    while let Some(node) = above.next(from, groups) {
        add_group(blocks, layout, node.place, node.index, count, &mut places)?;
        from = node.index + 1;
    }
    Ok(places)
}

/// The places of the first `count` nodes at this depth under an inode's pointers.
pub(crate) fn read_places<B: Blocks>(
    alloc: Global,
    blocks: &mut B,
    layout: Layout,
    pointers: &[Pointer; BODY_POINTERS],
    depth: u32,
    count: u32,
) -> Result<PlaceMap, BlockError>
    requires { count ≤ 16 * fan_out layout ^ depth }
    ensures reads { ReadsBlocks B.Blocks IsFault blocks.old blocks.new result }
    ensures within { IfOk result (AreBelow (B.count blocks.old)) }
    ensures end { IfOk result (EndBefore count) }
    ensures nodes { (disk : ℕ → List ℕ) → B.Shows blocks.old disk
        → IfOk result (λ p. (i : ℕ) → i < count
        → place_at p i ≡ place layout disk pointers.now depth i) }
    ensures sound { (disk : ℕ → List ℕ) → B.Shows blocks.old disk → OnOk result ((i : ℕ)
        → i < count → IsPath layout (B.count blocks.old) disk pointers.now depth count i) }
    ensures damaged { (disk : ℕ → List ℕ) → B.Shows blocks.old disk
        → IsErrOf result BlockError.Damaged
        → ((i : ℕ) → i < count → IsPath layout (B.count blocks.old) disk pointers.now depth count i)
        → ⊥ }
    ensures layout { IfOk result (λ p. p.layout ≡ layout) }
{
    if depth == 0 {
        let own = own_places(alloc, layout, pointers, blocks.count(), count)?;
        return Ok(own);
    }
    let wide = count.div_ceil(layout.fan_out());
    let above = read_places(alloc, blocks, layout, pointers, depth - 1, wide)?;
    let places = places_under(alloc, blocks, layout, &above, count)?;
    Ok(places)
}
