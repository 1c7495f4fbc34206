//! A changed file whose first block comes later: the inode file's, which has the inode of the block
//! map.

ghost use Rattle.std.specs.Prelude.{◌≡◌, ℕ, ◌<◌, ◌≤◌, ◌+◌, List, IfOk, OnOk, IsErrOf};
ghost use Rattle.layout.specs.Limits.{Sizes};
ghost use Rattle.layout.specs.declared.TheConstants.{BLOCK_BYTES};
ghost use Rattle.layout.specs.declared.inode.Inode.{Inode};
ghost use Rattle.layout.specs.declared.pointer.Pointer.TheVariants.{Block};
ghost use Rattle.blocktree.specs.PlaceMaps.{place_at};
ghost use Rattle.blocktree.specs.Places.{block_count};
ghost use Rattle.conspoint.specs.Blocks.{AreWholeOver};
ghost use Rattle.conspoint.specs.Drafts.{IsReserved};
ghost use Rattle.conspoint.specs.Space.{changed_blocks};
ghost use Rattle.placement.specs.Files.{HasPlacedButFirst, IsChangeOf, OnEachWith, object_block, with_first};
ghost use Rattle.placement.specs.Layouts.{AreLowest, AreSettledNodes, IsLaidOut, IsLaidOver, inode_with};
ghost use Rattle.placement.specs.Nodes.{AreAlike, AreCounted, AreSettledIn, AreWithin, height_of, node};
ghost use Rattle.placement.specs.Space.{first_stores};
ghost use Rattle.conspoint.specs.Steps.{Places};
ghost use Rattle.placement.specs.Steps.{HasBlocks, ReadsAndPlaces};

use crate::blocks::place_lowest;
use crate::file::{Laid, PlacedFile, block_count, kept_of, lay_over, placed_file};
use crate::nodes::Nodes;
use crate::settled::settled_nodes;
use blocktree::{BlockTree, PlaceMap};
use buffers::Blocks;
use conspoint::{Draft, PlanError};
use inode::Object;
use layout::{BlockNumber, Pointer};
use std::alloc::Global;

/// The places of a file's `count` blocks, over its settled nodes. The place of block 0 is only
/// reserved.
fn place_but_first(
    alloc: Global,
    draft: &mut Draft,
    tree: &BlockTree,
    settled: &Nodes,
    count: u32,
) -> Result<(PlaceMap, BlockNumber), PlanError>
    requires some { 0 < count }
    requires height { 0 < height_of settled.now }
    requires settled { AreWithin draft.old.map.count settled.now }
    requires alike { AreAlike settled.now }
    ensures step { Places (changed_blocks tree.now 1 count + 1) draft.old draft.new result }
    ensures layout { IfOk result (λ r. r.0.layout ≡ settled.now.layout) }
    ensures reserved { IfOk result (λ r. IsReserved draft.new r.1) }
    ensures first { IfOk result (λ r. place_at r.0 0 ≡ Block r.1) }
    ensures lowest { IfOk result
        (λ r. AreLowest 1 count tree.now settled.now draft.old draft.new r.0) }
{
    let mut places = place_lowest(alloc, draft, tree, 1, settled, count)?;
    let first = draft.reserve()?;
    places.set(0, Pointer::Block(first))?;
    Ok((places, first))
}

/// An object, over the nodes of its settled inode. The place of its block 0 is only reserved.
fn lay_but_first(
    alloc: Global,
    draft: &mut Draft,
    object: &Object,
    settled: &Nodes,
) -> Result<(Laid, BlockNumber), PlanError>
    requires some { BLOCK_BYTES ≤ object.now.file.size }
    requires settled { AreSettledIn draft.old.map.count settled.now }
    requires counted { AreCounted object.now.file.tree settled.now }
    ensures step { Places (first_stores object.now.file) draft.old draft.new result }
    ensures reserved { IfOk result (λ r. IsReserved draft.new r.1) }
    ensures laid { IfOk result
        (λ r. IsLaidOver object.now settled.now draft.old draft.new r.0) }
    ensures first { IfOk result (λ r. node r.0.nodes 0 0 ≡ Block r.1) }
    ensures whole { OnOk result
        (AreWholeOver object.now.file.tree 1 (block_count object.now.file.size)) }
    ensures stands { (s : Sizes) (disk : ℕ → List ℕ) (base : Inode)
        → IsChangeOf s draft.old disk base object.now
        → AreSettledNodes disk base object.now.file.tree settled.now
        → IfOk result (λ r. OnEachWith draft.new disk base (λ e.
        IsLaidOut s e (with_first (e r.1) (object_block disk object.now))
        (inode_with object.now r.0.body) r.0.nodes)) }
{
    let count = block_count(object);
    let placed = place_but_first(alloc, draft, object.file.tree(), settled, count)?;
    let (blocks, first) = placed;
    let kept = kept_of(object, count);
    let laid = lay_over(alloc, draft, object, settled, blocks, kept)?;
    Ok((laid, first))
}

/// As `place_file`, of an object of a block or more whose block 0 comes later: a place is reserved
/// for it, and the caller puts its bytes.
pub fn place_file_but_first<B: Blocks>(
    alloc: Global,
    draft: &mut Draft,
    blocks: &mut B,
    object: &Object,
) -> Result<(PlacedFile, BlockNumber), PlanError>
    requires disk { B.count blocks.old ≡ draft.old.map.count }
    requires some { BLOCK_BYTES ≤ object.now.file.size }
    ensures step { ReadsAndPlaces B.Blocks (first_stores object.now.file)
        blocks.old blocks.new draft.old draft.new result }
    ensures blocks { IfOk result (λ r. HasBlocks draft.old draft.new r.0) }
    ensures reserved { IfOk result (λ r. IsReserved draft.new r.1) }
    ensures placed { (s : Sizes) (disk : ℕ → List ℕ) (base : Inode) → B.Shows blocks.old disk
        → IsChangeOf s draft.old disk base object.now
        → IfOk result (λ r. HasPlacedButFirst s disk base object.now draft.new r.0 r.1) }
    ensures damaged { (s : Sizes) (disk : ℕ → List ℕ) (base : Inode) → B.Shows blocks.old disk
        → IsChangeOf s draft.old disk base object.now → IsErrOf result PlanError.Damaged → ⊥ }
{
    let settled = settled_nodes(alloc, blocks, object.file.tree())?;
    let all = lay_but_first(alloc, draft, object, &settled)?;
    let (laid, first) = all;
    let placed = placed_file(alloc, object, &settled, laid)?;
    Ok((placed, first))
}
