//! A changed file, placed.

ghost use Rattle.std.specs.Prelude.{◌≡◌, ℕ, ◌<◌, ◌≤◌, List, [], All, Contains, ◌↔◌, IfOk, OnOk, IsErrOf, min};
ghost use Rattle.layout.specs.Limits.{Sizes};
ghost use Rattle.layout.specs.declared.inode.Inode.{Inode};
ghost use Rattle.images.specs.Nodes.{held};
ghost use Rattle.images.specs.Soundness.{IsSoundFile};
ghost use Rattle.blocktree.specs.PlaceMaps.{AreBelow, EndBefore, place_at};
ghost use Rattle.blocktree.specs.Places.{block_count};
ghost use Rattle.blocktree.specs.Trees.{IsSoundAt};
ghost use Rattle.inode.specs.Files.{IsFile};
ghost use Rattle.conspoint.specs.Blocks.{AreWholeOver};
ghost use Rattle.placement.specs.Files.{HasPlaced, IsChangeOf, file_level, object_block};
ghost use Rattle.placement.specs.Layouts.{AreRaised, AreSettledNodes, Carries, IsLaidOut, IsLaidOver, StandsIn, inode_with};
ghost use Rattle.placement.specs.Nodes.{AreCounted, AreKept, AreSettledIn, AreShort, AreStored, AreWithin, HasMoved, node};
ghost use Rattle.placement.specs.Space.{file_stores};
ghost use Rattle.conspoint.specs.Steps.{Places};
ghost use Rattle.placement.specs.Steps.{HasBlocks, PlacesHeights, ReadsAndPlaces};
ghost use Rattle.buffers.specs.Reads.{ReadsBlocks};
ghost use Rattle.conspoint.specs.Errors.{IsReadFault};

use crate::blocks::place_lowest;
use crate::inline::inline_bytes;
use crate::nodes::{Nodes, body_of, changed_before, moved};
use crate::raising::raise_all;
use crate::settled::settled_nodes;
use blocktree::PlaceMap;
use buffers::Blocks;
use conspoint::{Draft, PlanError};
use inode::{Object, nodes_are_where_pointers_lead};
use layout::{BlockNumber, Body, Inode};
use std::alloc::{AllocError, Global};

/// A file that has places for all its nodes.
#[derive(Debug, Drop)]
pub struct PlacedFile {
    /// Its new inode.
    pub inode: Inode,
    /// The blocks that were given out for it.
    pub taken: Vec<BlockNumber>,
    /// The blocks that its settled inode names and the new one doesn't.
    pub freed: Vec<BlockNumber>,
}

/// The nodes of a file, and what its inode says of them.
#[derive(Debug, Drop)]
pub(crate) struct Laid {
    pub(crate) nodes: Nodes,
    pub(crate) body: Body,
    /// Of the blocks behind the first and before this one, those that aren't changed lie where the
    /// settled ones do.
    pub(crate) kept: u32,
}

/// How many blocks an object has.
pub(crate) fn block_count(object: &Object) -> u32
    ensures { result ≡ block_count object.now.file.size }
{
    object.file.size().div_ceil(4096) as u32
}

/// The level of an object's file.
fn file_level(object: &Object) -> u8
    ensures { result ≡ file_level object.now.file }
{
    object.file.tree().layout().level_of(object.file.size())
}

/// How many of an object's first `count` blocks may be as settled.
pub(crate) fn kept_of(object: &Object, count: u32) -> u32
    ensures { result ≡ min object.now.file.tree.kept count }
{
    object.file.tree().kept().min(count)
}

/// A file with these blocks, at the level that its size has, which isn't 0.
pub(crate) fn lay_over(
    alloc: Global,
    draft: &mut Draft,
    object: &Object,
    settled: &Nodes,
    blocks: PlaceMap,
    kept: u32,
) -> Result<Laid, PlanError>
    requires level { 1 ≤ file_level object.now.file }
    requires layout { settled.now.layout ≡ object.now.file.tree.layout }
    requires same { blocks.layout ≡ settled.now.layout }
    requires end { EndBefore (block_count object.now.file.size) blocks }
    requires blocks { AreBelow draft.old.map.count blocks }
    requires settled { AreSettledIn draft.old.map.count settled.now }
    ensures step { PlacesHeights (block_count object.now.file.size)
        (file_level object.now.file) settled.now blocks draft.old draft.new result }
    ensures kept { IfOk result (λ l. l.kept ≡ kept) }
    ensures raised { IfOk result (λ l. AreRaised (block_count object.now.file.size)
        (file_level object.now.file) settled.now blocks draft.old draft.new l.nodes) }
    ensures stands { (s : Sizes) (disk : ℕ → List ℕ) (base : Inode)
        → s.blocks ≡ draft.old.map.count → IsSoundFile s (held disk base)
        → AreSettledNodes disk base object.now.file.tree settled.now → IfOk result (λ l.
        Carries s draft.new disk base (place_at blocks) (inode_with object.now l.body) l.nodes) }
{
    let level = usize::from(file_level(object));
    let nodes = raise_all(alloc, draft, settled, blocks, block_count(object), level)?;
    let highest = nodes.height(level - 1);
    let body = Body::Pointers(body_of(highest));
    Ok(Laid { nodes, body, kept })
}

/// An object that isn't of level 0, over the nodes of its settled inode.
fn lay_blocks(
    alloc: Global,
    draft: &mut Draft,
    object: &Object,
    settled: &Nodes,
) -> Result<Laid, PlanError>
    requires level { 1 ≤ file_level object.now.file }
    requires settled { AreSettledIn draft.old.map.count settled.now }
    requires counted { AreCounted object.now.file.tree settled.now }
    ensures step { Places (file_stores object.now.file) draft.old draft.new result }
    ensures laid { IfOk result (IsLaidOver object.now settled.now draft.old draft.new) }
    ensures stored { IfOk result (λ l. AreStored 0 (block_count object.now.file.size)
        object.now.file.tree settled.now (node l.nodes 0)) }
    ensures whole { OnOk result
        (AreWholeOver object.now.file.tree 0 (block_count object.now.file.size)) }
    ensures stands { (s : Sizes) (disk : ℕ → List ℕ) (base : Inode)
        → IsChangeOf s draft.old disk base object.now
        → AreSettledNodes disk base object.now.file.tree settled.now
        → IfOk result (λ l.
        StandsIn s draft.new disk base object.now (inode_with object.now l.body) l.nodes) }
{
    let count = block_count(object);
    let blocks = place_lowest(alloc, draft, object.file.tree(), 0, settled, count)?;
    let kept = kept_of(object, count);
    let laid = lay_over(alloc, draft, object, settled, blocks, kept)?;
    Ok(laid)
}

/// An object of level 0: its inode has its bytes.
fn lay_inline<B: Blocks>(alloc: Global, blocks: &mut B, object: &Object) -> Result<Laid, PlanError>
    requires level { file_level object.now.file ≡ 0 }
    ensures reads { ReadsBlocks B.Blocks IsReadFault blocks.old blocks.new result }
    ensures none { IfOk result (λ l. l.nodes.heights.items ≡ []) }
    ensures kept { IfOk result (λ l. l.kept ≡ 0) }
    ensures stands { (s : Sizes) (disk : ℕ → List ℕ) (e : ℕ → List ℕ) → B.Shows blocks.old disk
        → IsFile disk object.now.file → IfOk result (λ l.
        IsLaidOut s e (object_block disk object.now) (inode_with object.now l.body) l.nodes) }
    ensures damaged { (disk : ℕ → List ℕ) → B.Shows blocks.old disk
        → IsErrOf result PlanError.Damaged
        → IsSoundAt (B.count blocks.old) disk object.now.file.tree 0 → ⊥ }
    ensures why { IsErrOf result PlanError.NoSpace → ⊥ }
{
    let body = Body::Inline(inline_bytes(blocks, &object.file)?);
    let nodes = Nodes {
        layout: object.file.tree().layout(),
        heights: Vec::new(alloc),
    };
    Ok(Laid {
        nodes,
        body,
        kept: 0,
    })
}

/// An object at the level that its size has, over the nodes of its settled inode.
fn lay<B: Blocks>(
    alloc: Global,
    draft: &mut Draft,
    blocks: &mut B,
    object: &Object,
    settled: &Nodes,
) -> Result<Laid, PlanError>
    requires settled { AreSettledIn draft.old.map.count settled.now }
    requires counted { AreCounted object.now.file.tree settled.now }
    ensures step { ReadsAndPlaces B.Blocks (file_stores object.now.file)
        blocks.old blocks.new draft.old draft.new result }
    ensures laid { IfOk result (IsLaidOver object.now settled.now draft.old draft.new) }
    ensures stored { IfOk result (λ l. 1 ≤ file_level object.now.file
        → AreStored 0 (block_count object.now.file.size) object.now.file.tree settled.now
        (node l.nodes 0)) }
    ensures whole { OnOk result (1 ≤ file_level object.now.file
        → AreWholeOver object.now.file.tree 0 (block_count object.now.file.size)) }
    ensures stands { (s : Sizes) (disk : ℕ → List ℕ) (base : Inode) → B.Shows blocks.old disk
        → IsChangeOf s draft.old disk base object.now
        → AreSettledNodes disk base object.now.file.tree settled.now
        → IfOk result (λ l.
        StandsIn s draft.new disk base object.now (inode_with object.now l.body) l.nodes) }
    ensures damaged { (s : Sizes) (disk : ℕ → List ℕ) (base : Inode) → B.Shows blocks.old disk
        → IsChangeOf s draft.old disk base object.now → s.blocks ≡ B.count blocks.old
        → IsErrOf result PlanError.Damaged → ⊥ }
{
    nodes_are_where_pointers_lead();
    if file_level(object) == 0 {
        let small = lay_inline(alloc, blocks, object)?;
        return Ok(small);
    }
    let laid = lay_blocks(alloc, draft, object, settled)?;
    Ok(laid)
}

/// What a file that is laid out comes to, over the nodes of its settled inode.
pub(crate) fn placed_file(
    alloc: Global,
    object: &Object,
    settled: &Nodes,
    laid: Laid,
) -> Result<PlacedFile, AllocError>
    requires laid { AreShort (block_count object.now.file.size) laid.nodes }
    requires counted { AreCounted object.now.file.tree settled.now }
    requires kept { AreKept laid.kept object.now.file.tree settled.now laid.nodes }
    ensures inode { IfOk result (λ p. p.inode ≡ inode_with object.now laid.body) }
    ensures taken { IfOk result (λ p. (b : ℕ)
        → Contains p.taken.items b ↔ HasMoved laid.nodes settled.now b) }
    ensures freed { IfOk result (λ p. (b : ℕ)
        → Contains p.freed.items b ↔ HasMoved settled.now laid.nodes b) }
    ensures taken_within { (count : ℕ) → AreWithin count laid.nodes
        → IfOk result (λ p. All (λ b. b < count) p.taken.items) }
    ensures freed_within { (count : ℕ) → AreWithin count settled.now
        → IfOk result (λ p. All (λ b. b < count) p.freed.items) }
{
    let Laid { nodes, body, kept } = laid;
    let tree = object.file.tree();
    let changed = changed_before(alloc, tree, kept)?;
    let count = block_count(object);
    let taken = moved(alloc, &nodes, settled, &changed, kept, count)?;
    let freed = moved(alloc, settled, &nodes, &changed, kept, tree.count())?;
    let inode = Inode {
        layout: tree.layout(),
        kind: object.status.kind,
        attributes: object.status.attributes,
        links: object.status.links,
        size: object.file.size(),
        body,
    };
    Ok(PlacedFile {
        inode,
        taken,
        freed,
    })
}

/// Gives places to the blocks of a changed object that differ from those of its settled inode, and
/// to the indirect blocks over them, and so a new inode. An indirect block under which nothing
/// moved stays where it is.
pub fn place_file<B: Blocks>(
    alloc: Global,
    draft: &mut Draft,
    blocks: &mut B,
    object: &Object,
) -> Result<PlacedFile, PlanError>
    requires { B.count blocks.old ≡ draft.old.map.count }
    ensures step { ReadsAndPlaces B.Blocks (file_stores object.now.file)
        blocks.old blocks.new draft.old draft.new result }
    ensures blocks { IfOk result (HasBlocks draft.old draft.new) }
    ensures placed { (s : Sizes) (disk : ℕ → List ℕ) (base : Inode) → B.Shows blocks.old disk
        → IsChangeOf s draft.old disk base object.now
        → IfOk result (HasPlaced s disk base object.now draft.new) }
    ensures damaged { (s : Sizes) (disk : ℕ → List ℕ) (base : Inode) → B.Shows blocks.old disk
        → IsChangeOf s draft.old disk base object.now → IsErrOf result PlanError.Damaged → ⊥ }
{
    let settled = settled_nodes(alloc, blocks, object.file.tree())?;
    let laid = lay(alloc, draft, blocks, object, &settled)?;
    let placed = placed_file(alloc, object, &settled, laid)?;
    Ok(placed)
}
