//! The block map's own file: where its nodes stand after the point, and its inode.

ghost use Rattle.std.specs.Prelude.{◌≡◌, ◌≢◌, ℕ, ◌+◌, ◌*◌, ◌<◌, ◌≤◌, All, IfOk, OnOk, length, nat_lt, nat_le, if◌then◌else◌};
ghost use Rattle.std.specs.Int.{div_ceil};
ghost use Rattle.layout.specs.Maps.{indirect_pointer};
ghost use Rattle.layout.specs.Pointer.{PointsBelow};
ghost use Rattle.layout.specs.declared.TheConstants.{BLOCK_POINTERS, BODY_POINTERS};
ghost use Rattle.layout.specs.declared.geometry.TheConstants.{MOST_BLOCKS};
ghost use Rattle.layout.specs.declared.pointer.Pointer.TheVariants.{Hole};
ghost use Rattle.model.specs.Attributes.{no_attributes};
ghost use Rattle.blockmap.specs.Maps.{IsTouched};
ghost use Rattle.conspoint.specs.Closures.{IsInTouchedPart};
ghost use Rattle.conspoint.specs.Drafts.{OnEach, IsReserved};
ghost use Rattle.conspoint.specs.Groups.{pointer_at};
ghost use Rattle.conspoint.specs.MapFiles.{map_nodes, or_settled, node_at, IsOfMoved, PlansMap};
ghost use Rattle.conspoint.specs.Marks.{Marking};
ghost use Rattle.conspoint.specs.Steps.{Keeps, Puts, Takes};

use crate::closure::reserve_map;
use crate::draft::Draft;
use crate::error::PlanError;
use crate::map_file::store_map;
use buffers::SharedBlock;
use layout::{
    BLOCK_BYTES, BLOCK_POINTERS, BODY_POINTERS, Body, Inode, Kind, Layout, Pointer, set_pointer,
};
use model::Attributes;
use std::alloc::{AllocError, Global};

/// Puts the block at a node into the active tree's set, or takes it out, where the node has a new
/// place.
fn mark_node(draft: &mut Draft, node: Pointer, place: Pointer, is_in: bool)
    requires within { (b : ℕ) → node ≡ Pointer.Block b → b < draft.old.map.count }
    requires room { (b : ℕ) → place ≢ Hole → node ≡ Pointer.Block b → IsInTouchedPart draft.old b }
    ensures step { Keeps draft.old draft.new }
    ensures same { (j : ℕ) → IsTouched draft.new.map.parts.items j
        → IsTouched draft.old.map.parts.items j }
    ensures marked { (b : ℕ) → Marking (λ x. (place ≢ Hole) × (node ≡ Pointer.Block x)) is_in
        draft.old.map.parts.items draft.new.map.parts.items b }
{
    if place.is_hole() {
        return;
    }
    if let Pointer::Block(block) = node {
        draft.mark_touched(block, is_in);
    }
}

/// Puts the blocks at the nodes that have new places into the active tree's set, or takes them out.
fn mark_moved(draft: &mut Draft, nodes: &[Pointer], places: &[Pointer], is_in: bool)
    requires size { length nodes.now ≡ length places.now }
    requires within { (k b : ℕ) → pointer_at nodes.now k ≡ Pointer.Block b
        → b < draft.old.map.count }
    requires room { (k b : ℕ) → pointer_at places.now k ≢ Hole
        → pointer_at nodes.now k ≡ Pointer.Block b → IsInTouchedPart draft.old b }
    ensures step { Keeps draft.old draft.new }
    ensures same { (j : ℕ) → IsTouched draft.new.map.parts.items j
        → IsTouched draft.old.map.parts.items j }
    ensures marked { (b : ℕ) → Marking (IsOfMoved nodes.now places.now (length places.now)) is_in
        draft.old.map.parts.items draft.new.map.parts.items b }
{
    for k in 0..places.len() {
        mark_node(draft, nodes[k], places[k], is_in);
    }
}

/// Where a node stands after the point.
fn moved(settled: Pointer, place: Pointer) -> Pointer
    ensures { result ≡ or_settled place settled }
{
    match place {
        Pointer::Hole => settled,
        Pointer::Block(block) => Pointer::Block(block),
    }
}

/// So many holes.
fn holes(alloc: Global, count: usize) -> Result<Vec<Pointer>, AllocError>
    ensures count { IfOk result (λ p. length p.items ≡ count) }
    ensures all { IfOk result (λ p. (k : ℕ) → pointer_at p.items k ≡ Hole) }
{
    let mut holes = Vec::new(alloc);
    for _ in 0..count {
        holes.push(Pointer::Hole)?;
    }
    Ok(holes)
}

/// Where block `k` of so many of the map stands after the point: nowhere, behind the last one.
fn node_before(settled: &[Pointer], places: &[Pointer], count: usize, k: usize) -> Pointer
    requires settled { count ≤ length settled.now }
    requires places { count ≤ length places.now }
    requires within { PointsBelow MOST_BLOCKS (node_at settled.now places.now k) }
    ensures node { result
        ≡ (if nat_lt k count then node_at settled.now places.now k else Hole) }
    ensures within { PointsBelow MOST_BLOCKS result }
{
    if k < count {
        moved(settled[k], places[k])
    } else {
        Pointer::Hole
    }
}

/// The indirect block over so many blocks of the map.
fn spell_nodes(settled: &[Pointer], places: &[Pointer], count: usize) -> [u8; BLOCK_BYTES]
    requires settled { count ≤ length settled.now }
    requires places { count ≤ length places.now }
    requires within { (k : ℕ) → PointsBelow MOST_BLOCKS (node_at settled.now places.now k) }
    ensures { (i : ℕ) → i < BLOCK_POINTERS → indirect_pointer result i
        ≡ (if nat_lt i count then node_at settled.now places.now i else Hole) }
{
    let mut bytes = [0; BLOCK_BYTES];
    for k in 0..BLOCK_POINTERS {
        set_pointer(&mut bytes, k as u32, node_before(settled, places, count, k));
    }
    bytes
}

/// The place of a node, where there is such a node and it has one.
fn place_of(places: &[Pointer], k: usize) -> Pointer
    ensures { result ≡ pointer_at places.now k }
{
    if k < places.len() {
        places[k]
    } else {
        Pointer::Hole
    }
}

/// Plans the indirect block over so many blocks of the map, where it has a place.
fn store_over(
    alloc: Global,
    draft: &mut Draft,
    settled: &[Pointer],
    places: &[Pointer],
    count: usize,
    over: Pointer,
) -> Result<(), PlanError>
    requires settled { count ≤ length settled.now }
    requires places { count ≤ length places.now }
    requires within { (k : ℕ) → PointsBelow MOST_BLOCKS (node_at settled.now places.now k) }
    requires reserved { (b : ℕ) → over ≡ Pointer.Block b → IsReserved draft.old b }
    ensures step { Puts draft.old draft.new result }
    ensures others { (p : ℕ) → over ≢ Pointer.Block p
        → IsReserved draft.old p → IsReserved draft.new p }
    ensures size { OnOk result (OnEach draft.new (λ e. (b : ℕ)
        → over ≡ Pointer.Block b → length (e b) ≡ BLOCK_BYTES)) }
    ensures spelled { OnOk result (OnEach draft.new (λ e. (b i : ℕ)
        → over ≡ Pointer.Block b → i < BLOCK_POINTERS → indirect_pointer (e b) i
        ≡ (if nat_lt i count then node_at settled.now places.now i else Hole))) }
{
    if let Pointer::Block(place) = over {
        let bytes = spell_nodes(settled, places, count);
        draft.put(place, SharedBlock::copy_of(alloc, &bytes)?)?;
    }
    Ok(())
}

/// The node that the first pointer of the map's inode leads to: block 0 of the map, or the indirect
/// block over so many.
fn first_top(count: usize) -> usize
    ensures { result ≡ (if nat_le count BODY_POINTERS then 0 else count) }
{
    if count <= BODY_POINTERS { 0 } else { count }
}

/// The pointers of the map's inode: those of the nodes from one on.
fn top_pointers(settled: &[Pointer], places: &[Pointer], first: usize) -> [Pointer; BODY_POINTERS]
    requires size { length settled.now ≡ length places.now }
    requires first { first ≤ length places.now }
    requires few { length places.now ≤ first + BODY_POINTERS }
    ensures size { length result ≡ BODY_POINTERS }
    ensures pointers { (i : ℕ)
        → pointer_at result i ≡ node_at settled.now places.now (first + i) }
{
    let mut pointers = [Pointer::Hole; BODY_POINTERS];
    for i in 0..places.len() - first {
        pointers[i] = moved(settled[first + i], places[first + i]);
    }
    pointers
}

/// The inode of the map's file, whose indirect block has 1,024 pointers.
fn map_inode(pointers: [Pointer; BODY_POINTERS], blocks: u32) -> Inode
    ensures { result ≡ record {
      layout = Layout.Plain;
      kind = Kind.BlockMap;
      attributes = no_attributes;
      links = 1;
      size = 4 * blocks;
      body = Body.Pointers pointers;
    } }
{
    Inode {
        layout: Layout::Plain,
        kind: Kind::BlockMap,
        attributes: Attributes::none(),
        links: 1,
        size: 4 * blocks as u64,
        body: Body::Pointers(pointers),
    }
}

/// Plans all nodes of the map that are to be stored, over so many new places, none of them given
/// out.
fn store_nodes(
    alloc: Global,
    draft: &mut Draft,
    settled: &[Pointer],
    places: &mut [Pointer],
) -> Result<Inode, PlanError>
    requires parts { length draft.old.map.parts.items
        ≡ div_ceil draft.old.map.count BLOCK_POINTERS }
    requires nodes { length settled.now ≡ map_nodes (length draft.old.map.parts.items) }
    requires within { All (PointsBelow draft.old.map.count) settled.now }
    requires same { length places.old ≡ length settled.now }
    requires none { (k : ℕ) → pointer_at places.old k ≡ Hole }
    ensures step { Takes (length settled.now) draft.old draft.new result }
    ensures planned { IfOk result (PlansMap draft.old draft.new settled.now) }
{
    let count = draft.map_blocks();
    reserve_map(draft, settled, places)?;
    mark_moved(draft, settled, places, false);
    mark_moved(draft, places, places, true);
    store_map(alloc, draft, places)?;
    store_over(
        alloc,
        draft,
        settled,
        places,
        count,
        place_of(places, count),
    )?;
    let pointers = top_pointers(settled, places, first_top(count));
    Ok(map_inode(pointers, draft.block_count()))
}

/// Plans all that is to be stored of the block map, once the marks of all other files are in it:
/// its nodes get places, these are marked and those of before are not any more, and it has an entry
/// for each block then. `settled` are the places of its settled nodes: its blocks, and behind them
/// the indirect block over them, where there is one. The answer is its inode.
pub fn store_own_map(
    alloc: Global,
    draft: &mut Draft,
    settled: &[Pointer],
) -> Result<Inode, PlanError>
    requires parts { length draft.old.map.parts.items
        ≡ div_ceil draft.old.map.count BLOCK_POINTERS }
    requires nodes { length settled.now ≡ map_nodes (length draft.old.map.parts.items) }
    requires within { All (PointsBelow draft.old.map.count) settled.now }
    ensures step { Takes (length settled.now) draft.old draft.new result }
    ensures planned { IfOk result (PlansMap draft.old draft.new settled.now) }
{
    let mut places = holes(alloc, settled.len())?;
    store_nodes(alloc, draft, settled, &mut places)
}
