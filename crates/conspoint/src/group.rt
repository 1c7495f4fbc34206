//! Indirect blocks, made anew.

ghost use Rattle.std.specs.Prelude.{◌≡◌, ℕ, ◌*◌, ◌^◌, ◌<◌, ◌≤◌, All, IfOk, IsTrue, IfSome, IfNone, length, ◌↔◌};
ghost use Rattle.layout.specs.Maps.{indirect_pointer};
ghost use Rattle.layout.specs.Pointer.{PointsBelow};
ghost use Rattle.layout.specs.Trees.{fan_out};
ghost use Rattle.layout.specs.declared.TheConstants.{BLOCK_BYTES, BLOCK_POINTERS};
ghost use Rattle.layout.specs.declared.geometry.TheConstants.{MOST_BLOCKS};
ghost use Rattle.layout.specs.declared.pointer.Pointer.TheVariants.{Hole};
ghost use Rattle.blocktree.specs.PlaceMaps.{AreBelow, EndBefore, place_at};
ghost use Rattle.conspoint.specs.Drafts.{OnEach};
ghost use Rattle.conspoint.specs.Groups.{pointer_at, group, IsGroup, Follows, ComesFrom, ArePlaced};
ghost use Rattle.conspoint.specs.Space.{StoresNone};
ghost use Rattle.conspoint.specs.Steps.{Places, PlacesOver};

use crate::draft::Draft;
use crate::error::PlanError;
use blocktree::PlaceMap;
use buffers::SharedBlock;
use layout::{BLOCK_BYTES, BLOCK_POINTERS, Layout, Pointer, set_pointer};
use std::alloc::Global;

/// Spells 1,024 pointers as an indirect block.
fn spell(pointers: &[Pointer], bytes: &mut [u8; BLOCK_BYTES])
    requires count { length pointers.now ≡ BLOCK_POINTERS }
    requires within { All (PointsBelow MOST_BLOCKS) pointers.now }
    ensures size { length bytes.new ≡ BLOCK_BYTES }
    ensures spelled { (i : ℕ) → i < BLOCK_POINTERS
        → indirect_pointer bytes.new i ≡ pointer_at pointers.now i }
{
    for i in 0..pointers.len() {
        set_pointer(bytes, i as u32, pointers[i]);
    }
}

/// The index of the first that is no hole.
fn first_block(pointers: &[Pointer]) -> Option<usize>
    ensures found { IfSome result (λ i. (i < length pointers.now)
        × (pointer_at pointers.now i ≡ Hole → ⊥)) }
    ensures none { IfNone result ((i : ℕ) → i < length pointers.now
        → pointer_at pointers.now i ≡ Hole) }
{
    for i in 0..pointers.len() {
        if !pointers[i].is_hole() {
            return Some(i);
        }
    }
    None
}

/// Whether two pointers are the same.
fn same_pointer(a: Pointer, b: Pointer) -> bool
    ensures { IsTrue result ↔ (a ≡ b) }
{
    match a {
        Pointer::Hole => b.is_hole(),
        Pointer::Block(place) => match b {
            Pointer::Hole => false,
            Pointer::Block(other) => place.get() == other.get(),
        },
    }
}

/// Whether no node moved.
fn same_pointers(old: &[Pointer], new: &[Pointer]) -> bool
    requires { length old.now ≡ length new.now }
    ensures { IsTrue result ↔ ((i : ℕ) → i < length new.now
        → pointer_at new.now i ≡ pointer_at old.now i) }
{
    for i in 0..new.len() {
        if !same_pointer(new[i], old[i]) {
            return false;
        }
    }
    true
}

/// The pointer over the nodes of a group: a hole where all are holes, the settled one where no node
/// moved, else one to a new block that spells them.
pub fn place_group(
    alloc: Global,
    draft: &mut Draft,
    settled: Pointer,
    old: &[Pointer],
    new: &[Pointer],
) -> Result<Pointer, PlanError>
    requires old { length old.now ≡ BLOCK_POINTERS }
    requires new { length new.now ≡ BLOCK_POINTERS }
    requires within { All (PointsBelow MOST_BLOCKS) new.now }
    requires settled { PointsBelow MOST_BLOCKS settled }
    ensures step { Places 1 draft.old draft.new result }
    ensures group { IfOk result (λ over. OnEach draft.new
        (λ e. IsGroup e settled (pointer_at old.now) (pointer_at new.now) over)) }
    ensures follows { IfOk result (Follows settled (pointer_at old.now) (pointer_at new.now)) }
    ensures from { IfOk result (ComesFrom draft.old draft.new settled) }
    ensures within { IfOk result (PointsBelow MOST_BLOCKS) }
    ensures none { StoresNone (pointer_at old.now) (pointer_at new.now)
        → Places 0 draft.old draft.new result }
{
    let Some(_) = first_block(new) else {
        return Ok(Pointer::Hole);
    };
    if same_pointers(old, new) {
        return Ok(settled);
    }
    let mut bytes = [0; BLOCK_BYTES];
    spell(new, &mut bytes);
    let place = draft.store(SharedBlock::copy_of(alloc, &bytes)?)?;
    Ok(Pointer::Block(place))
}

/// The first group from one on and before another that has a node which is stored.
fn next_group(nodes: &PlaceMap, layout: Layout, from: u32, to: u32) -> Option<u32>
    requires layout { nodes.now.layout ≡ layout }
    requires few { fan_out layout * to < 2 ^ 32 }
    ensures found { IfSome result (λ j. (from ≤ j) × (j < to)) }
    ensures before { IfSome result (λ j. (k i : ℕ) → from ≤ k → k < j → i < BLOCK_POINTERS
        → group nodes.now k i ≡ Hole) }
    ensures none { IfNone result ((k i : ℕ) → from ≤ k → k < to → i < BLOCK_POINTERS
        → group nodes.now k i ≡ Hole) }
{
    if from >= to {
        return None;
    }
    let fan_out = layout.fan_out();
    match nodes.next(fan_out * from, fan_out * to) {
        Some(node) => Some(node.index / fan_out),
        None => None,
    }
}

/// The places over nodes of this layout, one over each group of as many as an indirect block has
/// pointers, by rising index, for so many groups. Over a group without a node that is stored there
/// is none.
pub fn place_over(
    alloc: Global,
    draft: &mut Draft,
    layout: Layout,
    settled: &PlaceMap,
    old: &PlaceMap,
    new: &PlaceMap,
    groups: u32,
) -> Result<PlaceMap, PlanError>
    requires layout { new.now.layout ≡ layout }
    requires few { fan_out layout * groups < 2 ^ 32 }
    requires within { AreBelow MOST_BLOCKS new.now }
    requires settled { AreBelow MOST_BLOCKS settled.now }
    ensures step { PlacesOver groups (group old.now) (group new.now) draft.old draft.new result }
    ensures layout { IfOk result (λ over. over.layout ≡ layout) }
    ensures end { IfOk result (EndBefore groups) }
    ensures groups { IfOk result (λ over. OnEach draft.new (λ e. (j : ℕ) → j < groups
        → IsGroup e (place_at settled.now j) (group old.now j) (group new.now j)
        (place_at over j))) }
    ensures follows { IfOk result (λ over. (j : ℕ) → j < groups → Follows
        (place_at settled.now j) (group old.now j) (group new.now j) (place_at over j)) }
    ensures placed { IfOk result (λ over. ArePlaced draft.old draft.new settled.now over) }
{
    let mut over = PlaceMap::new(alloc, layout);
    let mut from = 0;
    while let Some(j) = next_group(new, layout, from, groups) {
        let before = old.group(j);
        let after = new.group(j);
        let pointer = place_group(alloc, draft, settled.at(j), &before, &after)?;
        over.set(j, pointer)?;
        from = j + 1;
    }
    Ok(over)
}
