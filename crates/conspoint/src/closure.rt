//! The block map's own new blocks.

ghost use Rattle.std.specs.Prelude.{◌≡◌, ◌≢◌, ℕ, ◌<◌, OnOk, IfOk, IfSome, IfNone, IsTrue, ◌↔◌, length};
ghost use Rattle.layout.specs.declared.pointer.Pointer.TheVariants.{Hole, Block};
ghost use Rattle.blockmap.specs.Maps.{entry_at};
ghost use Rattle.conspoint.specs.Drafts.{WasTaken, IsReserved};
ghost use Rattle.conspoint.specs.Groups.{pointer_at};
ghost use Rattle.conspoint.specs.Closures.{IsClosedOver, PartsMoved, OverMoved, IsInTouchedPart};
ghost use Rattle.conspoint.specs.Steps.{Takes};

use crate::draft::Draft;
use crate::error::PlanError;
use layout::{BlockNumber, Pointer};

/// A block of the map that is to be stored and has no new place.
fn next_touched(draft: &Draft, places: &[Pointer]) -> Option<usize>
    ensures found { IfSome result (λ k. (k < length places.now)
        × (pointer_at places.now k ≡ Hole)) }
    ensures none { IfNone result (PartsMoved draft.now places.now) }
{
    for k in 0..draft.map_blocks().min(places.len()) {
        if draft.is_touched(k) && places[k].is_hole() {
            return Some(k);
        }
    }
    None
}

/// Whether node `k` has a new place and the node over it is there and has none.
fn lacks_over(places: &[Pointer], k: usize, over: usize) -> bool
    requires { k < length places.now }
    ensures { IsTrue result ↔ ((over < length places.now) × (pointer_at places.now k ≢ Hole)
        × (pointer_at places.now over ≡ Hole)) }
{
    over < places.len() && !places[k].is_hole() && places[over].is_hole()
}

/// An indirect block over blocks of the map of which one has a new place, and that has none.
fn next_over(draft: &Draft, places: &[Pointer]) -> Option<usize>
    ensures found { IfSome result (λ k. (k < length places.now)
        × (pointer_at places.now k ≡ Hole)) }
    ensures none { IfNone result (OverMoved draft.now places.now) }
{
    let first = draft.map_blocks();
    for k in 0..first.min(places.len()) {
        let over = first + k / 1024;
        if lacks_over(places, k, over) {
            return Some(over);
        }
    }
    None
}

/// A node of the map that is to be stored and has no new place.
fn next_node(draft: &Draft, places: &[Pointer]) -> Option<usize>
    ensures found { IfSome result (λ k. (k < length places.now)
        × (pointer_at places.now k ≡ Hole)) }
    ensures parts { IfNone result (PartsMoved draft.now places.now) }
    ensures over { IfNone result (OverMoved draft.now places.now) }
{
    match next_touched(draft, places) {
        Some(k) => Some(k),
        None => next_over(draft, places),
    }
}

/// Reserves a place for a node that stood at a place before, with room in the map for the entries
/// of both.
fn move_node(draft: &mut Draft, before: Pointer) -> Result<BlockNumber, PlanError>
    requires { (b : ℕ) → before ≡ Block b → b < draft.old.map.count }
    ensures step { Takes 1 draft.old draft.new result }
    ensures taken { IfOk result (WasTaken draft.old draft.new) }
    ensures reserved { IfOk result (IsReserved draft.new) }
    ensures entries { (b : ℕ)
        → entry_at draft.new.map.parts.items b ≡ entry_at draft.old.map.parts.items b }
    ensures new { IfOk result (IsInTouchedPart draft.new) }
    ensures old { OnOk result ((b : ℕ) → before ≡ Block b → IsInTouchedPart draft.new b) }
{
    if let Pointer::Block(place) = before {
        draft.touch(place)?;
    }
    let place = draft.reserve()?;
    draft.touch(place)?;
    Ok(place)
}

/// Reserves a place for each node of the map that is to be stored: the map's blocks, and behind
/// them the indirect blocks over each 1,024 of them, where there are any. A new place needs room
/// for its own entry in the map, and for that of the node's place before, so that further blocks of
/// the map have to be stored.
pub fn reserve_map(
    draft: &mut Draft,
    settled: &[Pointer],
    places: &mut [Pointer],
) -> Result<(), PlanError>
    requires same { length settled.now ≡ length places.old }
    requires within { (k b : ℕ) → pointer_at settled.now k ≡ Block b → b < draft.old.map.count }
    requires none { (k : ℕ) → pointer_at places.old k ≡ Hole }
    ensures step { Takes (length places.old) draft.old draft.new result }
    ensures size { length places.new ≡ length places.old }
    ensures closed { OnOk result (IsClosedOver draft.new settled.now places.new) }
    ensures taken { OnOk result ((k b : ℕ) → pointer_at places.new k ≡ Block b
        → WasTaken draft.old draft.new b) }
    ensures parts { OnOk result (PartsMoved draft.new places.new) }
    ensures over { OnOk result (OverMoved draft.new places.new) }
    ensures entries { (b : ℕ)
        → entry_at draft.new.map.parts.items b ≡ entry_at draft.old.map.parts.items b }
{
    while let Some(k) = next_node(draft, places) {
        places[k] = Pointer::Block(move_node(draft, settled[k])?);
    }
    Ok(())
}
