//! The bytes of the block map's blocks.

ghost use Rattle.std.specs.Prelude.{◌≡◌, ◌≢◌, ℕ, ◌<◌, ◌≤◌, OnOk, length};
ghost use Rattle.conspoint.specs.Drafts.{OnEach, IsReserved};
ghost use Rattle.conspoint.specs.Groups.{pointer_at};
ghost use Rattle.conspoint.specs.MapFiles.{StoresPart};
ghost use Rattle.conspoint.specs.Steps.{Puts};

use crate::draft::Draft;
use crate::error::PlanError;
use buffers::SharedBlock;
use layout::Pointer;
use std::alloc::Global;

/// Plans block `k` of the map, where it has a place.
fn store_part(alloc: Global, draft: &mut Draft, k: usize, pointer: Pointer) -> Result<(), PlanError>
    requires within { k < length draft.old.map.parts.items }
    requires reserved { (b : ℕ) → pointer ≡ Pointer.Block b → IsReserved draft.old b }
    ensures step { Puts draft.old draft.new result }
    ensures stored { OnOk result (OnEach draft.new (λ e. (b : ℕ) → pointer ≡ Pointer.Block b
        → StoresPart draft.old.map.parts.items k (e b))) }
    ensures others { (p : ℕ) → pointer ≢ Pointer.Block p
        → IsReserved draft.old p → IsReserved draft.new p }
{
    if let Pointer::Block(place) = pointer {
        let bytes = SharedBlock::copy_of(alloc, &draft.map_bytes(k))?;
        draft.put(place, bytes)?;
    }
    Ok(())
}

/// Plans the map's own blocks, those that have places. No entry may change after it.
pub fn store_map(alloc: Global, draft: &mut Draft, places: &[Pointer]) -> Result<(), PlanError>
    requires reserved { (k b : ℕ) → pointer_at places.now k ≡ Pointer.Block b
        → IsReserved draft.old b }
    requires apart { (i k b : ℕ) → pointer_at places.now i ≡ Pointer.Block b
        → pointer_at places.now k ≡ Pointer.Block b → i ≡ k }
    requires all { length draft.old.map.parts.items ≤ length places.now }
    ensures step { Puts draft.old draft.new result }
    ensures stored { OnOk result (OnEach draft.new (λ e. (k b : ℕ)
        → k < length draft.old.map.parts.items → pointer_at places.now k ≡ Pointer.Block b
        → StoresPart draft.old.map.parts.items k (e b))) }
    ensures others { (p : ℕ) → IsReserved draft.old p → ((k : ℕ)
        → k < length draft.old.map.parts.items → pointer_at places.now k ≢ Pointer.Block p)
        → IsReserved draft.new p }
{
    for k in 0..draft.map_blocks() {
        store_part(alloc, draft, k, places[k])?;
    }
    Ok(())
}
