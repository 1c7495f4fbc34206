//! The blocks of a changed file.

ghost use Rattle.std.specs.Prelude.{◌≡◌, ◌≢◌, ℕ, ◌<◌, ◌≤◌, IfOk, OnOk};
ghost use Rattle.buffers.specs.Disks.{IsWhole};
ghost use Rattle.layout.specs.Places.{pointed};
ghost use Rattle.layout.specs.Pointer.{PointsBelow};
ghost use Rattle.layout.specs.declared.geometry.TheConstants.{MOST_BLOCKS};
ghost use Rattle.layout.specs.declared.pointer.Pointer.TheVariants.{Hole};
ghost use Rattle.blocktree.specs.PlaceMaps.{AreBelow, EndBefore, place_at};
ghost use Rattle.blocktree.specs.Trees.{IsChanged};
ghost use Rattle.conspoint.specs.Blocks.{AreWholeOver, changed_or};
ghost use Rattle.conspoint.specs.Drafts.{OnEach, WasTaken};
ghost use Rattle.conspoint.specs.Groups.{ArePlaced, ComesFrom};
ghost use Rattle.conspoint.specs.Space.{changed_blocks};
ghost use Rattle.conspoint.specs.Steps.{Places};

use crate::draft::Draft;
use crate::error::PlanError;
use blocktree::{BlockTree, PlaceMap};
use buffers::SharedBlock;
use layout::{BlockNumber, Pointer};

/// Plans a block that a file has.
fn store_shared(draft: &mut Draft, block: &SharedBlock) -> Result<BlockNumber, PlanError>
    ensures step { Places 1 draft.old draft.new result }
    ensures taken { IfOk result (WasTaken draft.old draft.new) }
    ensures whole { OnOk result (IsWhole block.now) }
    ensures stored { IfOk result (λ place. OnEach draft.new (λ e. e place ≡ block.now)) }
    ensures within { IfOk result (λ place. PointsBelow MOST_BLOCKS (Pointer.Block place)) }
    ensures from { IfOk result (λ place. (settled : Pointer)
        → ComesFrom draft.old draft.new settled (Pointer.Block place)) }
{
    block.is_whole();
    let shared = block.share()?;
    draft.store(shared)
}

/// The places of a changed file's blocks, where these are the settled ones that count still: of its
/// first `count` blocks each changed one gets a new place, by rising index. The blocks before
/// `first` aren't looked at, and keep the settled places.
pub fn place_blocks(
    draft: &mut Draft,
    tree: &BlockTree,
    first: u32,
    settled: PlaceMap,
    count: u32,
) -> Result<PlaceMap, PlanError>
    requires within { AreBelow MOST_BLOCKS settled }
    requires end { EndBefore count settled }
    ensures step { Places (changed_blocks tree.now first count) draft.old draft.new result }
    ensures layout { IfOk result (λ nodes. nodes.layout ≡ settled.layout) }
    ensures end { IfOk result (EndBefore count) }
    ensures before { IfOk result (λ nodes. (i : ℕ) → i < first
        → place_at nodes i ≡ place_at settled i) }
    ensures holes { IfOk result (λ nodes. (i : ℕ)
        → place_at nodes i ≡ Hole → place_at settled i ≡ Hole) }
    ensures stored { IfOk result (λ nodes. (i : ℕ) → i < count → first ≤ i
        → IsChanged tree.now i → place_at nodes i ≢ Hole) }
    ensures unchanged { IfOk result (λ nodes. (i : ℕ)
        → (IsChanged tree.now i → ⊥) → place_at nodes i ≡ place_at settled i) }
    ensures blocks { IfOk result (λ nodes. OnEach draft.new (λ e. (i : ℕ) → i < count
        → first ≤ i → pointed e (place_at nodes i)
        ≡ changed_or tree.now i (pointed e (place_at settled i)))) }
    ensures whole { OnOk result (AreWholeOver tree.now first count) }
    ensures placed { IfOk result (λ nodes. ArePlaced draft.old draft.new settled nodes) }
{
    let mut nodes = settled;
    let mut from = first;
    while let Some((i, block)) = tree.next_changed(from, count) {
        let place = store_shared(draft, block)?;
        nodes.set(i, Pointer::Block(place))?;
        from = i + 1;
    }
    Ok(nodes)
}
