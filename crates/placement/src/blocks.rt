//! A changed file's blocks, at their new places.

ghost use Rattle.std.specs.Prelude.{◌≡◌, ◌<◌, IfOk};
ghost use Rattle.blocktree.specs.PlaceMaps.{place_at};
ghost use Rattle.conspoint.specs.Space.{changed_blocks};
ghost use Rattle.conspoint.specs.Steps.{Places};
ghost use Rattle.placement.specs.Layouts.{AreLowest};
ghost use Rattle.placement.specs.Nodes.{AreAlike, AreStored, AreWithin, height_of};

use crate::nodes::Nodes;
use blocktree::{BlockTree, PlaceMap};
use conspoint::{Draft, PlanError, place_blocks};
use std::alloc::Global;

/// The places of a file's `count` blocks, over its settled nodes. Those that don't count any more
/// are holes. The blocks before `first` aren't looked at.
pub(crate) fn place_lowest(
    alloc: Global,
    draft: &mut Draft,
    tree: &BlockTree,
    first: u32,
    settled: &Nodes,
    count: u32,
) -> Result<PlaceMap, PlanError>
    requires some { 0 < height_of settled.now }
    requires settled { AreWithin draft.old.map.count settled.now }
    requires alike { AreAlike settled.now }
    ensures step { Places (changed_blocks tree.now first count) draft.old draft.new result }
    ensures layout { IfOk result (λ places. places.layout ≡ settled.now.layout) }
    ensures lowest { IfOk result
        (AreLowest first count tree.now settled.now draft.old draft.new) }
    ensures stored { IfOk result
        (λ places. AreStored first count tree.now settled.now (place_at places)) }
{
    let kept = tree.kept().min(count);
    let below = settled.height(0).first(alloc, kept)?;
    let nodes = place_blocks(draft, tree, first, below, count)?;
    Ok(nodes)
}
