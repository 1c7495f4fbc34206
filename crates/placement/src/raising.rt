//! The indirect blocks over a file's nodes, height by height.

ghost use Rattle.std.specs.Prelude.{◌≡◌, ℕ, suc, ◌+◌, ◌*◌, ◌<◌, ◌≤◌, ◌^◌, IfOk};
ghost use Rattle.layout.specs.Trees.{fan_out};
ghost use Rattle.blocktree.specs.PlaceMaps.{AreBelow, EndBefore, place_at};
ghost use Rattle.conspoint.specs.Drafts.{OnEach};
ghost use Rattle.conspoint.specs.Groups.{group, Follows, IsGroup};
ghost use Rattle.conspoint.specs.Steps.{PlacesOver};
ghost use Rattle.placement.specs.Layouts.{AreRaised, StandOver};
ghost use Rattle.placement.specs.Nodes.{AreAlike, ArePlacedAt, AreSettledIn, AreWithin, node, under};
ghost use Rattle.placement.specs.Steps.{PlacesHeights};

use crate::nodes::Nodes;
use blocktree::PlaceMap;
use conspoint::{Draft, PlanError, place_over};
use std::alloc::Global;

/// The nodes over those of one height, which were placed over settled ones.
fn raise(
    alloc: Global,
    draft: &mut Draft,
    settled: &Nodes,
    height: usize,
    nodes: &PlaceMap,
    groups: u32,
) -> Result<PlaceMap, PlanError>
    requires few { fan_out settled.now.layout * groups < 2 ^ 32 }
    requires height { height + 1 < 2 ^ 64 }
    requires layout { nodes.now.layout ≡ settled.now.layout }
    requires within { AreBelow draft.old.map.count nodes.now }
    requires alike { AreAlike settled.now }
    requires settled { AreWithin draft.old.map.count settled.now }
    ensures step { PlacesOver groups (under settled.now height) (group nodes.now) draft.old draft.new result }
    ensures end { IfOk result (EndBefore groups) }
    ensures layout { IfOk result (λ over. over.layout ≡ settled.now.layout) }
    ensures groups { IfOk result (λ over. OnEach draft.new (λ e. (j : ℕ) → j < groups
        → IsGroup e (node settled.now (suc height) j) (under settled.now height j)
        (group nodes.now j) (place_at over j))) }
    ensures follows { IfOk result (λ over. (j : ℕ) → j < groups
        → Follows (node settled.now (suc height) j) (under settled.now height j)
        (group nodes.now j) (place_at over j)) }
    ensures placed { IfOk result
        (ArePlacedAt draft.old draft.new (node settled.now (suc height))) }
{
    let above = height + 1;
    if above < settled.heights.len() {
        let over = settled.height(above);
        let old = settled.height(height);
        let placed = place_over(alloc, draft, settled.layout, over, old, nodes, groups)?;
        return Ok(placed);
    }
    let none = PlaceMap::new(alloc, settled.layout);
    let raised = place_over(alloc, draft, settled.layout, &none, &none, nodes, groups)?;
    Ok(raised)
}

/// The nodes of a file of so many blocks at a level, where its blocks are these, which were placed
/// over settled ones: at each height those over the height below. They have the layout of the
/// settled ones.
pub(crate) fn raise_all(
    alloc: Global,
    draft: &mut Draft,
    settled: &Nodes,
    lowest: PlaceMap,
    count: u32,
    level: usize,
) -> Result<Nodes, PlanError>
    requires level { 1 ≤ level }
    requires few { count < 4294966272 }
    requires layout { lowest.layout ≡ settled.now.layout }
    requires within { AreBelow draft.old.map.count lowest }
    requires end { EndBefore count lowest }
    requires settled { AreSettledIn draft.old.map.count settled.now }
    ensures step { PlacesHeights count level settled.now lowest draft.old draft.new result }
    ensures raised { IfOk result
        (AreRaised count level settled.now lowest draft.old draft.new) }
    ensures over { IfOk result (λ n. OnEach draft.new (λ e. StandOver e settled.now n)) }
{
    let mut nodes = Nodes {
        layout: settled.layout,
        heights: Vec::new(alloc),
    };
    nodes.heights.push(lowest)?;
    let mut groups = count;
    for height in 1..level {
        groups = groups.div_ceil(settled.layout.fan_out());
        let below = nodes.height(height - 1);
        let over = raise(alloc, draft, settled, height - 1, below, groups)?;
        nodes.heights.push(over)?;
    }
    Ok(nodes)
}
