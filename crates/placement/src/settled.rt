//! The nodes of a file's settled inode.

ghost use Rattle.std.specs.Prelude.{◌≡◌, ℕ, suc, ◌+◌, ◌*◌, ◌<◌, ◌≤◌, ◌↔◌, List, IfOk, IsErrOf, IsFalse, IsTrue};
ghost use Rattle.layout.specs.Limits.{Sizes};
ghost use Rattle.layout.specs.declared.inode.Inode.{Inode};
ghost use Rattle.layout.specs.Trees.{fan_out};
ghost use Rattle.layout.specs.declared.pointer.Pointer.TheVariants.{Hole, Block};
ghost use Rattle.blocktree.specs.PlaceMaps.{EndBefore, place_at};
ghost use Rattle.images.specs.Nodes.{held};
ghost use Rattle.images.specs.Soundness.{IsSoundFile};
ghost use Rattle.placement.specs.Files.{IsBasedOn};
ghost use Rattle.placement.specs.Layouts.{AreSettledNodes};
ghost use Rattle.placement.specs.Nodes.{AreCounted, AreSettledIn, IsEmptyGroup, MOST_NODES, height_of, most_groups, node};
ghost use Rattle.buffers.specs.Reads.{ReadsBlocks};
ghost use Rattle.conspoint.specs.Errors.{IsReadFault};

use crate::nodes::Nodes;
use blocktree::{BlockTree, PlaceMap};
use buffers::Blocks;
use conspoint::PlanError;
use inode::nodes_are_where_pointers_lead;
use layout::Layout;
use std::alloc::Global;

/// As many groups of nodes as have an index.
fn most_groups(layout: Layout) -> u32
    ensures { result ≡ most_groups layout }
{
    match layout {
        Layout::Plain => 4_194_304,
        Layout::Summed => 8_388_608,
    }
}

/// Whether no node of a group is stored.
fn is_empty(layout: Layout, nodes: &PlaceMap, j: u32) -> bool
    requires few { j < most_groups layout }
    requires end { EndBefore MOST_NODES nodes.now }
    ensures { IsTrue result ↔ ((i : ℕ) → i < fan_out layout
        → place_at nodes.now (fan_out layout * j + i) ≡ Hole) }
{
    let fan = layout.fan_out();
    let start = fan * j;
    match nodes.next(start, start.saturating_add(fan)) {
        Some(_) => false,
        None => true,
    }
}

/// Whether each node is over one that is stored.
fn is_full(layout: Layout, below: &PlaceMap, over: &PlaceMap) -> bool
    requires end { EndBefore (most_groups layout) over.now }
    requires below { EndBefore MOST_NODES below.now }
    ensures full { IsTrue result → (j : ℕ) → ((i : ℕ) → i < fan_out layout
        → place_at below.now (fan_out layout * j + i) ≡ Hole) → place_at over.now j ≡ Hole }
    ensures empty { IsFalse result → (j : ℕ) × (b : ℕ) × (place_at over.now j ≡ Block b)
        × ((i : ℕ) → i < fan_out layout → place_at below.now (fan_out layout * j + i) ≡ Hole) }
{
    let end = most_groups(layout);
    let mut next = 0;
    while let Some(node) = over.next(next, end) {
        if is_empty(layout, below, node.index) {
            return false;
        }
        next = node.index + 1;
    }
    true
}

/// Whether each of these nodes is over one of the highest of a file's, where it has any.
fn is_above(nodes: &Nodes, over: &PlaceMap) -> bool
    requires end { 0 < height_of nodes.now → EndBefore (most_groups nodes.now.layout) over.now }
    requires nodes { (m i : ℕ) → MOST_NODES ≤ i → node nodes.now m i ≡ Hole }
    ensures full { IsTrue result → (m j : ℕ) → height_of nodes.now ≡ suc m
        → IsEmptyGroup nodes.now m j → place_at over.now j ≡ Hole }
    ensures empty { IsFalse result → (m : ℕ) × (j : ℕ) × (b : ℕ) × (height_of nodes.now ≡ suc m)
        × (place_at over.now j ≡ Block b) × IsEmptyGroup nodes.now m j }
{
    let count = nodes.heights.len();
    if count == 0 {
        return true;
    }
    is_full(nodes.layout, nodes.height(count - 1), over)
}

/// The nodes of the settled inode under a file's blocks, height by height. Damaged also where an
/// indirect block stands over holes alone: no file in its grammar has one, and what a point stores
/// over unchanged blocks would depend on it.
pub fn settled_nodes<B: Blocks>(
    alloc: Global,
    blocks: &mut B,
    tree: &BlockTree,
) -> Result<Nodes, PlanError>
    ensures reads { ReadsBlocks B.Blocks IsReadFault blocks.old blocks.new result }
    ensures nodes { IfOk result (AreSettledIn (B.count blocks.old)) }
    ensures sizes { IfOk result (AreCounted tree.now) }
    ensures settled { (s : Sizes) (disk : ℕ → List ℕ) (base : Inode) → B.Shows blocks.old disk
        → IsBasedOn base tree.now → IsSoundFile s (held disk base)
        → IfOk result (AreSettledNodes disk base tree.now) }
    ensures damaged { (s : Sizes) (disk : ℕ → List ℕ) (base : Inode) → B.Shows blocks.old disk
        → IsBasedOn base tree.now → IsSoundFile s (held disk base)
        → s.blocks ≡ B.count blocks.old → IsErrOf result PlanError.Damaged → ⊥ }
    ensures why { IsErrOf result PlanError.NoSpace → ⊥ }
{
    nodes_are_where_pointers_lead();
    let _ = tree.count();
    let mut nodes = Nodes {
        layout: tree.layout(),
        heights: Vec::new(alloc),
    };
    for height in 0..tree.depth() as usize + 1 {
        let places = tree.settled_nodes(alloc, blocks, height as u32)?;
        let above = is_above(&nodes, &places);
        if !above {
            return Err(PlanError::Damaged);
        }
        nodes.heights.push(places)?;
    }
    Ok(nodes)
}
