//! The places of a file's nodes, by height.

ghost use Rattle.std.specs.Prelude.{◌≡◌, ℕ, ◌+◌, ◌<◌, ◌≤◌, ◌⊎◌, ◌^◌, All, Contains, IfOk, OnOk, IsTrue, ◌↔◌, length};
ghost use Rattle.layout.specs.Pointer.{PointsBelow};
ghost use Rattle.layout.specs.declared.TheConstants.{BODY_POINTERS};
ghost use Rattle.layout.specs.declared.pointer.Pointer.TheVariants.{Hole, Block};
ghost use Rattle.blocktree.specs.PlaceMaps.{AreBelow, EndBefore, place_at};
ghost use Rattle.conspoint.specs.Groups.{pointer_at};
ghost use Rattle.conspoint.specs.MapFiles.{map_nodes};
ghost use Rattle.placement.specs.Nodes.{AreAlike, AreChanged, AreShort, AreWithin, HasLeft, HasLeftAmong, HasLeftIn, HasMoved, IsAmong, AreBetween, height_of, node};

use blocktree::{BlockTree, PlaceMap};
use layout::{BODY_POINTERS, BlockNumber, Layout, Pointer};
use std::alloc::{AllocError, Global};

/// Where the nodes of a file are.
#[derive(Debug, Drop)]
pub struct Nodes {
    pub(crate) layout: Layout,
    /// Those at each height, as far as there are any: its blocks, the indirect blocks over them,
    /// and so on.
    pub(crate) heights: Vec<PlaceMap>,
}

impl Nodes {
    /// The pointer to node `i` at a height: a hole above the highest.
    pub(crate) fn at(&self, height: usize, i: u32) -> Pointer
        ensures { result ≡ node self.now height i }
    {
        if height < self.heights.len() {
            return self.height(height).at(i);
        }
        Pointer::Hole
    }

    /// The nodes at one of the heights.
    pub(crate) fn height(&self, height: usize) -> &PlaceMap
        requires { height < height_of self.now }
        ensures nodes { (i : ℕ) → place_at result.now i ≡ node self.now height i }
        ensures layout { AreAlike self.now → result.now.layout ≡ self.now.layout }
    {
        &self.heights[height]
    }

    /// The nodes of a file of so many blocks in a row: its blocks, and behind them the indirect
    /// block over them, where an inode has no room for their pointers.
    pub fn in_a_row(&self, alloc: Global, count: usize) -> Result<Vec<Pointer>, AllocError>
        requires { count < 2 ^ 32 }
        ensures count { IfOk result (λ all. length all.items ≡ map_nodes count) }
        ensures blocks { IfOk result (λ all. (i : ℕ) → i < count
            → pointer_at all.items i ≡ node self.now 0 i) }
        ensures over { IfOk result (λ all. BODY_POINTERS < count
            → pointer_at all.items count ≡ node self.now 1 0) }
        ensures within { (blocks : ℕ) → AreWithin blocks self.now
            → IfOk result (λ all. All (PointsBelow blocks) all.items) }
    {
        let mut all = Vec::new(alloc);
        for i in 0..count {
            all.push(self.at(0, i as u32))?;
        }
        if count <= BODY_POINTERS {
            return Ok(all);
        }
        all.push(self.at(1, 0))?;
        Ok(all)
    }
}

/// An inode's pointers: these, which end where it has room for no more.
pub(crate) fn body_of(places: &PlaceMap) -> [Pointer; BODY_POINTERS]
    requires { EndBefore BODY_POINTERS places.now }
    ensures count { length result ≡ BODY_POINTERS }
    ensures each { (i : ℕ) → pointer_at result i ≡ place_at places.now i }
{
    let mut body = [Pointer::Hole; BODY_POINTERS];
    for i in 0..BODY_POINTERS {
        body[i] = places.at(i as u32);
    }
    body
}

/// Whether a pointer leads to a block.
fn leads_to(pointer: Pointer, block: BlockNumber) -> bool
    ensures { IsTrue result ↔ (pointer ≡ Block block) }
{
    match pointer {
        Pointer::Hole => false,
        Pointer::Block(other) => other.get() == block.get(),
    }
}

/// Adds the block that a pointer leads to, if there is one and another doesn't lead to it.
fn add_moved(from: Pointer, to: Pointer, blocks: &mut Vec<BlockNumber>) -> Result<(), AllocError>
    ensures left { OnOk result ((b : ℕ) → Contains blocks.new.items b
        ↔ (Contains blocks.old.items b ⊎ ((from ≡ Block b) × (to ≡ Block b → ⊥)))) }
    ensures within { (count : ℕ) → PointsBelow count from
        → All (λ b. b < count) blocks.old.items → All (λ b. b < count) blocks.new.items }
{
    if let Pointer::Block(block) = from {
        if !leads_to(to, block) {
            blocks.push(block)?;
        }
    }
    Ok(())
}

/// Adds the blocks at nodes of one height of a file that don't stand at the same of the other: of
/// the nodes from one on and before another.
fn add_left(
    from: &PlaceMap,
    to: &Nodes,
    height: usize,
    start: u32,
    end: u32,
    blocks: &mut Vec<BlockNumber>,
) -> Result<(), AllocError>
    ensures left { OnOk result ((b : ℕ) → Contains blocks.new.items b
        ↔ (Contains blocks.old.items b ⊎ HasLeftIn start end from.now (node to.now height) b)) }
    ensures within { (disk : ℕ) → AreBelow disk from.now
        → All (λ b. b < disk) blocks.old.items → All (λ b. b < disk) blocks.new.items }
{
    let mut next = start;
    while let Some(node) = from.next(next, end) {
        add_moved(
            Pointer::Block(node.place),
            to.at(height, node.index),
            blocks,
        )?;
        next = node.index + 1;
    }
    Ok(())
}

/// The changed blocks of a file behind the first and before another.
pub(crate) fn changed_before(
    alloc: Global,
    tree: &BlockTree,
    end: u32,
) -> Result<Vec<u32>, AllocError>
    ensures { IfOk result (λ changed. AreChanged tree.now end changed.items) }
{
    let mut changed = Vec::new(alloc);
    let mut next = 1;
    while let Some((i, _)) = tree.next_changed(next, end) {
        changed.push(i)?;
        next = i + 1;
    }
    Ok(changed)
}

/// As `add_left`, of these nodes alone.
fn add_changed(
    from: &PlaceMap,
    to: &Nodes,
    height: usize,
    changed: &[u32],
    blocks: &mut Vec<BlockNumber>,
) -> Result<(), AllocError>
    ensures left { OnOk result ((b : ℕ) → Contains blocks.new.items b
        ↔ (Contains blocks.old.items b ⊎ HasLeftAmong changed.now from.now (node to.now height) b)) }
    ensures within { (disk : ℕ) → AreBelow disk from.now
        → All (λ b. b < disk) blocks.old.items → All (λ b. b < disk) blocks.new.items }
{
    for k in 0..changed.len() {
        let i = changed[k];
        add_moved(from.at(i), to.at(height, i), blocks)?;
    }
    Ok(())
}

/// Adds the blocks at the first `count` nodes of one height of a file that don't stand at the same
/// of the other. Of its blocks behind the first and before `kept` only these changed ones are
/// looked at.
fn add_height(
    from: &PlaceMap,
    to: &Nodes,
    height: usize,
    changed: &[u32],
    kept: u32,
    count: u32,
    blocks: &mut Vec<BlockNumber>,
) -> Result<(), AllocError>
    requires short { EndBefore count from.now }
    requires among { AreBetween 1 kept changed.now }
    requires kept { height ≡ 0 → (i : ℕ) → 1 ≤ i → i < kept → (IsAmong changed.now i → ⊥)
        → place_at from.now i ≡ node to.now height i }
    ensures left { OnOk result ((b : ℕ) → Contains blocks.new.items b
        ↔ (Contains blocks.old.items b ⊎ HasLeft from.now (node to.now height) b)) }
    ensures within { (disk : ℕ) → AreBelow disk from.now
        → All (λ b. b < disk) blocks.old.items → All (λ b. b < disk) blocks.new.items }
{
    if height > 0 {
        add_left(from, to, height, 0, count, blocks)?;
        return Ok(());
    }
    add_left(from, to, height, 0, 1, blocks)?;
    add_changed(from, to, height, changed, blocks)?;
    add_left(from, to, height, kept.max(1), count, blocks)?;
    Ok(())
}

/// The blocks at nodes of one file, of which each height has `count` at the most, that don't stand
/// at the same of the other. Of the file's blocks behind the first and before `kept` only these
/// changed ones may.
pub(crate) fn moved(
    alloc: Global,
    from: &Nodes,
    to: &Nodes,
    changed: &[u32],
    kept: u32,
    count: u32,
) -> Result<Vec<BlockNumber>, AllocError>
    requires short { AreShort count from.now }
    requires among { AreBetween 1 kept changed.now }
    requires kept { (i : ℕ) → 1 ≤ i → i < kept → (IsAmong changed.now i → ⊥)
        → node to.now 0 i ≡ node from.now 0 i }
    ensures moved { IfOk result (λ blocks. (b : ℕ)
        → Contains blocks.items b ↔ HasMoved from.now to.now b) }
    ensures within { (disk : ℕ) → AreWithin disk from.now
        → IfOk result (λ blocks. All (λ b. b < disk) blocks.items) }
{
    let mut blocks = Vec::new(alloc);
    for height in 0..from.heights.len() {
        let places = from.height(height);
        add_height(places, to, height, changed, kept, count, &mut blocks)?;
    }
    Ok(blocks)
}
