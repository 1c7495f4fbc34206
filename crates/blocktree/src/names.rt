//! Which blocks a settled inode names.

ghost use Rattle.std.specs.Prelude.{◌≡◌, ◌↔◌, ◌⊎◌, ℕ, ◌*◌, ◌^◌, ◌<◌, ◌≤◌, List, Contains, OnOk, IsErrOf};
ghost use Rattle.layout.specs.Trees.{fan_out};
ghost use Rattle.buffers.specs.Reads.{ReadsBlocks};
ghost use Rattle.buffers.specs.Errors.{IsFault};
ghost use Rattle.blocktree.specs.Names.{nodes_at, IsNodePlace, IsNamed};
ghost use Rattle.blocktree.specs.PlaceMaps.{StandsBelow};
ghost use Rattle.blocktree.specs.Places.{IsPath};

use crate::nodes::read_places;
use crate::place_map::PlaceMap;
use buffers::{BlockError, Blocks};
use layout::{BODY_POINTERS, BlockNumber, Layout, Pointer};
use std::alloc::{AllocError, Global};

/// Adds the places of the first `count` nodes at this depth under an inode's pointers, and of all
/// above them.
pub(crate) fn name_nodes<B: Blocks>(
    alloc: Global,
    blocks: &mut B,
    layout: Layout,
    pointers: &[Pointer; BODY_POINTERS],
    depth: u32,
    count: u32,
    names: &mut Vec<BlockNumber>,
) -> Result<(), BlockError>
    requires { count ≤ 16 * fan_out layout ^ depth }
    ensures reads { ReadsBlocks B.Blocks IsFault blocks.old blocks.new result }
    ensures damaged { (disk : ℕ → List ℕ) → B.Shows blocks.old disk
        → IsErrOf result BlockError.Damaged
        → ((i : ℕ) → i < count → IsPath layout (B.count blocks.old) disk pointers.now depth count i)
        → ⊥ }
    ensures named { (disk : ℕ → List ℕ) → B.Shows blocks.old disk → OnOk result ((p : ℕ)
        → Contains names.new.items p
        ↔ (Contains names.old.items p ⊎ IsNamed layout disk pointers.now depth count p)) }
{
    name_level(alloc, blocks, layout, pointers, depth, count, names)?;
    if depth > 0 {
        name_nodes(
            alloc,
            blocks,
            layout,
            pointers,
            depth - 1,
            count.div_ceil(layout.fan_out()),
            names,
        )?;
    }
    Ok(())
}

/// Adds the places of the first `count` nodes at this depth.
fn name_level<B: Blocks>(
    alloc: Global,
    blocks: &mut B,
    layout: Layout,
    pointers: &[Pointer; BODY_POINTERS],
    depth: u32,
    count: u32,
    names: &mut Vec<BlockNumber>,
) -> Result<(), BlockError>
    requires { count ≤ 16 * fan_out layout ^ depth }
    ensures reads { ReadsBlocks B.Blocks IsFault blocks.old blocks.new result }
    ensures damaged { (disk : ℕ → List ℕ) → B.Shows blocks.old disk
        → IsErrOf result BlockError.Damaged
        → ((i : ℕ) → i < count → IsPath layout (B.count blocks.old) disk pointers.now depth count i)
        → ⊥ }
    ensures named { (disk : ℕ → List ℕ) → B.Shows blocks.old disk → OnOk result ((p : ℕ)
        → Contains names.new.items p
        ↔ (Contains names.old.items p ⊎ IsNodePlace layout disk pointers.now depth count p)) }
{
    let places = read_places(alloc, blocks, layout, pointers, depth, count)?;
    add_places(&places, count, names)?;
    Ok(())
}

/// Adds the places of the first `count` of these nodes.
fn add_places(places: &PlaceMap, count: u32, names: &mut Vec<BlockNumber>) -> Result<(), AllocError>
    ensures { OnOk result ((p : ℕ) → Contains names.new.items p
        ↔ (Contains names.old.items p ⊎ StandsBelow places.now count p)) }
{
    let mut from = 0;
    while let Some(node) = places.next(from, count) {
        add_place(node.place, names)?;
        from = node.index + 1;
    }
    Ok(())
}

/// Adds a place.
fn add_place(place: BlockNumber, names: &mut Vec<BlockNumber>) -> Result<(), AllocError>
    ensures { OnOk result ((p : ℕ)
        → Contains names.new.items p ↔ (Contains names.old.items p ⊎ (place ≡ p))) }
{
    names.push(place)?;
    Ok(())
}

/// How many nodes stand at this height over so many blocks.
pub(crate) fn nodes_at(layout: Layout, count: u32, height: u32) -> u32
    ensures { result ≡ nodes_at layout count height }
{
    if height == 0 {
        return count;
    }
    nodes_at(layout, count, height - 1).div_ceil(layout.fan_out())
}
