//! How many blocks of a file are stored, and where its next data and its next hole begin.

ghost use Rattle.std.specs.Prelude.{ℕ, ◌<◌, ◌≤◌, List, OnOk, IfOk, IsTrue, IsFalse, IsErrOf};
ghost use Rattle.layout.specs.Trees.{greatest_size};
ghost use Rattle.layout.specs.declared.trees.Layout.TheVariants.{Summed};
ghost use Rattle.model.specs.Holes.{CountsStored, FindsFirst, FindsHole, TellsExtent};
ghost use Rattle.buffers.specs.Reads.{ReadsBlocks};
ghost use Rattle.buffers.specs.Errors.{IsFault};
ghost use Rattle.blocktree.specs.Trees.{AreSettledPlaces, AreSound, is_stored};

use crate::File;
use crate::changing::block_count;
use blocktree::{BlockTree, PlaceMap};
use buffers::{BlockError, Blocks};
use model::Extent;
use std::alloc::Global;

/// How many blocks of a file of this size are stored, where these are the places of the settled
/// ones.
fn stored_count(tree: &BlockTree, places: &PlaceMap, size: u64) -> u32
    requires { size ≤ greatest_size Summed }
    ensures { (disk : ℕ → List ℕ) → AreSettledPlaces disk tree.now places.now
        → CountsStored (is_stored disk tree.now) size result }
{
    let count = block_count(size);
    let mut stored = 0;
    let mut from = 0;
    while let Some(i) = tree.next_stored(places, from, count) {
        stored += 1;
        from = i + 1;
    }
    stored
}

/// The first place from an offset on in a stored block, in bytes.
fn next_data(tree: &BlockTree, places: &PlaceMap, size: u64, offset: u64) -> Option<u64>
    requires { size ≤ greatest_size Summed }
    ensures { (disk : ℕ → List ℕ) → AreSettledPlaces disk tree.now places.now
        → FindsFirst (is_stored disk tree.now) size offset result }
{
    if offset >= size {
        return None;
    }
    let first = (offset / 4096) as u32;
    match tree.next_stored(places, first, block_count(size)) {
        Some(i) => Some(offset.max(4096 * u64::from(i))),
        None => None,
    }
}

/// The first place from an offset on in a block that isn't stored, or else the file's end, in
/// bytes. None at an offset from the end on.
fn next_hole(tree: &BlockTree, places: &PlaceMap, size: u64, offset: u64) -> Option<u64>
    requires { size ≤ greatest_size Summed }
    ensures { (disk : ℕ → List ℕ) → AreSettledPlaces disk tree.now places.now
        → FindsHole (is_stored disk tree.now) size offset result }
{
    if offset >= size {
        return None;
    }
    let first = (offset / 4096) as u32;
    let i = next_unstored(tree, places, first, block_count(size));
    Some(offset.max(4096 * u64::from(i)).min(size))
}

/// The first block that isn't stored from one index on and before another, or else that one.
fn next_unstored(tree: &BlockTree, places: &PlaceMap, from: u32, to: u32) -> u32
    requires { from ≤ to }
    ensures within { (from ≤ result) × (result ≤ to) }
    ensures before { (disk : ℕ → List ℕ) → AreSettledPlaces disk tree.now places.now
        → (i : ℕ) → from ≤ i → i < result → IsTrue (is_stored disk tree.now i) }
    ensures hole { (disk : ℕ → List ℕ) → AreSettledPlaces disk tree.now places.now
        → result < to → IsFalse (is_stored disk tree.now result) }
{
    let mut i = from;
    while let Some(next) = tree.next_stored(places, i, to) {
        if i < next {
            return i;
        }
        i += 1;
    }
    i
}

impl File {
    /// Counts the stored blocks of the file, and finds its next data and its next hole from an
    /// offset on, in bytes. Bytes that stand in the inode are block 0, which memory has as a changed
    /// one: it counts as stored.
    ///
    /// The places of the settled blocks are read for it, each indirect block over them once, into
    /// memory that goes by what is stored of the file, as a plan of it takes, however large it is.
    /// Damaged where one of these pointers or indirect blocks is outside the format, Device where a
    /// read fails, NoMemory where there is none for the places.
    pub fn extent<B: Blocks>(
        &self,
        alloc: Global,
        blocks: &mut B,
        offset: u64,
    ) -> Result<Extent, BlockError>
        ensures reads { ReadsBlocks B.Blocks IsFault blocks.old blocks.new result }
        ensures told { (disk : ℕ → List ℕ) → B.Shows blocks.old disk → IfOk result
            (TellsExtent (is_stored disk self.now.tree) self.now.size offset) }
        ensures sound { (disk : ℕ → List ℕ) → B.Shows blocks.old disk
            → OnOk result (AreSound (B.count blocks.old) disk self.now.tree) }
        ensures damaged { (disk : ℕ → List ℕ) → B.Shows blocks.old disk
            → IsErrOf result BlockError.Damaged
            → AreSound (B.count blocks.old) disk self.now.tree → ⊥ }
    {
        let places = self.tree.settled_places(alloc, blocks)?;
        let size = self.size();
        Ok(Extent {
            blocks: stored_count(&self.tree, &places, size),
            data: next_data(&self.tree, &places, size, offset),
            hole: next_hole(&self.tree, &places, size, offset),
        })
    }
}
