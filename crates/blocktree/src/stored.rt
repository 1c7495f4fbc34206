//! Which blocks of a file are stored.

ghost use Rattle.std.specs.Prelude.{◌≡◌, ℕ, ◌<◌, ◌≤◌, List, OnOk, IfOk, IfSome, IfNone, IsErrOf};
ghost use Rattle.buffers.specs.Reads.{ReadsBlocks};
ghost use Rattle.buffers.specs.Errors.{IsFault};

use crate::place_map::PlaceMap;
use crate::tree::BlockTree;
use buffers::{BlockError, Blocks};
use std::alloc::Global;

impl BlockTree {
    ghost use Rattle.std.specs.Prelude.{IsTrue};
    ghost use Rattle.blocktree.specs.Trees.{AreHoles, AreSettledHoles, AreSettledPlaces, AreSound, is_stored};

    /// The places of the settled blocks. Each indirect block over them that is stored is read and
    /// tested once, and the memory that they take goes by what is stored. Damaged where a pointer or
    /// an indirect block among these is outside the format.
    pub fn settled_places<B: Blocks>(
        &self,
        alloc: Global,
        blocks: &mut B,
    ) -> Result<PlaceMap, BlockError>
        ensures reads { ReadsBlocks B.Blocks IsFault blocks.old blocks.new result }
        ensures places { (disk : ℕ → List ℕ) → B.Shows blocks.old disk
            → IfOk result (AreSettledPlaces disk self.now) }
        ensures sound { (disk : ℕ → List ℕ) → B.Shows blocks.old disk
            → OnOk result (AreSound (B.count blocks.old) disk self.now) }
        ensures damaged { (disk : ℕ → List ℕ) → B.Shows blocks.old disk
            → IsErrOf result BlockError.Damaged
            → AreSound (B.count blocks.old) disk self.now → ⊥ }
        ensures layout { IfOk result (λ places. places.layout ≡ self.now.layout) }
    {
        self.settled_nodes(alloc, blocks, 0)
    }

    /// The first stored block from one index on and before another, where these are the places of
    /// the settled ones.
    pub fn next_stored(&self, places: &PlaceMap, from: u32, to: u32) -> Option<u32>
        ensures within { IfSome result (λ n. (from ≤ n) × (n < to)) }
        ensures stored { (disk : ℕ → List ℕ) → AreSettledPlaces disk self.now places.now
            → IfSome result (λ n. IsTrue (is_stored disk self.now n)) }
        ensures before { (disk : ℕ → List ℕ) → AreSettledPlaces disk self.now places.now
            → IfSome result (AreHoles disk self.now from) }
        ensures none { (disk : ℕ → List ℕ) → AreSettledPlaces disk self.now places.now
            → IfNone result (AreHoles disk self.now from to) }
    {
        let settled = self.next_settled(places, from, to);
        match self.next_changed(from, settled.unwrap_or(to)) {
            Some((i, _)) => Some(i),
            None => settled,
        }
    }

    /// The same of the settled blocks alone, whatever is changed over them.
    fn next_settled(&self, places: &PlaceMap, from: u32, to: u32) -> Option<u32>
        ensures within { IfSome result (λ n. (from ≤ n) × (n < to)) }
        ensures stored { (disk : ℕ → List ℕ) → AreSettledPlaces disk self.now places.now
            → IfSome result (λ n. IsTrue (is_stored disk self.now n)) }
        ensures before { (disk : ℕ → List ℕ) → AreSettledPlaces disk self.now places.now
            → IfSome result (AreSettledHoles disk self.now from) }
        ensures none { (disk : ℕ → List ℕ) → AreSettledPlaces disk self.now places.now
            → IfNone result (AreSettledHoles disk self.now from to) }
    {
        match places.next(from, to.min(self.kept())) {
            Some(node) => Some(node.index),
            None => None,
        }
    }
}
