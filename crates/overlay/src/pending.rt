//! A plan that is under way, with its blocks by their places.

ghost use Rattle.std.specs.Prelude.{◌≡◌, IfOk, IfSome, IfNone};
ghost use Rattle.overlay.specs.Indexes.{IsIndex, IsAt};
ghost use Rattle.conspoint.specs.Finished.{IsAbsent};
ghost use Rattle.conspoint.specs.Plans.{IsPlanned};

use buffers::SharedBlock;
use conspoint::{Plan, PlannedBlock};
use std::alloc::{AllocError, Global};

/// The place of a planned block, and which block of the plan it is.
#[derive(Debug, Drop)]
struct Entry {
    place: u32,
    nth: usize,
}

/// A plan that is under way.
#[derive(Debug, Drop)]
pub struct PendingPoint {
    pub(crate) plan: Plan,
    /// An entry for each of its blocks, in the order of their places.
    index: Vec<Entry>,
    ghost indexed: { IsIndex index.items plan.blocks },
}

impl PendingPoint {
    /// A plan with an index of its blocks. It takes all memory that the plan needs while it is
    /// under way.
    pub fn new(alloc: Global, plan: Plan) -> Result<PendingPoint, AllocError>
        ensures plan { IfOk result (λ l. l.plan ≡ plan) }
        ensures planned { IsPlanned plan }
    {
        let index = index_of(alloc, plan.blocks())?;
        Ok(PendingPoint { plan, index })
    }

    /// The planned block at a place; None where the plan has none there.
    pub fn find(&self, place: u32) -> Option<&SharedBlock>
        ensures some { IfSome result (λ b. IsAt self.now.plan.blocks place b.now) }
        ensures none { IfNone result (IsAbsent self.now.plan.blocks place) }
        ensures planned { IsPlanned self.now.plan }
    {
        let blocks = self.plan.blocks();
        match self.index.binary_search_by_key(&place, |entry| entry.place) {
            Ok(at) => Some(&blocks[self.index[at].nth].bytes),
            Err(_) => None,
        }
    }
}

/// An entry for each of these blocks, in the order of their places. The sort takes one pass where
/// they rise already.
fn index_of(alloc: Global, blocks: &[PlannedBlock]) -> Result<Vec<Entry>, AllocError>
    ensures { IfOk result (λ index. IsIndex index.items blocks.now) }
{
    let mut index = Vec::with_capacity(alloc, blocks.len())?;
    for i in 0..blocks.len() {
        index.push(Entry {
            place: blocks[i].place.get(),
            nth: i,
        })?;
    }
    index.sort_by_key(|entry| entry.place)?;
    Ok(index)
}
