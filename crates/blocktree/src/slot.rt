//! What memory has of a file's blocks.

ghost use Rattle.std.specs.Prelude.{◌≡◌, ◌↔◌, ℕ, ◌+◌, ◌≤◌, List, length, slice_index, IfOk, OnErr, IsTrue, IsFalse, Some};
ghost use Rattle.buffers.specs.Positions.{with_bytes_at};
ghost use Rattle.blocktree.specs.Trees.{AreTrimmed, IsChangedSlot, slot_bytes};

use buffers::SharedBlock;
use std::alloc::{AllocError, Global};
use std::collections::BTreeMap;

/// What memory has of a block.
#[derive(Debug, Drop)]
pub enum Slot {
    /// Room for a change; the block is as the settled inode has it.
    AsSettled,
    Changed(SharedBlock),
}

impl Slot {
    /// Writes these bytes into the block, where it is changed, and tells whether it is.
    pub(crate) fn put(&mut self, alloc: Global, at: usize, bytes: &[u8]) -> Result<bool, AllocError>
        requires { at + length bytes.now ≤ 4096 }
        ensures there { IfOk result (λ is. IsTrue is → (below : List ℕ) (k : ℕ)
            → slice_index (slot_bytes (Some self.new) below) k
            ≡ with_bytes_at (slice_index (slot_bytes (Some self.old) below)) at bytes.now k) }
        ensures whole { IfOk result (λ is. IsTrue is → (below : List ℕ)
            → (length (slot_bytes (Some self.old) below) ≡ 4096)
            × (length (slot_bytes (Some self.new) below) ≡ 4096)) }
        ensures told { IfOk result (λ is. IsTrue is ↔ IsChangedSlot (Some self.old)) }
        ensures same { IfOk result (λ is. IsFalse is → self.new ≡ self.old) }
        ensures refused { OnErr result (self.new ≡ self.old) }
        ensures changed { IsChangedSlot (Some self.old) ↔ IsChangedSlot (Some self.new) }
    {
        match self {
            Slot::Changed(block) => {
                block.is_whole();
                block.put(alloc, at, bytes)?;
                Ok(true)
            }
            Slot::AsSettled => Ok(false),
        }
    }
}

/// Lets go of what memory has of the blocks from `count` on. Where it has nothing of them, as while
/// a file grows, none is looked at.
pub(crate) fn truncate_slots(slots: &mut BTreeMap<u32, Slot>, count: u32)
    ensures { AreTrimmed count slots.old slots.new }
{
    let reaches = match slots.last_key_value() {
        Some((last, _)) => *last >= count,
        None => false,
    };
    if reaches {
        slots.retain(|i, _| *i < count);
    }
}
