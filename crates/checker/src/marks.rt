//! Which blocks trees name, as the entries of the block map should say it.

ghost use Rattle.std.specs.Prelude.{◌≡◌, ◌≢◌, ◌↔◌, ◌⊎◌, ◌<◌, ℕ, IfOk, length, slice_index};
ghost use Rattle.images.specs.BlockMap.{HasBit};

use layout::BlockNumber;
use std::alloc::{AllocError, Global};
use std::marker::Model;

/// The entry that each block of the disk should have in the block map: bit k says that tree k names
/// the block.
#[derive(Drop)]
pub(crate) struct Marks {
    entries: Vec<u32>,
}

impl Model for Marks {
    ghost use Rattle.std.specs.Prelude.{List, ℕ};

    ghost Value = { List ℕ };

    ghost view = { λ m. m.entries.items };
}

impl Marks {
    /// No tree names any of so many blocks.
    pub(crate) fn new(alloc: Global, blocks: u32) -> Result<Marks, AllocError>
        ensures length { IfOk result (λ m. length m ≡ blocks) }
        ensures none { IfOk result (λ m. (k b : ℕ) → HasBit k (slice_index m b) → ⊥) }
    {
        let entries = vec![in alloc; 0u32; blocks as usize]?;
        Ok(Marks { entries })
    }

    /// Marks a block for the trees of these bits, and tells for which of them it was marked before.
    pub(crate) fn mark(&mut self, block: BlockNumber, bits: u32) -> u32
        requires { block < length self.old }
        ensures length { length self.new ≡ length self.old }
        ensures before { (k : ℕ)
            → HasBit k result ↔ (HasBit k (slice_index self.old block) × HasBit k bits) }
        ensures here { (k : ℕ) → HasBit k (slice_index self.new block)
            ↔ (HasBit k (slice_index self.old block) ⊎ HasBit k bits) }
        ensures others { (b : ℕ) → b ≢ block → slice_index self.new b ≡ slice_index self.old b }
    {
        let place = block.get() as usize;
        let old = self.entries[place];
        self.entries[place] = old | bits;
        old & bits
    }

    /// The entry that a block should have.
    pub(crate) fn entry(&self, block: u32) -> u32
        requires { block < length self.now }
        ensures { result ≡ slice_index self.now block }
    {
        self.entries[block as usize]
    }
}
