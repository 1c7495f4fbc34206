//! A disk of zeros: a new image's files are placed over nothing, so nothing of a device is read for
//! it.

ghost use Rattle.std.specs.Prelude.{◌≡◌, ℕ, IfOk};
ghost use Rattle.layout.specs.Bytes.{zeros};

use buffers::{Block, BlockError, Blocks};
use layout::{BLOCK_BYTES, BlockNumber, Layout, is_indirect_block};
use std::alloc::{AllocError, Global};

/// So many blocks of zeros.
#[derive(Debug, Drop)]
pub(crate) struct EmptyDisk {
    count: u32,
    block: Block,
    ghost zero: { block ≡ zeros 4096 },
}

impl EmptyDisk {
    /// A disk of so many blocks.
    pub(crate) fn new(alloc: Global, count: u32) -> Result<EmptyDisk, AllocError>
        ensures { IfOk result (λ d. d.count ≡ count) }
    {
        let block = Block::zeroed(alloc)?;
        Ok(EmptyDisk { count, block })
    }
}

impl Blocks for EmptyDisk {
    ghost Shows = { λ d disk. (place : ℕ) → disk place ≡ zeros 4096 };

    ghost ReadsOn = { λ a b. Unit {0} };

    ghost IsResident = { λ d place. Unit {0} };

    ghost failed = { λ d. 0 };

    ghost count = { λ d. d.count };

    ghost reads_nothing = { λ s. tt };

    fn count(&self) -> u32 {
        self.count
    }

    fn make_resident(&mut self, _place: BlockNumber) -> Result<(), BlockError> {
        Ok(())
    }

    fn bytes(&self, _place: BlockNumber) -> &[u8; BLOCK_BYTES] {
        self.block.bytes()
    }

    fn is_indirect(&mut self, _place: BlockNumber, layout: Layout, used: u32) -> bool {
        is_indirect_block(self.block.bytes(), layout, self.count, used)
    }
}
