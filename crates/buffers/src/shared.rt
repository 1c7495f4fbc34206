//! Blocks that several have.

ghost use Rattle.std.specs.Prelude.{◌≡◌, ◌+◌, ◌≤◌, ℕ, length, slice_index, IfOk, OnOk, OnErr};
ghost use Rattle.buffers.specs.Positions.{with_bytes_at};

use crate::Block;
use layout::BLOCK_BYTES;
use std::alloc::{AllocError, Global};
use std::marker::Model;
use std::rc::Rc;

/// A block that several may have: a file and the consistency point that writes it. What one of them
/// has never changes by another.
#[derive(Debug, Drop)]
pub struct SharedBlock {
    block: Rc<Block>,
}

impl Model for SharedBlock {
    ghost use Rattle.std.specs.Prelude.{◌≡◌, List, ℕ, length};

    ghost Value = { List ℕ };

    ghost view = { λ b. b.block.value };

    ghost invariant = { λ b. length b.block.value ≡ 4096 };
}

impl SharedBlock {
    /// A block that nobody else has.
    pub fn new(alloc: Global, block: Block) -> Result<SharedBlock, AllocError>
        ensures { IfOk result (λ b. b ≡ block) }
    {
        block.is_whole();
        match Rc::new(alloc, block) {
            Ok(block) => Ok(SharedBlock { block }),
            Err(_) => Err(AllocError),
        }
    }

    /// A copy of these bytes.
    pub fn copy_of(alloc: Global, bytes: &[u8; BLOCK_BYTES]) -> Result<SharedBlock, AllocError>
        ensures { IfOk result (λ b. b ≡ bytes.now) }
    {
        let block = Block::copy_of(alloc, bytes)?;
        SharedBlock::new(alloc, block)
    }

    /// The same block for somebody else.
    pub fn share(&self) -> Result<SharedBlock, AllocError>
        ensures { IfOk result (λ b. b ≡ self.now) }
    {
        let block = self.block.clone()?;
        Ok(SharedBlock { block })
    }

    /// A block in memory has all its bytes. It does nothing.
    pub fn is_whole(&self)
        ensures { length self.now ≡ 4096 }
    {
        self.block.is_whole();
    }

    pub fn bytes(&self) -> &[u8; BLOCK_BYTES]
        ensures { result.now ≡ self.now }
    {
        self.block.bytes()
    }

    /// Writes bytes from one place on; of a block that somebody else has too, into a copy.
    pub fn put(&mut self, alloc: Global, at: usize, bytes: &[u8]) -> Result<(), AllocError>
        requires { at + length bytes.now ≤ 4096 }
        ensures bytes { OnOk result ((k : ℕ)
            → slice_index self.new k ≡ with_bytes_at (slice_index self.old) at bytes.now k) }
        ensures length { OnOk result (length self.new ≡ 4096) }
        ensures same { OnErr result (self.new ≡ self.old) }
    {
        if let Some(block) = Rc::get_mut(&mut self.block) {
            block.put(at, bytes);
            return Ok(());
        }
        let mut block = Block::copy_of(alloc, self.block.bytes())?;
        block.put(at, bytes);
        *self = SharedBlock::new(alloc, block)?;
        Ok(())
    }
}
