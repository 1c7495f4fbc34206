//! The bytes of a block in memory.

ghost use Rattle.std.specs.Prelude.{◌≡◌, ◌↔◌, ℕ, ◌+◌, ◌<◌, ◌≤◌, length, slice_index, IfOk, IsTrue};
ghost use Rattle.layout.specs.Bytes.{zeros};
ghost use Rattle.layout.specs.Maps.{IsIndirectBlock};
ghost use Rattle.buffers.specs.Positions.{with_bytes_at, truncate};

use layout::{BLOCK_BYTES, Layout, is_indirect_block};
use std::alloc::{AllocError, Global};
use std::marker::Model;

/// An indirect block over so many blocks of a file, in an image of this layout and so many blocks.
#[derive(Clone, Copy, Debug)]
struct Indirect {
    layout: Layout,
    blocks: u32,
    used: u32,
}

/// The 4,096 bytes of a block, in memory.
#[derive(Debug, Drop)]
pub struct Block {
    bytes: Box<[u8; BLOCK_BYTES]>,
    /// What they were found to be, so that it isn't tested again while they stay.
    found: Option<Indirect>,
}

impl Model for Block {
    ghost use Rattle.std.specs.Prelude.{◌≡◌, List, ℕ, length, IfSome};
    ghost use Rattle.layout.specs.Maps.{IsIndirectBlock};

    ghost Value = { List ℕ };

    ghost view = { λ b. b.bytes.value };

    ghost invariant = { λ b. (length b.bytes.value ≡ 4096)
        × IfSome b.found (λ f. IsIndirectBlock f.layout f.blocks f.used b.bytes.value) };
}

impl Block {
    /// A block of zeros.
    #[tactic(auto, unfolding(layout::specs::Bytes::zeros))]
    pub fn zeroed(alloc: Global) -> Result<Block, AllocError>
        ensures { IfOk result (λ b. b ≡ zeros 4096) }
    {
        let bytes = Box::new(alloc, [0; BLOCK_BYTES])?;
        Ok(Block { bytes, found: None })
    }

    /// A copy of these bytes.
    pub fn copy_of(alloc: Global, bytes: &[u8; BLOCK_BYTES]) -> Result<Block, AllocError>
        ensures { IfOk result (λ b. b ≡ bytes.now) }
    {
        let bytes = Box::new(alloc, *bytes)?;
        Ok(Block { bytes, found: None })
    }

    /// A block in memory has all its bytes. It does nothing.
    pub fn is_whole(&self)
        ensures { length self.now ≡ 4096 }
    {
        let _ = &self.bytes;
    }

    pub fn bytes(&self) -> &[u8; BLOCK_BYTES]
        ensures { result.now ≡ self.now }
    {
        &self.bytes
    }

    /// Writes bytes from one place on.
    pub fn put(&mut self, at: usize, bytes: &[u8])
        requires { at + length bytes.now ≤ 4096 }
        ensures bytes { (k : ℕ)
            → slice_index self.new k ≡ with_bytes_at (slice_index self.old) at bytes.now k }
        ensures length { length self.new ≡ 4096 }
    {
        self.found = None;
        self.bytes[at..at + bytes.len()].copy_from_slice(bytes);
    }

    /// Writes zeros from one place on.
    pub fn truncate(&mut self, at: usize)
        requires { at ≤ 4096 }
        ensures bytes { (k : ℕ) → slice_index self.new k ≡ truncate (slice_index self.old) at k }
        ensures length { length self.new ≡ 4096 }
    {
        self.found = None;
        self.bytes[at..].fill(0);
    }

    /// Whether it is an indirect block over so many blocks of a file, in an image of this layout and
    /// so many blocks. A block that is one is tested once.
    pub fn is_indirect(&mut self, layout: Layout, blocks: u32, used: u32) -> bool
        ensures same { self.new ≡ self.old }
        ensures is { IsTrue result ↔ IsIndirectBlock layout blocks used self.old }
    {
        if let Some(found) = self.found
            && found.layout == layout
            && found.blocks == blocks
            && found.used == used
        {
            return true;
        }
        let is = is_indirect_block(&self.bytes, layout, blocks, used);
        if is {
            self.found = Some(Indirect {
                layout,
                blocks,
                used,
            });
        }
        is
    }
}
