//! The places of the nodes under one indirect block.

ghost use Rattle.std.specs.Prelude.{◌≡◌, ◌≢◌, ℕ, ◌<◌, ◌≤◌, IfOk, IfSome, IfNone, length, slice_index_or};
ghost use Rattle.layout.specs.Maps.{indirect_pointer};
ghost use Rattle.layout.specs.Trees.{fan_out};
ghost use Rattle.layout.specs.declared.TheConstants.{BLOCK_POINTERS};
ghost use Rattle.layout.specs.declared.pointer.Pointer.TheVariants.{Hole, Block};

use layout::{BLOCK_BYTES, BLOCK_POINTERS, BlockNumber, Layout, Pointer, indirect_pointer};
use std::alloc::{AllocError, Global};
use std::marker::Model;

/// The pointers to the nodes under one indirect block. There is room for as many as it has in any
/// layout.
#[derive(Debug, Drop)]
pub(crate) struct Group {
    pointers: Box<[Pointer; BLOCK_POINTERS]>,
}

impl Model for Group {
    ghost use Rattle.std.specs.Prelude.{◌≡◌, List, length};
    ghost use Rattle.layout.specs.declared.pointer.Pointer.{Pointer};

    ghost Value = { List Pointer };

    ghost view = { λ g. g.pointers.value };

    ghost invariant = { λ g. length g.pointers.value ≡ 1024 };
}

impl Group {
    /// No node is stored.
    pub(crate) fn holes(alloc: Global) -> Result<Group, AllocError>
        ensures { IfOk result (λ g. (r : ℕ) → slice_index_or g r Hole ≡ Hole) }
    {
        let pointers = Box::new(alloc, [Pointer::Hole; BLOCK_POINTERS])?;
        Ok(Group { pointers })
    }

    /// That to one node, and holes.
    pub(crate) fn with(alloc: Global, r: u32, pointer: Pointer) -> Result<Group, AllocError>
        requires { r < 1024 }
        ensures there { IfOk result (λ g. slice_index_or g r Hole ≡ pointer) }
        ensures others { IfOk result (λ g. (k : ℕ) → k ≢ r → slice_index_or g k Hole ≡ Hole) }
    {
        let mut all = [Pointer::Hole; BLOCK_POINTERS];
        all[r as usize] = pointer;
        let pointers = Box::new(alloc, all)?;
        Ok(Group { pointers })
    }

    /// Those that an indirect block of this layout spells.
    pub(crate) fn spelled(
        alloc: Global,
        layout: Layout,
        bytes: &[u8; BLOCK_BYTES],
    ) -> Result<Group, AllocError>
        ensures { IfOk result (λ g. (r : ℕ) → r < fan_out layout
            → slice_index_or g r Hole ≡ indirect_pointer bytes.now r) }
    {
        let mut group = Group::holes(alloc)?;
        for r in 0..layout.fan_out() {
            group.set(r, indirect_pointer(bytes, r));
        }
        Ok(group)
    }

    /// A copy of the first `count` pointers, and holes behind them.
    pub(crate) fn copy(&self, count: usize) -> [Pointer; BLOCK_POINTERS]
        requires { count ≤ BLOCK_POINTERS }
        ensures count { length result ≡ BLOCK_POINTERS }
        ensures each { (r : ℕ) → r < count
            → slice_index_or result r Hole ≡ slice_index_or self.now r Hole }
        ensures behind { (r : ℕ) → count ≤ r → slice_index_or result r Hole ≡ Hole }
    {
        let mut all = [Pointer::Hole; BLOCK_POINTERS];
        for r in 0..count {
            all[r] = self.pointers[r];
        }
        all
    }

    /// Those to the first `count` nodes, and holes behind them.
    pub(crate) fn first(&self, alloc: Global, count: u32) -> Result<Group, AllocError>
        ensures below { IfOk result (λ g. (r : ℕ) → r < count → r < 1024
            → slice_index_or g r Hole ≡ slice_index_or self.now r Hole) }
        ensures behind { IfOk result (λ g. (r : ℕ) → count ≤ r → slice_index_or g r Hole ≡ Hole) }
    {
        let mut first = Group::holes(alloc)?;
        for r in 0..count.min(BLOCK_POINTERS as u32) {
            first.set(r, self.at(r));
        }
        Ok(first)
    }

    /// The pointer to a node.
    pub(crate) fn at(&self, r: u32) -> Pointer
        requires { r < 1024 }
        ensures { result ≡ slice_index_or self.now r Hole }
    {
        self.pointers[r as usize]
    }

    /// Has this pointer as that to a node.
    pub(crate) fn set(&mut self, r: u32, pointer: Pointer)
        requires { r < 1024 }
        ensures there { slice_index_or self.new r Hole ≡ pointer }
        ensures others { (k : ℕ) → k ≢ r
            → slice_index_or self.new k Hole ≡ slice_index_or self.old k Hole }
    {
        self.pointers[r as usize] = pointer;
    }

    /// The first node that is stored from one on and before another.
    pub(crate) fn next(&self, from: u32, to: u32) -> Option<(u32, BlockNumber)>
        requires { to ≤ 1024 }
        ensures found { IfSome result (λ n. (from ≤ n.0) × (n.0 < to)
            × (slice_index_or self.now n.0 Hole ≡ Block n.1)) }
        ensures before { IfSome result (λ n. (k : ℕ) → from ≤ k → k < n.0
            → slice_index_or self.now k Hole ≡ Hole) }
        ensures none { IfNone result ((k : ℕ) → from ≤ k → k < to
            → slice_index_or self.now k Hole ≡ Hole) }
    {
        for r in from..to {
            if let Pointer::Block(place) = self.at(r) {
                return Some((r, place));
            }
        }
        None
    }
}
