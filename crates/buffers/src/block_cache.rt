//! Blocks of a disk in memory: those that are in use, and a cache of those that were.

ghost use Rattle.std.specs.Prelude.{◌≡◌, ◌↔◌, ◌≤◌, ◌⊎◌, ℕ, Some, None, OnOk, IsTrue};
ghost use Rattle.layout.specs.Maps.{IsIndirectBlock};
ghost use Rattle.std.specs.Ordering.{nat_cmp};
ghost use Rattle.std.specs.BTreeMap as tree;
ghost use Rattle.buffers.specs.Caches.{cached, capacity, count_cached};
ghost use Rattle.buffers.specs.declared.block_cache.TheConstants.{CACHED_BLOCKS};

use crate::Block;
use layout::Layout;
use lru::LruCache;
use std::alloc::{AllocError, Global};
use std::collections::BTreeMap;
use std::num::NonZeroUsize;

/// How many blocks are kept that nothing uses.
pub const CACHED_BLOCKS: usize = 256;

/// Blocks of a disk in memory.
#[derive(Drop)]
pub struct BlockCache {
    /// Those that were made resident since the last `let_go`.
    pub(crate) held: BTreeMap<u32, Block>,
    /// Those that were let go, as many as there is room for. It is made for the first of them.
    cache: Option<LruCache<u32, Block>>,
    alloc: Global,
    ghost bound: { capacity cache ≡ CACHED_BLOCKS },
}

impl BlockCache {
    ghost use Rattle.buffers.specs.Memory.{Has, Loses};

    /// No block is in memory.
    pub(crate) fn new(alloc: Global) -> BlockCache
        ensures { (place : ℕ) (block : Block) → Has result place block → ⊥ }
    {
        BlockCache {
            held: BTreeMap::new(alloc),
            cache: None,
            alloc,
        }
    }

    /// Takes a block into use.
    pub(crate) fn hold(&mut self, place: u32, block: Block) -> Result<(), AllocError>
        ensures only { (p : ℕ) (b : Block) → Has self.new p b
            → ((p ≡ place) × (b ≡ block)) ⊎ Has self.old p b }
        ensures held { OnOk result (tree.ContainsKey nat_cmp self.new.held place) }
        ensures stays { (p : ℕ) → tree.ContainsKey nat_cmp self.old.held p
            → tree.ContainsKey nat_cmp self.new.held p }
    {
        match self.held.insert(place, block) {
            Ok(_) => Ok(()),
            Err(_) => Err(AllocError),
        }
    }

    /// Whether the block that is in use at a place is an indirect block over so many blocks of a
    /// file, in an image of this layout and so many blocks.
    pub(crate) fn is_indirect(&mut self, place: u32, layout: Layout, blocks: u32, used: u32) -> bool
        requires { tree.ContainsKey nat_cmp self.old.held place }
        ensures loses { Loses self.old self.new }
        ensures stays { (p : ℕ) → tree.ContainsKey nat_cmp self.old.held p
            → tree.ContainsKey nat_cmp self.new.held p }
        ensures is { (block : Block) → tree.get nat_cmp self.old.held place ≡ Some block
            → (IsTrue result ↔ IsIndirectBlock layout blocks used block) }
    {
        match self.held.get_mut(&place) {
            Some(block) => block.is_indirect(layout, blocks, used),
            None => unreachable!(),
        }
    }

    /// The block that the cache has of a place, which has it no longer.
    pub(crate) fn take_cached(&mut self, place: u32) -> Option<Block>
        ensures held { self.new.held ≡ self.old.held }
        ensures loses { Loses self.old self.new }
        ensures gone { (block : Block) → Has self.new place block
            → tree.get nat_cmp self.old.held place ≡ Some block }
        ensures had { (block : Block) → result ≡ Some block → Has self.old place block }
    {
        match &mut self.cache {
            Some(cache) => {
                let _ = cache.len();
                cache.pop(&place)
            }
            None => None,
        }
    }

    /// A block that changes on the disk is in memory no longer.
    pub(crate) fn forget(&mut self, place: u32)
        ensures loses { Loses self.old self.new }
        ensures gone { (block : Block) → Has self.new place block → ⊥ }
    {
        let _ = self.held.remove(&place);
        let _ = self.take_cached(place);
    }

    /// Nothing is in use any longer: the cache gets those that were, as far as there is memory for
    /// it, and drops the ones that weren't used for the longest time.
    pub(crate) fn let_go(&mut self)
        ensures loses { Loses self.old self.new }
        ensures none { tree.IsEmpty self.new.held }
    {
        while let Some((place, block)) = self.held.pop_first() {
            self.cache_block(place, block);
        }
    }

    /// How many blocks the cache has.
    pub(crate) fn cached_count(&self) -> usize
        ensures count { result ≡ count_cached self.now.cache }
        ensures bound { result ≤ CACHED_BLOCKS }
    {
        match &self.cache {
            Some(cache) => cache.len(),
            None => 0,
        }
    }

    /// Puts a block into the cache, where there is memory for it.
    fn cache_block(&mut self, place: u32, block: Block)
        ensures held { self.new.held ≡ self.old.held }
        ensures only { (p : ℕ) (b : Block) → Has self.new p b
            → ((p ≡ place) × (b ≡ block)) ⊎ Has self.old p b }
    {
        self.make_cache();
        if let Some(cache) = &mut self.cache {
            let _ = cache.len();
            let _ = cache.put(place, block);
        }
    }

    /// Makes the cache, where there isn't one and there is memory for it.
    fn make_cache(&mut self)
        ensures held { self.new.held ≡ self.old.held }
        ensures same { (p : ℕ) → cached self.new.cache p ≡ cached self.old.cache p }
    {
        match &self.cache {
            Some(_) => (),
            None => self.cache = new_cache(self.alloc),
        }
    }
}

/// A cache without a block; None where there is no memory for it.
fn new_cache(alloc: Global) -> Option<LruCache<u32, Block>>
    ensures bounded { capacity result ≡ CACHED_BLOCKS }
    ensures none { (p : ℕ) → cached result p ≡ None }
{
    match LruCache::sparse(alloc, NonZeroUsize::new(CACHED_BLOCKS).unwrap()) {
        Ok(cache) => Some(cache),
        Err(_) => None,
    }
}
